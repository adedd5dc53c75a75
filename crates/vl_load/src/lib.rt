//! Loading a catalog: from the name of its catalog file to a catalog that keeps the rules, or to the
//! first fault; and the lines by which either is told.
//!
//! The layer above relies on `load` and `report`. Files come from `vl_base`'s `Files`; what they mean is
//! said by the readers below, and whether the catalog keeps the rules by `vl_rules`. This crate puts
//! them in order: the catalog file, then all other files loaded, then all read, then the ranges and the
//! ring of each keyspace, then the rules.
#![tactic(auto)]

mod file_text;
mod ignored;
mod keyspace_read;
mod keyspace_texts;
mod load_fault;
mod loaded;
mod loading;
mod names;
mod reading;
mod refused;
mod report_lines;
mod rings;
#[cfg(test)]
mod tests;
mod text;
mod texts;

pub use crate::load_fault::LoadFault;
pub use crate::loaded::Loaded;
pub use crate::loading::load;
pub use crate::refused::Refused;
pub use crate::report_lines::report;
