//! Readers of the files that a catalog is made of: the catalog file, which lists keyspaces, and the
//! VSchema file of each keyspace. Both are JSON.
//!
//! The layer above relies on `read_vschema` and `read_catalog`: what they give is what the file's
//! members mean, and a refusal names the least rule that is broken and of it the least path. Whether
//! names stand for tables and columns is the catalog's to judge.
#![tactic(auto)]

mod breaks;
mod catalog_file;
mod catalog_kinds;
mod file_name;
mod finder;
mod ignored;
mod json;
mod keyspace_file;
mod kinds;
mod least;
mod listing;
mod lookup_def;
mod lookup_flags;
mod lookup_lacks;
mod member;
mod others;
mod path;
mod path_sink;
mod special_table;
mod table_vschema;
mod taken_names;
#[cfg(test)]
mod tests;
mod trimmed;
mod unknown_type;
mod vindex_def;
mod vschema_fault;
mod vschema_file;
mod vschema_rule;
mod walk;
mod wrong_column_vindex;

pub use crate::catalog_file::read_catalog;
pub use crate::file_name::FileName;
pub use crate::keyspace_file::KeyspaceFile;
pub use crate::listing::listing_of;
pub use crate::vschema_fault::VschemaFault;
pub use crate::vschema_file::read_vschema;
pub use crate::vschema_rule::VschemaRule;
