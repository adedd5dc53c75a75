//! The journal of a shard: records behind one another in a file, each behind a gate that opens last.
//!
//! At each moment of an append a crash leaves what was stored, or that and the record; at each moment of the creation of a
//! side nothing, or the whole empty side. An opening finds exactly what is stored up to the first closed gate, or names the
//! first field that breaks a rule of the format.
#![tactic(auto)]

mod appending;
mod creating;
mod device;
mod journal;
mod journal_fault;
mod load_error;
mod loading;
mod opened;

pub use crate::device::Device;
pub use crate::journal::Journal;
pub use crate::journal_fault::JournalFault;
pub use crate::opened::Opened;

#[cfg(test)]
mod tests;
