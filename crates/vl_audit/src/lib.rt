//! The audit of stored tables: rows without an entry that they need, unique values on two rows, and
//! entries that no row needs.
//!
//! `audit` looks at the rows of all shards at once, which nothing else in the gateway does. For each
//! lookup it puts what the entries map, and what the rows need, into ordered maps, and then looks each
//! row and each entry up there; so its time is that of sorting the rows. The layer above relies on the
//! three lists being exact, each row once and in order.
#![tactic(auto)]

mod auditing;
mod doubled;
mod doubled_rows;
mod entries;
mod finds;
mod found;
mod gathering;
mod gives;
mod mapping;
mod missing;
mod needed;
mod orphans;
mod repeated;
mod report;
mod sightings;
#[cfg(test)]
mod tests;
mod unmet;
mod unneeded;

pub use crate::auditing::audit;
pub use crate::found::Found;
pub use crate::report::Report;
