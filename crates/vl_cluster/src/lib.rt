//! The core: the shards of catalog A's table t1 and of its lookup table, and one event at a time on them.
//!
//! An INSERT claims its value of u by the entry that the lookup table holds for it, on the entry's own
//! shard, and then writes the row on the row's shard. The layers above rely on two promises: each event
//! is a step of ONE table with its unique keys, and the tables of all shards are sound after every
//! event. A session's events follow one another: a pass is good for its next event alone.
#![tactic(auto)]

pub mod ask;
pub mod cluster;
mod entry;
mod insert;
mod line;
pub mod pass;
mod place;
pub mod session;
mod sessions;
mod shard;
pub mod taken;
#[cfg(test)]
mod tests;
pub mod told;
pub mod what;
