//! The shards of a statement: those that its route visits, the reads of entries by which a route of a lookup
//! finds them, and the shard that a keyspace id names.
//!
//! What a route visits is a definition of the model (`vl_model`'s `Visiting`); the functions here compute it.
#![tactic(auto)]

pub mod home;
pub mod visiting;
