//! INSERT on shards, one action at a time.
//!
//! An `Insert` is made of a plan: for each row in order a claim of each lookup entry that it needs, and then the
//! row. Each `step` does the action that is due, on one shard, by the transaction's session of its group, and
//! tells whether another one is due, whether it is to be tried again, or the reply. The layer above relies on
//! `Stepped`: the action is the one that the statement owes, it is done once unless it was `Held`, and the reply
//! is that of the answer: a lost session or a failed device ends the transaction. It stands on the port and on
//! the claims alone and knows no shard.
#![tactic(auto)]

pub mod groundwork;
pub mod insert;
pub mod insertion;
mod laying;
pub mod outline;
pub mod target;
pub mod task;
pub mod tasks;
