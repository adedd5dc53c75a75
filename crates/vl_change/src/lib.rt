//! UPDATE and DELETE on shards, one action at a time.
//!
//! A `Change` reads the rows that match on each shard of its route, with their locks, and then writes what
//! changes of them. Each `step` does the action that is due, by the transaction's main session on one shard, and
//! tells whether another one is due, whether it is to be tried again, or the reply. The layer above relies on
//! `Stepped`: the action is the one that the statement owes, it is done once unless it was `Held`, and the reply
//! is that of the port's answer. It stands on the port alone and knows no shard.
//!
//! The rows that the reads give are counted against the limits of a result, before anything is written.
#![tactic(auto)]

pub mod action;
mod actions;
pub mod change;
mod changes;
mod groundwork;
pub mod row_change;
pub mod running;
pub mod search;
mod starting;
#[cfg(test)]
mod tests;
