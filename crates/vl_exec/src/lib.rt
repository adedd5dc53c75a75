//! Statements on shards, one action at a time.
//!
//! A `Program` is made of a plan: an INSERT with its claims, a SELECT, or an UPDATE or DELETE of a table without
//! lookups. Each `step` does the action that is due, on one shard, by the transaction's session of its group, and
//! tells whether another one is due, whether it is to be tried again, or the reply. The layer above relies on
//! `Stepped`, which is that of the statement's own crate, and on the clauses that hold for all of them: what a
//! refusal leaves, that each program comes to its end, and that others keep what they have.
#![tactic(auto)]

#[cfg(test)]
mod lookup_tests;
pub mod program;
pub mod running;
#[cfg(test)]
mod test_catalogs;
#[cfg(test)]
mod test_player;
#[cfg(test)]
mod test_stage;
#[cfg(test)]
mod tests;
