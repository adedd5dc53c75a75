//! The commit of a transaction: its shard sessions one after the other, those of pre, then main, then post,
//! each group in the order of first use.
//!
//! `Commit` does one commit a step and takes no memory after its start. The layer above relies on
//! `CommitStepped`: which session was committed, what its shard answered, and what that means. A commit of
//! pre or main that fails ends the transaction, whose other sessions are closed; one of post gives a warning,
//! and the others are still committed. `roll_back` closes all sessions, `abandon` those that a commit has
//! left; behind each of the three nothing of the transaction is left on any shard.
#![tactic(auto)]

pub mod closing;
pub mod commit;
pub mod commit_told;
pub mod failure;
mod sessions;
#[cfg(test)]
mod tests;
pub mod warning;
