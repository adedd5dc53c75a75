//! What the programs of all statements share: what a step tells, and replies and refusals with their causes.
//!
//! The cause of a refusal is a function of the catalog and of what the shard answered (`specs/Refusing`);
//! `specs/Effects` says what a step leaves of its transaction.
#![tactic(auto)]

pub mod program_told;
pub mod refusing;
pub mod tally;
pub mod telling;
pub mod text_length;
