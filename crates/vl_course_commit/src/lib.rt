//! The course of a commit: what a step of it is in the run.
//!
//! A commit tells of each step whether it goes on; a run tells which shard session was committed in an event and
//! which answers that allows. Here the one is the other, for the commit that ends a statement of its own and for
//! that of COMMIT, BEGIN and SET autocommit=1: from a commit that stands where the run says, a step is an event that
//! the run may have, and leaves the commit where the run then says.
#![tactic(auto)]

pub mod law;
