//! Generated work: eight sessions that insert, delete, change and read rows of t1, drawn from a seed.
//!
//! `Drill` tells turn by turn what comes next: a session makes a step of its statement, or a session
//! asks a new one. It is told of each session whether it has a statement in progress and an open
//! transaction, and knows nothing else of the gateway. The layer above relies on the turns being a
//! function of the seed and of what was told, so that a run can be had again.
#![tactic(auto)]

pub mod drill;
mod generator;
pub mod seen;
mod sessions;
mod statements;
#[cfg(test)]
mod tests;
pub mod turn;
