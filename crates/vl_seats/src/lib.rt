//! The joined client sessions of a cluster, as the run of its events has them.
#![tactic(auto)]

pub mod law;
pub mod seat;
