//! The course of any program: what a step of a statement's program is in the run, whichever statement it is.
#![tactic(auto)]

pub mod law;
