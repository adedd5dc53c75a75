//! The course of a statement: what a step of its program is in the run.
//!
//! A program tells of each step what became of it; a run tells which act was done in an event and which answers
//! that allows. Here the one is the other: from a program that stands where the run says, a step is an event that
//! the run may have, and leaves the program where the run then says.
#![tactic(auto)]

pub mod law;
