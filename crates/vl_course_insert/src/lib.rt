//! The course of an INSERT: what a step of its program is in the run.
//!
//! For each row the program claims the entries that the row needs and then writes the row. Here each of these steps
//! is an event that the run may have, and leaves the program where the run then says.
#![tactic(auto)]

pub mod law;
