//! One step of a statement that runs: what was done, what is told of it, and what the session has in hand then.
#![tactic(auto)]

mod done;
mod due;
mod due_act;
mod ending;
pub mod law;
mod refusing;
pub mod running;
mod telling;
