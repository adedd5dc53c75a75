//! One step of a commit that ends a statement: what was done, what is told of it, and what the session has in hand then.
#![tactic(auto)]

pub mod committing;
mod dealing;
mod dealt;
mod telling;
