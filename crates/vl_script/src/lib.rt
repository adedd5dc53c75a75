//! The lines of the script language: what a line of a script says, byte for byte.
//!
//! A script drives sessions, faults and crashes, one line an event. The layers above rely on `read_line`:
//! it gives the one line that a text says, and a refusal exactly where the text says none. Whether a
//! shard or a session of that name exists is theirs to judge.
#![tactic(auto)]

pub mod bad_line;
pub mod line;
mod number;
pub mod pick;
pub mod read_line;
mod session_line;
mod shard_line;
pub mod side;
#[cfg(test)]
mod tests;
mod whole_line;
mod words;
