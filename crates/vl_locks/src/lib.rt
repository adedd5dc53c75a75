//! The locks of a shard's keys.
//!
//! A key has at most one holder, which is a shard session, here called a connection and named by its
//! number. A key may be held whether a row has it or not. The layer above relies on this: taking a
//! key is refused exactly where another connection holds it, and letting go, of one key or of all
//! keys of a connection, touches no other key and takes no memory. It is the exclusive row lock of
//! two-phase locking: what is taken stays until its session ends.
#![tactic(auto)]

pub mod locks;
mod place;
pub mod take;
#[cfg(test)]
mod tests;
