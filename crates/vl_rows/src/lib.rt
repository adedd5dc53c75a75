//! The rows of a shard in two versions.
//!
//! Each key has a committed version, or none, and at most one pending version: the row, or the
//! removal, that a shard session, here called a connection and named by its number, has written and
//! not yet committed. The layer above relies on two lists, the committed rows and the pending
//! changes, in which each key stands once, and on what they have at each key: a connection sees its
//! own pending version and else the committed one; settling moves one connection's changes into the
//! committed rows, and abandoning drops them, and neither touches anything else or takes memory. It
//! is read committed with own writes visible; the lock that keeps a key to one writer is the caller's.
#![tactic(auto)]

pub mod change;
mod entry;
mod find;
mod place;
pub mod rows;
mod slot;
#[cfg(test)]
mod tests;
