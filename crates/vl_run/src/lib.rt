//! The run: the words in which the core's promises over many events are made.
//!
//! A run is what happened to a cluster, event by event. What the tables are, what a transaction has changed and
//! holds, which statement is in progress and how far it has come: each is a function of the events up to there.
//! `specs/Machine` is the one table that clients believe to speak to, with its steps; an event tells what was
//! done, and its steps are a function of that. `specs/Session` says what a client session's statements do to its
//! transaction, and `specs/Allowed` which replies an event may have. Nothing here says how the core does it. [`Trace`](trace::Trace) keeps the events of a cluster.
#![tactic(auto)]

pub mod ask;
pub mod deed;
pub mod ends;
pub mod event;
pub mod fault;
pub mod mark;
pub mod request;
pub mod tag;
#[cfg(test)]
mod tests;
pub mod trace;
pub mod what;
