//! What the port's calls do is what the run says.
//!
//! A run tells what happened to a cluster, event by event, and computes from it the one table that clients believe
//! to speak to. The shards hold rows and entries, pending versions and locks. Here stand the laws that tie the two:
//! where the shards show what a run says, then after an act, a commit, a close or a kill they show what the run
//! says with one event more, the one table may make that event's steps, and what the act answered is what the one
//! table and the entries say.
//!
//! The laws are about shards that stay up. They rest on lanes: sessions of main hold and change keys of rows, those
//! of pre and post keys of entries. The crate has no code to run: each function's contract is a law.
#![tactic(auto)]

mod law;

pub use law::{acted, answered, committed, ended, lost, refused, stands, stepped, undisturbed};
