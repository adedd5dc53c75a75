//! The port: how the gateway reaches a shard, and what that does.
//!
//! Statements, claims and commits go to a shard through [`ShardPort`](port::ShardPort): an act, a commit or
//! a close of one shard session, carried by a link that may lose it. What a port tells is one value,
//! `PortView`: of each shard whether it is up, its incarnation, the committed, the pending and the doubtful
//! version of each key, the holder of each key, and the shard sessions with their fates; of the outside how
//! often it failed. What each call answers and does to that value is said in layers: what a session does
//! that isn't lost, what becomes of the use of a lost one, and what the link makes of it. The layers above
//! rely on these alone and know no shard.
#![tactic(auto)]

pub mod act;
pub mod answer;
pub mod asked;
pub mod asking;
pub mod carried;
pub mod change;
pub mod claimed;
pub mod committed;
pub mod fate;
pub mod found_rows;
pub mod limits;
pub mod link;
pub mod local_link;
pub mod loss;
pub mod opened;
pub mod outcome;
pub mod port;
pub mod script_link;
pub mod shard_list;
pub mod tx_state;
pub mod who;
