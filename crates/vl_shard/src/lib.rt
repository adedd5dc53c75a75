//! The shards behind the port, without a device.
//!
//! A shard has rows in two versions, locks, and the shard sessions that were opened. `Shard` does the acts
//! of a shard session, its commit and its end: a write takes the lock of its key, a locking read those of
//! every key of which a version matches, and a session sees its own changes and else what is committed.
//! `Bank` is the shards of a catalog behind a link that may lose a message. It has each act and each commit
//! carried once, hands it to the shard of its number, and rolls a lost session back at once. The layers
//! above rely on what the port says of each call, and on `Serves`: the key of a pending version is held by
//! the session that made it, a holder isn't lost, and each version stands on the shard of its row. It is
//! strict two-phase locking with reads that see what is committed.
#![tactic(auto)]

pub mod bank;
mod naming;
mod seat;
mod seats;
pub mod shard;
#[cfg(test)]
mod tests;
