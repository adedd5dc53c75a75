//! The texts by which replies and script lines name values, keys and shards.
//!
//! `shown` prints a value as rows are printed, by the type of its column; `key_text` prints a key so;
//! `joined_text` prints the values of a duplicate entry; `shard_name` names a shard by its keyspace and
//! its range. Each gives exactly the text of its definition in `specs/`.
#![tactic(auto)]

mod joined;
mod keys;
mod pieces;
mod shards;
#[cfg(test)]
mod tests;
mod values;

pub use crate::joined::joined_text;
pub use crate::keys::key_text;
pub use crate::shards::shard_name;
pub use crate::values::{push_shown, shown};
