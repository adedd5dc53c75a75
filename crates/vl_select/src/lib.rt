//! The program of a SELECT, one read at a time.
//!
//! A `Select` is made of a plan. Where the plan's route goes by a lookup, its entries are read first, one
//! value after the other, and name the shards; every other route knows its shards from the start. Then each
//! shard is read in order, with locks for FOR UPDATE and else without. The last read is answered with the
//! result set: ordered, cut and projected. The layer above relies on `Stepped`: the read is the one that is
//! due, it is done once unless it was `Held`, and the reply is that of the port's answer or of the rows.
//!
//! What is made of the rows stands apart and knows no port: their order, LIMIT and the projection (`result`), and
//! the columns (`columns`).
#![tactic(auto)]

pub mod columns;
mod entry_ksids;
pub mod entry_read;
mod groundwork;
mod lost_read;
mod projecting;
pub mod result;
pub mod select;
mod sorting;
mod starting;
#[cfg(test)]
mod tests;
