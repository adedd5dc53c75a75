//! Values, keys, rows and replies: the plain data that every layer above speaks of.
//!
//! A value is NULL, a signed or an unsigned 64-bit number, or bytes; a row is a list of values, and a
//! key is a table's number with the values of its primary key. Contracts see each collection as the
//! list of what it holds. The layers above rely on one total order of values, whose equality is `=`:
//! NULL is least, numbers go by value, and bytes by their first difference. A refusal of a statement
//! is a `Cause`; its text is that of the error packet and of a script's reply line. What failed of a
//! statement that was done is a `Warning`.
#![tactic(auto)]

pub mod bytes;
pub mod cause;
#[cfg(test)]
mod cause_tests;
pub mod col_type;
pub mod error_text;
pub mod fit;
pub mod fit_fault;
#[cfg(test)]
mod fit_tests;
pub mod group;
pub mod items;
pub mod key;
pub mod limit;
pub mod lost_why;
pub mod order;
pub mod piece;
pub mod pred;
pub mod reply;
pub mod reply_column;
pub mod row;
pub mod shard_name;
pub mod test;
pub mod tests;
pub mod try_copy;
#[cfg(test)]
mod unit_tests;
pub mod unsupported;
pub mod value;
pub mod warning;

/// A table's number in its catalog, counted from 0.
pub type TableNo = u32;

/// A column's number: its place among the columns of its table, counted from 0.
pub type ColumnNo = usize;

/// A shard's number in its catalog, counted from 0.
pub type ShardNo = u32;

/// A client session's number, counted from 1 in the order of joining.
pub type SessionNo = u32;

/// A transaction's number.
pub type TxNo = u64;

/// A shard session's number on its shard. No two open shard sessions of a shard have one number.
pub type ConnNo = u32;
