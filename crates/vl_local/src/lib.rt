//! The result sets of the statements that read no table: SHOW TABLES, SHOW DATABASES, SHOW WARNINGS,
//! `SELECT @@version_comment LIMIT 1` and `SELECT DATABASE()`.
//!
//! They are answered from the catalog, the chosen keyspace and the warnings of the statement before, and ask no
//! shard.
#![tactic(auto)]

pub mod listing;
pub mod result_set;
#[cfg(test)]
mod tests;
