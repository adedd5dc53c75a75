//! SQL: what the statements of the router are, how a text is read as one, and how one is printed.
//!
//! A statement is plain data with its parts as fields. `parse` answers the one statement that a text
//! is, or the place of the first token that no statement continues; `print` writes a statement in
//! one layout, which `parse` reads as the same statement. The layer above relies on both, and on
//! each list being within its limit and no name standing twice where the grammar forbids it.
#![tactic(auto)]

pub mod assignment;
mod distinct;
mod law;
mod list;
pub mod order;
mod parser;
mod parts;
mod printed;
mod printing;
pub mod sequence;
mod statement;
pub mod stmt;
pub mod table;
pub mod test;
#[cfg(test)]
mod tests;
mod verb;
pub mod what;

pub use law::one_statement;
pub use parser::{ParseError, parse};
pub use printing::print;
