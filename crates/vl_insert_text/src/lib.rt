//! The one statement text that is known: `INSERT INTO t1(id,u) VALUES(N,M)`, where N and M have 1 to 20
//! decimal digits and values of 64 bits.
//!
//! Scripts and connections both read statements by `statement_of`. They rely on this: it gives the
//! statement that a text says, and none exactly where the text says none.
#![tactic(auto)]

mod insert;
mod number;
mod statement;

pub use statement::statement_of;

#[cfg(test)]
mod tests;
