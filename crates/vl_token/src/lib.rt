//! Tokens of SQL: how a statement's text is cut into words, texts, numbers and marks.
//!
//! White space and comments separate tokens and mean nothing else. Each token is the longest that
//! begins at its place. Where no token begins, one token `Bad` ends the cutting, so that a reader
//! of statements needs no other kind of fault than a token that nothing continues. A layer above
//! relies on one list of tokens for each text, with the place of each, and on the values that a
//! token stands for: its bytes with escapes undone, its number, its keyword in any case.
#![tactic(auto)]

mod class;
mod decode;
mod lexer;
mod scan;
#[cfg(test)]
mod tests;
mod token;

pub use decode::{number, unescape, unhex};
pub use lexer::{Lexed, lex};
pub use token::{Token, Tokens};
