//! The terminals of SQL's grammar, and the laws of readers made of them.
//!
//! A statement is a list of items: keywords in any case, names, literals and marks. A token may be
//! several items, so that no keyword is reserved: a place of the grammar asks for a keyword or for
//! a name, and a word is either. A reader takes the tokens from the front on, looks at no more than
//! the next one, and fails at the first token that nothing continues. A layer above composes its
//! rules of these readers, and takes from the laws that what a rule reads is in its language, that
//! all of its language is read, and that its fault is at the first token that can't go on.
#![tactic(auto)]

mod read_error;
mod terminal;
#[cfg(test)]
mod tests;
mod writer;

pub use read_error::ReadError;
pub use terminal::{
    bit, called, charset, count, digits, is_key, is_mark, is_variable, key, literal, mark, name,
    starts_key, starts_mark, starts_variable, variable,
};
pub use writer::Writer;
