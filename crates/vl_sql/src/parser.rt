ghost use Rattle.std.specs.Prelude.{◌≡◌, ◌-◌, length, slice_index_or, IfOk, IfErr};
ghost use Rattle.vl_token.specs.Lexical.{tokens_in};
ghost use Rattle.vl_token.specs.View.{tokens_of};
ghost use Rattle.vl_grammar.specs.Reading.{Gives};
ghost use Rattle.vl_sql.specs.Fault.{IsAt, IsRead};
ghost use Rattle.vl_sql.specs.Grammar.{IsStatement};
ghost use Rattle.vl_sql.specs.Reading as reading;
ghost use Rattle.vl_sql.specs.declared.stmt.Stmt.{Stmt as AStmt};

use crate::statement::statement;
use crate::stmt::Stmt;
use std::alloc::Global;
use vl_grammar::{ReadError, is_mark};
use vl_token::{Tokens, lex};

/// Why a text isn't a statement.
#[derive(Clone, Copy, Debug, PartialEq, Eq)]
pub enum ParseError {
    /// The place of the first token that no statement continues, in bytes; the text's length where
    /// it ends too early.
    Syntax { at: usize },
    Memory,
}

// The end of a text: nothing, or a `;` and nothing.
fn end(tokens: Tokens<'_>) -> Result<(), ReadError>
    ensures { Gives (λ _. tt) result (reading.end_at (tokens_of tokens.now)) }
{
    match tokens {
        [] => Ok(()),
        [token] => {
            if is_mark(b';', token) {
                return Ok(());
            }
            Err(ReadError::Fault(1))
        }
        [token, rest @ ..] => {
            if is_mark(b';', token) {
                return Err(ReadError::Fault(rest.len()));
            }
            Err(ReadError::Fault(tokens.len()))
        }
    }
}

// The statement that all of the tokens are.
#[tactic(auto, unfolding(crate::specs::Reading::whole_at))]
fn whole(alloc: Global, tokens: Tokens<'_>) -> Result<Stmt, ReadError>
    ensures { Gives (λ s. s) result (reading.whole_at 0 (tokens_of tokens.now)) }
{
    let (stmt, rest) = statement(alloc, tokens)?;
    end(rest)?;
    Ok(stmt)
}

// The place from which on so many tokens are left, in a text of this length.
fn place(len: usize, lefts: &[usize], left: usize) -> usize
    ensures { result ≡ len - slice_index_or lefts.now (length lefts.now - left) 0 }
{
    match lefts.get(lefts.len().saturating_sub(left)) {
        Some(bytes) => len.saturating_sub(*bytes),
        None => len,
    }
}

/// The statement that a text is, or the place of its first fault.
pub fn parse(alloc: Global, text: &[u8]) -> Result<Stmt, ParseError>
    // What is read is in the grammar.
    ensures found { IfOk result (λ s. IsStatement 0 s (tokens_in text.now)) }
    // What is in the grammar is read, unless memory runs out; so a text is one statement at most.
    ensures only { (s : AStmt) → IsStatement 0 s (tokens_in text.now) → IsRead result s }
    // The place is that of the first token that no statement continues.
    ensures place { IfErr result (λ e. IsAt e text.now) }
{
    let Ok(lexed) = lex(alloc, text) else {
        return Err(ParseError::Memory);
    };
    match whole(alloc, lexed.tokens.as_slice()) {
        Ok(stmt) => Ok(stmt),
        Err(ReadError::Memory) => Err(ParseError::Memory),
        Err(ReadError::Fault(left)) => {
            let at = place(text.len(), lexed.left.as_slice(), left);
            Err(ParseError::Syntax { at })
        }
    }
}
