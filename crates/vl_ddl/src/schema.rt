ghost use Rattle.std.specs.Prelude.{◌≡◌, ◌-◌, false, true, [], List, map, length, slice_index_or, IfOk, IfErr};
ghost use Rattle.vl_token.specs.View.{tokens_of};
ghost use Rattle.vl_grammar.specs.Reading.{Gives};
ghost use Rattle.vl_ddl.specs.Fault.{IsAt, IsRead, Defines, words_in};
ghost use Rattle.vl_ddl.specs.Grammar.{Table, IsSchema};
ghost use Rattle.vl_ddl.specs.Meaning.{meaning};
ghost use Rattle.vl_ddl.specs.Reading as reading;

use crate::columns::from_first;
use crate::create::create_table;
use crate::meaning::tables_of;
use crate::statement::Statement;
use crate::told::told;
use std::alloc::Global;
use vl_catalog::TableDef;
use vl_grammar::ReadError;
use vl_token::{Tokens, lex};
use vl_values::items::Items;

/// Why a text isn't a schema file. A place is that of the first token with which no schema file
/// goes on, in bytes; the text's length where it ends too early.
#[derive(Clone, Copy, Debug, PartialEq, Eq)]
pub enum DdlFault {
    Syntax { at: usize },
    /// There is another type, another default, UNIQUE or FOREIGN.
    Unsupported { at: usize },
    Memory,
}

// The statements that all of the tokens are.
fn statements(alloc: Global, wide: bool, tokens: Tokens<'_>) -> Result<Vec<Statement>, ReadError>
    ensures { Gives (λ s. s.items) result (reading.schema_at wide (length tokens.now) [] (tokens_of tokens.now)) }
{
    let mut list = Vec::new(alloc);
    let Some(mut rest) = from_first(tokens) else {
        return Err(ReadError::Fault(tokens.len()));
    };
    for _ in 0..tokens.len() {
        if rest.is_empty() {
            return Ok(list);
        }
        let (statement, behind) = match create_table(alloc, wide, rest) {
            Err(error) => return Err(error),
            Ok(read) => read,
        };
        list.push(statement)?;
        rest = behind;
    }
    Ok(list)
}

// The place from which on so many tokens are left, in a text of this length.
fn place(len: usize, lefts: &[usize], left: usize) -> usize
    ensures { result ≡ len - slice_index_or lefts.now (length lefts.now - left) 0 }
{
    match lefts.get(lefts.len().saturating_sub(left)) {
        Some(bytes) => len.saturating_sub(*bytes),
        None => len,
    }
}

// Whether the wider language goes on where so many tokens are left.
fn goes_on(alloc: Global, tokens: Tokens<'_>, left: usize) -> Result<bool, ReadError>
    ensures { IfOk result (λ goes. goes ≡ reading.is_further left (reading.schema_at true (length tokens.now) [] (tokens_of tokens.now))) }
{
    match statements(alloc, true, tokens) {
        Ok(_) => Ok(left > 0),
        Err(ReadError::Fault(wide)) => Ok(wide < left),
        Err(ReadError::Memory) => Err(ReadError::Memory),
    }
}

/// The tables that a schema file defines, in order, or the place of its first fault.
pub fn read_schema(alloc: Global, text: &[u8]) -> Result<Items<TableDef>, DdlFault>
    // What is read is in the grammar, and is what it means.
    ensures found { IfOk result (λ tables. Defines text.now tables) }
    // What is in the grammar is read, unless memory runs out; so a text has one meaning at most.
    ensures only { (ss : List Table) → IsSchema false ss (words_in text.now) → IsRead result (map meaning ss) }
    // Else the place is that of the first fault, and it is told whether the wider language goes on there.
    ensures place { IfErr result (λ e. IsAt e text.now) }
{
    let Ok(lexed) = lex(alloc, text) else {
        return Err(DdlFault::Memory);
    };
    let Ok(words) = told(alloc, lexed.tokens.as_slice()) else {
        return Err(DdlFault::Memory);
    };
    match statements(alloc, false, words.as_slice()) {
        Ok(statements) => match tables_of(alloc, statements.as_slice()) {
            Ok(tables) => Ok(Items::from_vec(tables)),
            Err(_) => Err(DdlFault::Memory),
        },
        Err(ReadError::Memory) => Err(DdlFault::Memory),
        Err(ReadError::Fault(left)) => {
            let at = place(text.len(), lexed.left.as_slice(), left);
            match goes_on(alloc, words.as_slice(), left) {
                Ok(true) => Err(DdlFault::Unsupported { at }),
                Ok(false) => Err(DdlFault::Syntax { at }),
                Err(_) => Err(DdlFault::Memory),
            }
        }
    }
}
