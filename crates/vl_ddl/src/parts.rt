ghost use Rattle.std.specs.Prelude.{◌≡◌, ℕ, List, [], ◌∷◌, ◌++◌, ◌||◌, length, IfOk, IfSome};
ghost use Rattle.vl_token.specs.View.{tok, tokens_of};
ghost use Rattle.vl_grammar.specs.Terminal.{name_of};
ghost use Rattle.vl_grammar.specs.Reading.{Gives, items};
ghost use Rattle.vl_ddl.specs.Reading as reading;
ghost use Rattle.vl_ddl.specs.Reading.{opened_names};
ghost use Rattle.vl_ddl.specs.Grammar.{names_in, column_names, has_key, is_primary};
ghost use Rattle.vl_ddl.specs.Words as words;
ghost use Rattle.vl_ddl.specs.Words.{is_comma};
ghost use Rattle.vl_ddl.specs.Seen.{Holds};

use crate::column_part::ColumnPart;
use crate::columns::{behind_comma, columns, from_first, key_columns, name_bytes, see};
use crate::opening::Opening;
use crate::options::options;
use crate::part::Part;
use crate::types::declared_type;
use std::alloc::{AllocError, Global};
use std::collections::HashSet;
use vl_grammar::{ReadError, is_key, key, name};
use vl_token::{Token, Tokens};
use vl_values::bytes::Bytes;

/// KEY or INDEX.
pub fn is_index(token: &Token) -> bool
    ensures { result ≡ words.is_index (tok token.now) }
{
    is_key(b"KEY", token) || is_key(b"INDEX", token)
}

/// UNIQUE or FOREIGN.
pub fn is_other_key(token: &Token) -> bool
    ensures { result ≡ words.is_other_key (tok token.now) }
{
    is_key(b"UNIQUE", token) || is_key(b"FOREIGN", token)
}

// A column's name, if it is none of those seen, which then have it.
fn column_opening<'a>(
    alloc: Global,
    seen: &mut HashSet<&'a [u8]>,
    token: &Token<'a>,
) -> Result<Option<Opening>, AllocError>
    ensures read { IfOk result (λ o. (names : List (List ℕ)) → Holds seen.old names → o ≡ reading.column_opening names (name_of (tok token.now))) }
    ensures seen { IfOk result (λ o. IfSome o (λ opening. (names : List (List ℕ)) → Holds seen.old names → Holds seen.new (names ++ opened_names opening))) }
{
    let Some(word) = name_bytes(token) else {
        return Ok(None);
    };
    if !see(seen, word)? {
        return Ok(None);
    }
    let name = Bytes::from_slice(alloc, word)?;
    Ok(Some(Opening::Column(name)))
}

// What a part begins with.
fn opening_of<'a>(
    alloc: Global,
    wide: bool,
    has_key: bool,
    seen: &mut HashSet<&'a [u8]>,
    token: &Token<'a>,
) -> Result<Option<Opening>, AllocError>
    ensures read { IfOk result (λ o. (names : List (List ℕ)) → Holds seen.old names → o ≡ reading.opening_of wide names has_key (tok token.now)) }
    ensures seen { IfOk result (λ o. IfSome o (λ opening. (names : List (List ℕ)) → Holds seen.old names → Holds seen.new (names ++ opened_names opening))) }
{
    if is_index(token) {
        return Ok(Some(Opening::Index));
    }
    if is_key(b"PRIMARY", token) {
        if has_key {
            return Ok(None);
        }
        return Ok(Some(Opening::Primary));
    }
    if is_other_key(token) {
        if wide {
            return Ok(Some(Opening::OtherKey));
        }
        return Ok(None);
    }
    column_opening(alloc, seen, token)
}

// `name (name, ..)` behind KEY or INDEX
#[tactic(auto, unfolding(crate::specs::Reading::index_at))]
fn index(alloc: Global, tokens: Tokens<'_>) -> Result<(Part, Tokens<'_>), ReadError>
    ensures read { Gives (λ x. (x.0, tokens_of x.1.now)) result (reading.index_at (tokens_of tokens.now)) }
    ensures named { IfOk result (λ x. names_in x.0 ≡ []) }
{
    let (name, rest) = name(alloc, tokens)?;
    let (columns, rest) = columns(alloc, rest)?;
    Ok((Part::Index(name, columns), rest))
}

// `KEY (name, ..)` behind PRIMARY
#[tactic(auto, unfolding(crate::specs::Reading::primary_key_at))]
fn primary_key(alloc: Global, tokens: Tokens<'_>) -> Result<(Part, Tokens<'_>), ReadError>
    ensures read { Gives (λ x. (x.0, tokens_of x.1.now)) result (reading.primary_key_at (tokens_of tokens.now)) }
    ensures named { IfOk result (λ x. names_in x.0 ≡ []) }
{
    let rest = key(b"KEY", tokens)?;
    let (columns, rest) = key_columns(alloc, rest)?;
    Ok((Part::PrimaryKey(columns), rest))
}

// A column behind its name.
#[tactic(auto, unfolding(crate::specs::Reading::column_at))]
fn column(
    wide: bool,
    has_key: bool,
    name: Bytes,
    tokens: Tokens<'_>,
) -> Result<(Part, Tokens<'_>), ReadError>
    ensures read { Gives (λ x. (x.0, tokens_of x.1.now)) result (reading.column_at wide has_key name (tokens_of tokens.now)) }
    ensures named { IfOk result (λ x. names_in x.0 ≡ name ∷ []) }
{
    let (ty, rest) = declared_type(wide, tokens)?;
    let (options, rest) = options(wide, has_key, rest)?;
    let column = ColumnPart { name, ty, options };
    Ok((Part::Column(column), rest))
}

// A part behind its first token.
fn body(
    alloc: Global,
    wide: bool,
    has_key: bool,
    opening: Opening,
    tokens: Tokens<'_>,
) -> Result<(Part, Tokens<'_>), ReadError>
    ensures read { Gives (λ x. (x.0, tokens_of x.1.now)) result (reading.body_at wide has_key opening (tokens_of tokens.now)) }
    ensures named { IfOk result (λ x. names_in x.0 ≡ opened_names opening) }
{
    match opening {
        Opening::Index => index(alloc, tokens),
        Opening::Primary => primary_key(alloc, tokens),
        Opening::OtherKey => Ok((Part::OtherKey, tokens)),
        Opening::Column(name) => column(wide, has_key, name, tokens),
    }
}

// A part, whose column's name is none of those seen, which then have it.
#[tactic(auto, unfolding(crate::specs::Reading::part_at))]
fn part<'a>(
    alloc: Global,
    wide: bool,
    has_key: bool,
    seen: &mut HashSet<&'a [u8]>,
    tokens: Tokens<'a>,
) -> Result<(Part, Tokens<'a>), ReadError>
    ensures read { (names : List (List ℕ)) → Holds seen.old names → Gives (λ x. (x.0, tokens_of x.1.now)) result (reading.part_at wide names has_key (tokens_of tokens.now)) }
    ensures seen { IfOk result (λ x. (names : List (List ℕ)) → Holds seen.old names → Holds seen.new (names ++ names_in x.0)) }
{
    match tokens {
        [] => Err(ReadError::Fault(0)),
        [token, rest @ ..] => {
            let Some(opening) = opening_of(alloc, wide, has_key, seen, token)? else {
                return Err(ReadError::Fault(tokens.len()));
            };
            body(alloc, wide, has_key, opening, rest)
        }
    }
}

// Whether there is a primary key, behind this part.
fn keyed(has_key: bool, part: &Part) -> bool
    ensures { result ≡ (has_key || is_primary part.now) }
{
    match part {
        Part::Column(column) => has_key || column.options.primary,
        Part::PrimaryKey(_) => true,
        Part::Index(_, _) | Part::OtherKey => has_key,
    }
}

// `part, ..`
fn part_list(
    alloc: Global,
    wide: bool,
    tokens: Tokens<'_>,
) -> Result<(Vec<Part>, Tokens<'_>), ReadError>
    ensures { Gives (λ x. (x.0.items, tokens_of x.1.now)) result (items is_comma (λ before rest. reading.part_at wide (column_names before) (has_key before) rest) (length tokens.now) [] (tokens_of tokens.now)) }
{
    let mut seen = HashSet::new(alloc);
    let mut has_key = false;
    let mut list = Vec::new(alloc);
    let Some(mut rest) = from_first(tokens) else {
        return Err(ReadError::Fault(tokens.len()));
    };
    for _ in 0..tokens.len() {
        let (part, behind) = match part(alloc, wide, has_key, &mut seen, rest) {
            Err(error) => return Err(error),
            Ok(read) => read,
        };
        has_key = keyed(has_key, &part);
        list.push(part)?;
        match behind_comma(behind) {
            Some(next) => rest = next,
            None => return Ok((list, behind)),
        }
    }
    Err(ReadError::Fault(rest.len()))
}

/// The parts of a table: no column twice, and one primary key at most.
#[tactic(auto, unfolding(crate::specs::Reading::parts_at))]
pub fn parts(
    alloc: Global,
    wide: bool,
    tokens: Tokens<'_>,
) -> Result<(Vec<Part>, Tokens<'_>), ReadError>
    ensures { Gives (λ x. (x.0.items, tokens_of x.1.now)) result (reading.parts_at wide (tokens_of tokens.now)) }
{
    part_list(alloc, wide, tokens)
}
