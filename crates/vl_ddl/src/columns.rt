ghost use Rattle.std.specs.Prelude.{◌≡◌, List, ℕ, IsSomeAnd, [], ◌∷◌, ◌++◌, not, length, IfOk};
ghost use Rattle.std.specs.Option.{option_map};
ghost use Rattle.std.specs.List.{list_any};
ghost use Rattle.std.specs.Str.{bytes_eq};
ghost use Rattle.vl_token.specs.View.{tok, tokens_of};
ghost use Rattle.vl_grammar.specs.Terminal.{name_of, new_name};
ghost use Rattle.vl_grammar.specs.Reading.{Gives, behind_one, items, one};
ghost use Rattle.vl_ddl.specs.Reading as reading;
ghost use Rattle.vl_ddl.specs.Words.{is_comma};
ghost use Rattle.vl_ddl.specs.Seen.{Holds};

use std::alloc::{AllocError, Global};
use std::collections::HashSet;
use vl_grammar::{ReadError, is_mark, mark, name};
use vl_token::{Token, Tokens};
use vl_values::bytes::Bytes;
use vl_values::items::Items;

/// All of the tokens. A loop variable that starts as a parameter, and not as a call's answer, gets
/// no proof.
pub fn from_first(tokens: Tokens<'_>) -> Option<Tokens<'_>>
    ensures { IsSomeAnd result (λ rest. rest.now ≡ tokens.now) }
{
    Some(tokens)
}

/// The tokens behind the comma that they start with.
pub fn behind_comma(tokens: Tokens<'_>) -> Option<Tokens<'_>>
    ensures { option_map (λ rest. tokens_of rest.now) result ≡ behind_one is_comma (tokens_of tokens.now) }
{
    match tokens {
        [] => None,
        [token, rest @ ..] => {
            if is_mark(b',', token) {
                return Some(rest);
            }
            None
        }
    }
}

/// The bytes of the name that a token is, if it is one.
pub fn name_bytes<'a>(token: &Token<'a>) -> Option<&'a [u8]>
    ensures { option_map (λ w. w.now) result ≡ name_of (tok token.now) }
{
    match token {
        Token::Word(word) | Token::Quoted(word) => Some(*word),
        _ => None,
    }
}

/// Adds a name to those seen, and answers whether it is new.
pub fn see<'a>(seen: &mut HashSet<&'a [u8]>, name: &'a [u8]) -> Result<bool, AllocError>
    ensures { IfOk result (λ fresh. (names : List (List ℕ)) → Holds seen.old names → (fresh ≡ not (list_any (bytes_eq name.now) names)) × Holds seen.new (names ++ name.now ∷ [])) }
{
    Ok(seen.insert(name)?)
}

/// The set of these names.
pub fn name_set<'a>(alloc: Global, names: &'a [Bytes]) -> Result<HashSet<&'a [u8]>, AllocError>
    ensures { IfOk result (λ set. Holds set names.now) }
{
    let mut set = HashSet::new(alloc);
    for name in names {
        see(&mut set, name.as_slice())?;
    }
    Ok(set)
}

// The name at the front, if it is none of those seen, which then have it.
fn new_name<'a>(
    alloc: Global,
    seen: &mut HashSet<&'a [u8]>,
    tokens: Tokens<'a>,
) -> Result<(Bytes, Tokens<'a>), ReadError>
    ensures read { (names : List (List ℕ)) → Holds seen.old names → Gives (λ x. (x.0, tokens_of x.1.now)) result (one (new_name names) (tokens_of tokens.now)) }
    ensures seen { IfOk result (λ x. (names : List (List ℕ)) → Holds seen.old names → Holds seen.new (names ++ x.0 ∷ [])) }
{
    match tokens {
        [] => Err(ReadError::Fault(0)),
        [token, rest @ ..] => {
            let Some(word) = name_bytes(token) else {
                return Err(ReadError::Fault(tokens.len()));
            };
            if !see(seen, word)? {
                return Err(ReadError::Fault(tokens.len()));
            }
            let name = Bytes::from_slice(alloc, word)?;
            Ok((name, rest))
        }
    }
}

// `name, ..`, no name twice
fn new_name_list(alloc: Global, tokens: Tokens<'_>) -> Result<(Vec<Bytes>, Tokens<'_>), ReadError>
    ensures { Gives (λ x. (x.0.items, tokens_of x.1.now)) result (items is_comma (λ before rest. one (new_name before) rest) (length tokens.now) [] (tokens_of tokens.now)) }
{
    let mut seen = HashSet::new(alloc);
    let mut list = Vec::new(alloc);
    let Some(mut rest) = from_first(tokens) else {
        return Err(ReadError::Fault(tokens.len()));
    };
    for _ in 0..tokens.len() {
        let (name, behind) = match new_name(alloc, &mut seen, rest) {
            Err(error) => return Err(error),
            Ok(read) => read,
        };
        list.push(name)?;
        match behind_comma(behind) {
            Some(next) => rest = next,
            None => return Ok((list, behind)),
        }
    }
    Err(ReadError::Fault(rest.len()))
}

// `name, ..`
fn name_list(alloc: Global, tokens: Tokens<'_>) -> Result<(Vec<Bytes>, Tokens<'_>), ReadError>
    ensures { Gives (λ x. (x.0.items, tokens_of x.1.now)) result (items is_comma (λ _ rest. one name_of rest) (length tokens.now) [] (tokens_of tokens.now)) }
{
    let mut list = Vec::new(alloc);
    let Some(mut rest) = from_first(tokens) else {
        return Err(ReadError::Fault(tokens.len()));
    };
    for _ in 0..tokens.len() {
        let (name, behind) = match name(alloc, rest) {
            Err(error) => return Err(error),
            Ok(read) => read,
        };
        list.push(name)?;
        match behind_comma(behind) {
            Some(next) => rest = next,
            None => return Ok((list, behind)),
        }
    }
    Err(ReadError::Fault(rest.len()))
}

#[tactic(auto, unfolding(crate::specs::Reading::names_at))]
fn names(alloc: Global, tokens: Tokens<'_>) -> Result<(Vec<Bytes>, Tokens<'_>), ReadError>
    ensures { Gives (λ x. (x.0.items, tokens_of x.1.now)) result (reading.names_at (tokens_of tokens.now)) }
{
    name_list(alloc, tokens)
}

#[tactic(auto, unfolding(crate::specs::Reading::new_names_at))]
fn new_names(alloc: Global, tokens: Tokens<'_>) -> Result<(Vec<Bytes>, Tokens<'_>), ReadError>
    ensures { Gives (λ x. (x.0.items, tokens_of x.1.now)) result (reading.new_names_at (tokens_of tokens.now)) }
{
    new_name_list(alloc, tokens)
}

/// `(name, ..)`
#[tactic(auto, unfolding(crate::specs::Reading::columns_at))]
pub fn columns(alloc: Global, tokens: Tokens<'_>) -> Result<(Items<Bytes>, Tokens<'_>), ReadError>
    ensures { Gives (λ x. (x.0, tokens_of x.1.now)) result (reading.columns_at (tokens_of tokens.now)) }
{
    let rest = mark(b'(', tokens)?;
    let (columns, rest) = names(alloc, rest)?;
    let rest = mark(b')', rest)?;
    Ok((Items::from_vec(columns), rest))
}

/// `(name, ..)`, no name twice
#[tactic(auto, unfolding(crate::specs::Reading::key_columns_at))]
pub fn key_columns(
    alloc: Global,
    tokens: Tokens<'_>,
) -> Result<(Items<Bytes>, Tokens<'_>), ReadError>
    ensures { Gives (λ x. (x.0, tokens_of x.1.now)) result (reading.key_columns_at (tokens_of tokens.now)) }
{
    let rest = mark(b'(', tokens)?;
    let (columns, rest) = new_names(alloc, rest)?;
    let rest = mark(b')', rest)?;
    Ok((Items::from_vec(columns), rest))
}
