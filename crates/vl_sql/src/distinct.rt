ghost use Rattle.std.specs.Prelude.{◌≡◌, Bool, List, ℕ, [], ◌∷◌, ◌++◌, not, map, length, Ok, IfOk};
ghost use Rattle.std.specs.Option.{option_map};
ghost use Rattle.std.specs.List.{list_any};
ghost use Rattle.std.specs.Str.{bytes_eq};
ghost use Rattle.vl_token.specs.Tok.{Tok};
ghost use Rattle.vl_token.specs.View.{tok, tokens_of};
ghost use Rattle.vl_grammar.specs.Terminal.{name_of, new_name};
ghost use Rattle.vl_grammar.specs.Reading.{Read, Gives, behind_one, items, one};
ghost use Rattle.vl_sql.specs.Reading as reading;
ghost use Rattle.vl_sql.specs.Reading.{is_comma, any_number, named_at};
ghost use Rattle.vl_sql.specs.Seen.{Holds};

use crate::assignment::Assignment;
use crate::list::from_first;
use crate::sequence::Sequence;
use std::alloc::{AllocError, Global};
use std::collections::HashSet;
use vl_grammar::{ReadError, is_mark, literal, mark};
use vl_token::{Token, Tokens};
use vl_values::bytes::Bytes;

/// What lists of a statement are made of where no name may stand twice: a name, and what stands
/// behind it.
pub trait Named: Sized + Drop {
    ghost name_in: { Self → List ℕ };

    ghost behind_name_at: { List ℕ → List Tok → Read Self };

    fn behind_name(
        alloc: Global,
        name: Bytes,
        tokens: Tokens<'_>,
    ) -> Result<(Self, Tokens<'_>), ReadError>
        ensures read { Gives (λ x. (x.0, tokens_of x.1.now)) result (behind_name_at name (tokens_of tokens.now)) }
        ensures named { IfOk result (λ x. name_in x.0 ≡ name) };
}

impl Named for Bytes {
    ghost name_in = { λ n. n };

    ghost behind_name_at = { λ n ts. Ok (n, ts) };

    fn behind_name(
        _alloc: Global,
        name: Bytes,
        tokens: Tokens<'_>,
    ) -> Result<(Bytes, Tokens<'_>), ReadError> {
        Ok((name, tokens))
    }
}

#[tactic(auto, unfolding(crate::specs::Reading::assigned_at))]
impl Named for Assignment {
    ghost name_in = { λ a. a.column };

    ghost behind_name_at = { reading.assigned_at };

    fn behind_name(
        alloc: Global,
        name: Bytes,
        tokens: Tokens<'_>,
    ) -> Result<(Assignment, Tokens<'_>), ReadError> {
        let rest = mark(b'=', tokens)?;
        let (value, rest) = literal(alloc, rest)?;
        let assignment = Assignment {
            column: name,
            value,
        };
        Ok((assignment, rest))
    }
}

// The bytes of the name that a token is, if it is one.
fn name_bytes<'a>(token: &Token<'a>) -> Option<&'a [u8]>
    ensures { option_map (λ w. w.now) result ≡ name_of (tok token.now) }
{
    match token {
        Token::Word(word) | Token::Quoted(word) => Some(*word),
        _ => None,
    }
}

// Adds a name to those seen, and answers whether it is new.
fn see<'a>(seen: &mut HashSet<&'a [u8]>, name: &'a [u8]) -> Result<bool, AllocError>
    ensures { IfOk result (λ fresh. (names : List (List ℕ)) → Holds seen.old names → (fresh ≡ not (list_any (bytes_eq name.now) names)) × Holds seen.new (names ++ name.now ∷ [])) }
{
    Ok(seen.insert(name)?)
}

// The name at the front, if it is none of those seen, which then have it.
fn fresh_name<'a>(
    alloc: Global,
    seen: &mut HashSet<&'a [u8]>,
    tokens: Tokens<'a>,
) -> Result<(Bytes, Tokens<'a>), ReadError>
    ensures read { (names : List (List ℕ)) → Holds seen.old names → Gives (λ x. (x.0, tokens_of x.1.now)) result (one (new_name names) (tokens_of tokens.now)) }
    ensures seen { IfOk result (λ x. (names : List (List ℕ)) → Holds seen.old names → Holds seen.new (names ++ x.0 ∷ [])) }
{
    match tokens {
        [] => Err(ReadError::Fault(0)),
        [token, rest @ ..] => {
            let Some(word) = name_bytes(token) else {
                return Err(ReadError::Fault(tokens.len()));
            };
            if !see(seen, word)? {
                return Err(ReadError::Fault(tokens.len()));
            }
            let name = Bytes::from_slice(alloc, word)?;
            Ok((name, rest))
        }
    }
}

// A member whose name is none of those seen.
fn fresh_member<'a, N: Named>(
    alloc: Global,
    seen: &mut HashSet<&'a [u8]>,
    tokens: Tokens<'a>,
) -> Result<(N, Tokens<'a>), ReadError>
    ensures read { (names : List (List ℕ)) → Holds seen.old names → Gives (λ x. (x.0, tokens_of x.1.now)) result (named_at N.behind_name_at names (tokens_of tokens.now)) }
    ensures seen { IfOk result (λ x. (names : List (List ℕ)) → Holds seen.old names → Holds seen.new (names ++ N.name_in x.0 ∷ [])) }
{
    let (name, rest) = match fresh_name(alloc, seen, tokens) {
        Err(error) => return Err(error),
        Ok(read) => read,
    };
    N::behind_name(alloc, name, rest)
}

// The tokens behind the comma that they start with.
fn behind_comma(tokens: Tokens<'_>) -> Option<Tokens<'_>>
    ensures { option_map (λ rest. tokens_of rest.now) result ≡ behind_one is_comma (tokens_of tokens.now) }
{
    match tokens {
        [] => None,
        [token, rest @ ..] => {
            if is_mark(b',', token) {
                return Some(rest);
            }
            None
        }
    }
}

/// A list with commas, in which no name stands twice: it fails at the second.
fn distinct<N: Named>(alloc: Global, tokens: Tokens<'_>) -> Result<(Vec<N>, Tokens<'_>), ReadError>
    ensures { Gives (λ x. (x.0.items, tokens_of x.1.now)) result (items is_comma (λ before rest. named_at N.behind_name_at (map N.name_in before) rest) (length tokens.now) [] (tokens_of tokens.now)) }
{
    let mut seen = HashSet::new(alloc);
    let mut list = Vec::new(alloc);
    let Some(mut rest) = from_first(tokens) else {
        return Err(ReadError::Fault(tokens.len()));
    };
    for _ in 0..tokens.len() {
        let (member, behind) = match fresh_member::<N>(alloc, &mut seen, rest) {
            Err(error) => return Err(error),
            Ok(read) => read,
        };
        list.push(member)?;
        match behind_comma(behind) {
            Some(next) => rest = next,
            None => return Ok((list, behind)),
        }
    }
    Err(ReadError::Fault(rest.len()))
}

#[tactic(auto, unfolding(crate::specs::Reading::any_number))]
fn all_distinct<N: Named>(
    alloc: Global,
    tokens: Tokens<'_>,
) -> Result<(Vec<N>, Tokens<'_>), ReadError>
    ensures { Gives (λ x. (x.0.items, tokens_of x.1.now)) result (any_number is_comma (λ before rest. named_at N.behind_name_at (map N.name_in before) rest) (tokens_of tokens.now)) }
{
    distinct(alloc, tokens)
}

/// `(name, ..)`, no name twice
#[tactic(auto, unfolding(crate::specs::Reading::columns_at))]
pub fn columns(
    alloc: Global,
    tokens: Tokens<'_>,
) -> Result<(Sequence<Bytes>, Tokens<'_>), ReadError>
    ensures { Gives (λ x. (x.0, tokens_of x.1.now)) result (reading.columns_at (tokens_of tokens.now)) }
{
    let rest = mark(b'(', tokens)?;
    let (columns, rest) = all_distinct::<Bytes>(alloc, rest)?;
    let rest = mark(b')', rest)?;
    Ok((Sequence::from_vec(columns), rest))
}

/// `name = literal, ..`, no name twice
pub fn assignments(
    alloc: Global,
    tokens: Tokens<'_>,
) -> Result<(Sequence<Assignment>, Tokens<'_>), ReadError>
    ensures { Gives (λ x. (x.0, tokens_of x.1.now)) result (any_number is_comma reading.assignment_at (tokens_of tokens.now)) }
{
    let (assignments, rest) = all_distinct::<Assignment>(alloc, tokens)?;
    Ok((Sequence::from_vec(assignments), rest))
}
