ghost use Rattle.std.specs.Prelude.{◌≡◌, IsSomeAnd, Bool, List, []};
ghost use Rattle.std.specs.Option.{option_map};
ghost use Rattle.vl_token.specs.Tok.{Tok};
ghost use Rattle.vl_token.specs.View.{tok, tokens_of};
ghost use Rattle.vl_grammar.specs.Reading.{Read, Gives, behind_one, items};
ghost use Rattle.vl_sql.specs.Reading.{any_number};

use std::alloc::Global;
use vl_grammar::ReadError;
use vl_token::{Token, Tokens};

/// What a list of a statement is made of.
pub trait Member: Sized + Drop {
    ghost is_separator: { Tok → Bool };

    ghost member_at: { List Tok → Read Self };

    /// Whether this token stands between two members.
    fn separates(token: &Token) -> bool
        ensures { result ≡ is_separator (tok token.now) };

    fn read(alloc: Global, tokens: Tokens<'_>) -> Result<(Self, Tokens<'_>), ReadError>
        ensures { Gives (λ x. (x.0, tokens_of x.1.now)) result (member_at (tokens_of tokens.now)) };
}

/// A list of at least one member and at most so many; one too many fails where it begins.
pub fn members<M: Member>(
    alloc: Global,
    most: usize,
    tokens: Tokens<'_>,
) -> Result<(Vec<M>, Tokens<'_>), ReadError>
    ensures { Gives (λ x. (x.0.items, tokens_of x.1.now)) result (items M.is_separator (λ _ rest. M.member_at rest) most [] (tokens_of tokens.now)) }
{
    let mut list = Vec::new(alloc);
    let Some(mut rest) = from_first(tokens) else {
        return Err(ReadError::Fault(tokens.len()));
    };
    for _ in 0..most {
        let (member, behind) = match M::read(alloc, rest) {
            Err(error) => return Err(error),
            Ok(read) => read,
        };
        list.push(member)?;
        match behind_separator::<M>(behind) {
            Some(next) => rest = next,
            None => return Ok((list, behind)),
        }
    }
    Err(ReadError::Fault(rest.len()))
}

/// A list of at least one member.
#[tactic(auto, unfolding(crate::specs::Reading::any_number))]
pub fn all_members<M: Member>(
    alloc: Global,
    tokens: Tokens<'_>,
) -> Result<(Vec<M>, Tokens<'_>), ReadError>
    ensures { Gives (λ x. (x.0.items, tokens_of x.1.now)) result (any_number M.is_separator (λ _ rest. M.member_at rest) (tokens_of tokens.now)) }
{
    members(alloc, tokens.len(), tokens)
}

/// All of the tokens. A loop variable that starts as a parameter, and not as a call's answer, gets
/// no proof.
pub fn from_first(tokens: Tokens<'_>) -> Option<Tokens<'_>>
    ensures { IsSomeAnd result (λ rest. rest.now ≡ tokens.now) }
{
    Some(tokens)
}

// The tokens behind the separator that they start with.
fn behind_separator<M: Member>(tokens: Tokens<'_>) -> Option<Tokens<'_>>
    ensures { option_map (λ rest. tokens_of rest.now) result ≡ behind_one M.is_separator (tokens_of tokens.now) }
{
    match tokens {
        [] => None,
        [token, rest @ ..] => {
            if M::separates(token) {
                return Some(rest);
            }
            None
        }
    }
}
