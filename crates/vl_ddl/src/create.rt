ghost use Rattle.std.specs.Prelude.{◌≡◌, codes};
ghost use Rattle.std.specs.Option.{option_map};
ghost use Rattle.vl_token.specs.View.{tok, tokens_of};
ghost use Rattle.vl_grammar.specs.Terminal as terminals;
ghost use Rattle.vl_grammar.specs.Reading.{Gives, behind};
ghost use Rattle.vl_ddl.specs.Reading as reading;

use crate::parts::parts;
use crate::statement::Statement;
use crate::trailer::trailer;
use std::alloc::Global;
use vl_grammar::{ReadError, is_key, key, mark, name};
use vl_token::Tokens;
use vl_values::items::Items;

// `name (part, ..) [options] ;`
#[tactic(auto, unfolding(crate::specs::Reading::created_at))]
fn created(
    alloc: Global,
    wide: bool,
    tokens: Tokens<'_>,
) -> Result<(Statement, Tokens<'_>), ReadError>
    ensures { Gives (λ x. (x.0, tokens_of x.1.now)) result (reading.created_at wide (tokens_of tokens.now)) }
{
    let (name, rest) = name(alloc, tokens)?;
    let rest = mark(b'(', rest)?;
    let (parts, rest) = parts(alloc, wide, rest)?;
    let rest = mark(b')', rest)?;
    let (options, rest) = trailer(rest)?;
    let statement = Statement {
        name,
        parts: Items::from_vec(parts),
        options,
    };
    Ok((statement, rest))
}

// Behind IF NOT.
#[tactic(auto, unfolding(crate::specs::Reading::missing_at))]
fn missing(
    alloc: Global,
    wide: bool,
    tokens: Tokens<'_>,
) -> Result<(Statement, Tokens<'_>), ReadError>
    ensures { Gives (λ x. (x.0, tokens_of x.1.now)) result (reading.missing_at wide (tokens_of tokens.now)) }
{
    let rest = key(b"EXISTS", tokens)?;
    created(alloc, wide, rest)
}

// The tokens behind IF NOT, if they start so.
fn behind_if_not(tokens: Tokens<'_>) -> Option<Tokens<'_>>
    ensures { option_map (λ rest. tokens_of rest.now) result ≡ behind (terminals.is_key (codes "IF")) (terminals.is_key (codes "NOT")) (tokens_of tokens.now) }
{
    match tokens {
        [first, second, rest @ ..] => {
            if is_key(b"IF", first) {
                if is_key(b"NOT", second) {
                    return Some(rest);
                }
                return None;
            }
            None
        }
        _ => None,
    }
}

// `[IF NOT EXISTS] name ..`
#[tactic(auto, unfolding(crate::specs::Reading::named_at))]
fn named(
    alloc: Global,
    wide: bool,
    tokens: Tokens<'_>,
) -> Result<(Statement, Tokens<'_>), ReadError>
    ensures { Gives (λ x. (x.0, tokens_of x.1.now)) result (reading.named_at wide (tokens_of tokens.now)) }
{
    if let Some(rest) = behind_if_not(tokens) {
        return missing(alloc, wide, rest);
    }
    created(alloc, wide, tokens)
}

/// A CREATE TABLE statement with its `;`, and the tokens behind it.
#[tactic(auto, unfolding(crate::specs::Reading::table_at))]
pub fn create_table(
    alloc: Global,
    wide: bool,
    tokens: Tokens<'_>,
) -> Result<(Statement, Tokens<'_>), ReadError>
    ensures { Gives (λ x. (x.0, tokens_of x.1.now)) result (reading.table_at wide (tokens_of tokens.now)) }
{
    let rest = key(b"CREATE", tokens)?;
    let rest = key(b"TABLE", rest)?;
    named(alloc, wide, rest)
}
