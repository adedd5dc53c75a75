ghost use Rattle.std.specs.Prelude.{◌≡◌, length, codes};
ghost use Rattle.vl_token.specs.View.{tok, tokens_of};
ghost use Rattle.vl_grammar.specs.Reading.{Gives, one, starts};
ghost use Rattle.vl_ddl.specs.Reading as reading;
ghost use Rattle.vl_ddl.specs.Words as words;

use crate::column_options::ColumnOptions;
use crate::default_value::DefaultValue;
use crate::types::is_word;
use vl_grammar::{ReadError, is_key, key, starts_key};
use vl_token::{Token, Tokens};

// A token that a text can have, and not NULL.
fn is_other_default(token: &Token) -> bool
    ensures { result ≡ words.is_other_default (tok token.now) }
{
    match token {
        Token::Bad => false,
        _ => !is_key(b"NULL", token),
    }
}

fn default_of(wide: bool, token: &Token) -> Option<DefaultValue>
    ensures { result ≡ reading.default_of wide (tok token.now) }
{
    if is_key(b"NULL", token) {
        return Some(DefaultValue::Null);
    }
    if wide && is_other_default(token) {
        return Some(DefaultValue::Other);
    }
    None
}

fn default_value(wide: bool, tokens: Tokens<'_>) -> Result<(DefaultValue, Tokens<'_>), ReadError>
    ensures { Gives (λ x. (x.0, tokens_of x.1.now)) result (one (reading.default_of wide) (tokens_of tokens.now)) }
{
    match tokens {
        [] => Err(ReadError::Fault(0)),
        [token, rest @ ..] => {
            let Some(value) = default_of(wide, token) else {
                return Err(ReadError::Fault(tokens.len()));
            };
            Ok((value, rest))
        }
    }
}

fn word(tokens: Tokens<'_>) -> Result<Tokens<'_>, ReadError>
    ensures { Gives (λ rest. (tt, tokens_of rest.now)) result (one reading.word (tokens_of tokens.now)) }
{
    match tokens {
        [] => Err(ReadError::Fault(0)),
        [token, rest @ ..] => {
            if is_word(token) {
                return Ok(rest);
            }
            Err(ReadError::Fault(tokens.len()))
        }
    }
}

// `[NOT NULL | NULL]`
#[tactic(auto, unfolding(crate::specs::Reading::nullable_at))]
fn nullable(tokens: Tokens<'_>) -> Result<(Option<bool>, Tokens<'_>), ReadError>
    ensures { Gives (λ x. (x.0, tokens_of x.1.now)) result (reading.nullable_at (tokens_of tokens.now)) }
{
    if starts_key(b"NULL", tokens) {
        let rest = key(b"NULL", tokens)?;
        return Ok((Some(true), rest));
    }
    if !starts_key(b"NOT", tokens) {
        return Ok((None, tokens));
    }
    let rest = key(b"NOT", tokens)?;
    let rest = key(b"NULL", rest)?;
    Ok((Some(false), rest))
}

// `[DEFAULT NULL]`
#[tactic(auto, unfolding(crate::specs::Reading::default_at))]
fn default(wide: bool, tokens: Tokens<'_>) -> Result<(Option<DefaultValue>, Tokens<'_>), ReadError>
    ensures { Gives (λ x. (x.0, tokens_of x.1.now)) result (reading.default_at wide (tokens_of tokens.now)) }
{
    if !starts_key(b"DEFAULT", tokens) {
        return Ok((None, tokens));
    }
    let rest = key(b"DEFAULT", tokens)?;
    let (value, rest) = default_value(wide, rest)?;
    Ok((Some(value), rest))
}

// `[AUTO_INCREMENT]`
#[tactic(auto, unfolding(crate::specs::Reading::auto_increment_at))]
fn auto_increment(tokens: Tokens<'_>) -> Result<(bool, Tokens<'_>), ReadError>
    ensures { Gives (λ x. (x.0, tokens_of x.1.now)) result (reading.auto_increment_at (tokens_of tokens.now)) }
{
    if !starts_key(b"AUTO_INCREMENT", tokens) {
        return Ok((false, tokens));
    }
    let rest = key(b"AUTO_INCREMENT", tokens)?;
    Ok((true, rest))
}

// `[PRIMARY KEY]`, which isn't read where the table has a primary key.
#[tactic(auto, unfolding(crate::specs::Reading::primary_at))]
fn primary(has_key: bool, tokens: Tokens<'_>) -> Result<(bool, Tokens<'_>), ReadError>
    ensures { Gives (λ x. (x.0, tokens_of x.1.now)) result (reading.primary_at has_key (tokens_of tokens.now)) }
{
    if has_key {
        return Ok((false, tokens));
    }
    if !starts_key(b"PRIMARY", tokens) {
        return Ok((false, tokens));
    }
    let rest = key(b"PRIMARY", tokens)?;
    let rest = key(b"KEY", rest)?;
    Ok((true, rest))
}

// `[CHARACTER SET word]`
#[tactic(auto, unfolding(crate::specs::Reading::charset_at))]
fn charset(tokens: Tokens<'_>) -> Result<(bool, Tokens<'_>), ReadError>
    ensures { Gives (λ x. (x.0, tokens_of x.1.now)) result (reading.charset_at (tokens_of tokens.now)) }
{
    if !starts_key(b"CHARACTER", tokens) {
        return Ok((false, tokens));
    }
    let rest = key(b"CHARACTER", tokens)?;
    let rest = key(b"SET", rest)?;
    let rest = word(rest)?;
    Ok((true, rest))
}

// `[COLLATE word]`
#[tactic(auto, unfolding(crate::specs::Reading::collation_at))]
fn collation(tokens: Tokens<'_>) -> Result<(bool, Tokens<'_>), ReadError>
    ensures { Gives (λ x. (x.0, tokens_of x.1.now)) result (reading.collation_at (tokens_of tokens.now)) }
{
    if !starts_key(b"COLLATE", tokens) {
        return Ok((false, tokens));
    }
    let rest = key(b"COLLATE", tokens)?;
    let rest = word(rest)?;
    Ok((true, rest))
}

// `[UNIQUE]`, which isn't read but in the wider language.
#[tactic(auto, unfolding(crate::specs::Reading::unique_at))]
fn unique(wide: bool, tokens: Tokens<'_>) -> Result<(bool, Tokens<'_>), ReadError>
    ensures { Gives (λ x. (x.0, tokens_of x.1.now)) result (reading.unique_at wide (tokens_of tokens.now)) }
{
    if !wide {
        return Ok((false, tokens));
    }
    if !starts_key(b"UNIQUE", tokens) {
        return Ok((false, tokens));
    }
    let rest = key(b"UNIQUE", tokens)?;
    Ok((true, rest))
}

/// What stands behind a column's type, in the one order that there is.
#[tactic(auto, unfolding(crate::specs::Reading::options_at))]
pub fn options(
    wide: bool,
    has_key: bool,
    tokens: Tokens<'_>,
) -> Result<(ColumnOptions, Tokens<'_>), ReadError>
    ensures { Gives (λ x. (x.0, tokens_of x.1.now)) result (reading.options_at wide has_key (tokens_of tokens.now)) }
{
    let (nullable, rest) = nullable(tokens)?;
    let (default, rest) = default(wide, rest)?;
    let (auto_increment, rest) = auto_increment(rest)?;
    let (primary, rest) = primary(has_key, rest)?;
    let (charset, rest) = charset(rest)?;
    let (collation, rest) = collation(rest)?;
    let (unique, rest) = unique(wide, rest)?;
    let options = ColumnOptions {
        nullable,
        default,
        auto_increment,
        primary,
        charset,
        collation,
        unique,
    };
    Ok((options, rest))
}
