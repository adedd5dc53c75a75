ghost use Rattle.std.specs.Prelude.{◌≡◌, ℕ, length, codes, option_and_then};
ghost use Rattle.std.specs.Option.{option_map};
ghost use Rattle.vl_token.specs.View.{tok, tokens_of};
ghost use Rattle.vl_token.specs.Lexical.{number_in};
ghost use Rattle.vl_grammar.specs.Reading.{Gives, one, starts};
ghost use Rattle.vl_ddl.specs.Reading as reading;
ghost use Rattle.vl_ddl.specs.Words as words;

use crate::declared_type::DeclaredType;
use crate::number_type::NumberType;
use crate::text_type::TextType;
use vl_grammar::{ReadError, is_key, key, mark, starts_key, starts_mark};
use vl_token::{Token, Tokens, number};

/// A word that isn't in backquotes.
pub fn is_word(token: &Token) -> bool
    ensures { result ≡ words.is_word (tok token.now) }
{
    match token {
        Token::Word(_) => true,
        _ => false,
    }
}

/// BIGINT or INT.
pub fn is_number_type(token: &Token) -> bool
    ensures { result ≡ words.is_number_type (tok token.now) }
{
    is_key(b"BIGINT", token) || is_key(b"INT", token)
}

/// VARCHAR or VARBINARY.
pub fn is_text_type(token: &Token) -> bool
    ensures { result ≡ words.is_text_type (tok token.now) }
{
    is_key(b"VARCHAR", token) || is_key(b"VARBINARY", token)
}

fn is_other_type(token: &Token) -> bool
    ensures { result ≡ words.is_other_type (tok token.now) }
{
    is_word(token) && !(is_number_type(token) || is_text_type(token))
}

fn number_type_of(wide: bool, token: &Token) -> Option<NumberType>
    ensures { result ≡ reading.number_type_of wide (tok token.now) }
{
    if is_key(b"BIGINT", token) {
        return Some(NumberType::BigInt);
    }
    if is_key(b"INT", token) {
        return Some(NumberType::Int);
    }
    if wide && is_other_type(token) {
        return Some(NumberType::Other);
    }
    None
}

fn text_type_of(token: &Token) -> Option<TextType>
    ensures { result ≡ reading.text_type_of (tok token.now) }
{
    if is_key(b"VARCHAR", token) {
        return Some(TextType::VarChar);
    }
    if is_key(b"VARBINARY", token) {
        return Some(TextType::VarBinary);
    }
    None
}

fn is_number(token: &Token) -> bool
    ensures { result ≡ words.is_number (tok token.now) }
{
    match token {
        Token::Number(minus, _) => !*minus,
        _ => false,
    }
}

fn number_type_word(wide: bool, tokens: Tokens<'_>) -> Result<(NumberType, Tokens<'_>), ReadError>
    ensures { Gives (λ x. (x.0, tokens_of x.1.now)) result (one (reading.number_type_of wide) (tokens_of tokens.now)) }
{
    match tokens {
        [] => Err(ReadError::Fault(0)),
        [token, rest @ ..] => {
            let Some(word) = number_type_of(wide, token) else {
                return Err(ReadError::Fault(tokens.len()));
            };
            Ok((word, rest))
        }
    }
}

fn text_type_word(tokens: Tokens<'_>) -> Result<(TextType, Tokens<'_>), ReadError>
    ensures { Gives (λ x. (x.0, tokens_of x.1.now)) result (one reading.text_type_of (tokens_of tokens.now)) }
{
    match tokens {
        [] => Err(ReadError::Fault(0)),
        [token, rest @ ..] => {
            let Some(word) = text_type_of(token) else {
                return Err(ReadError::Fault(tokens.len()));
            };
            Ok((word, rest))
        }
    }
}

fn width_number(tokens: Tokens<'_>) -> Result<Tokens<'_>, ReadError>
    ensures { Gives (λ rest. (tt, tokens_of rest.now)) result (one reading.number (tokens_of tokens.now)) }
{
    match tokens {
        [] => Err(ReadError::Fault(0)),
        [token, rest @ ..] => {
            if is_number(token) {
                return Ok(rest);
            }
            Err(ReadError::Fault(tokens.len()))
        }
    }
}

// A number, 65,535 where it is larger.
fn capped(digits: &[u8]) -> u16
    ensures { result ≡ words.capped (number_in digits.now) }
{
    let Some(n) = number(digits) else {
        return u16::MAX;
    };
    if n <= 65_535 {
        return n as u16;
    }
    u16::MAX
}

fn length_of(token: &Token) -> Option<u16>
    ensures { result ≡ words.length_of (tok token.now) }
{
    match token {
        Token::Number(false, digits) => Some(capped(digits)),
        _ => None,
    }
}

fn length_number(tokens: Tokens<'_>) -> Result<(u16, Tokens<'_>), ReadError>
    ensures { Gives (λ x. (x.0, tokens_of x.1.now)) result (one words.length_of (tokens_of tokens.now)) }
{
    match tokens {
        [] => Err(ReadError::Fault(0)),
        [token, rest @ ..] => {
            let Some(n) = length_of(token) else {
                return Err(ReadError::Fault(tokens.len()));
            };
            Ok((n, rest))
        }
    }
}

// `[(width)]`
#[tactic(auto, unfolding(crate::specs::Reading::width_at))]
fn width(tokens: Tokens<'_>) -> Result<(bool, Tokens<'_>), ReadError>
    ensures { Gives (λ x. (x.0, tokens_of x.1.now)) result (reading.width_at (tokens_of tokens.now)) }
{
    if !starts_mark(b'(', tokens) {
        return Ok((false, tokens));
    }
    let rest = mark(b'(', tokens)?;
    let rest = width_number(rest)?;
    let rest = mark(b')', rest)?;
    Ok((true, rest))
}

// `[UNSIGNED]`
#[tactic(auto, unfolding(crate::specs::Reading::unsigned_at))]
fn unsigned(tokens: Tokens<'_>) -> Result<(bool, Tokens<'_>), ReadError>
    ensures { Gives (λ x. (x.0, tokens_of x.1.now)) result (reading.unsigned_at (tokens_of tokens.now)) }
{
    if !starts_key(b"UNSIGNED", tokens) {
        return Ok((false, tokens));
    }
    let rest = key(b"UNSIGNED", tokens)?;
    Ok((true, rest))
}

#[tactic(auto, unfolding(crate::specs::Reading::number_type_at))]
fn number_type(wide: bool, tokens: Tokens<'_>) -> Result<(DeclaredType, Tokens<'_>), ReadError>
    ensures { Gives (λ x. (x.0, tokens_of x.1.now)) result (reading.number_type_at wide (tokens_of tokens.now)) }
{
    let (word, rest) = number_type_word(wide, tokens)?;
    let (width, rest) = width(rest)?;
    let (unsigned, rest) = unsigned(rest)?;
    Ok((DeclaredType::Number(word, width, unsigned), rest))
}

#[tactic(auto, unfolding(crate::specs::Reading::text_type_at))]
fn text_type(tokens: Tokens<'_>) -> Result<(DeclaredType, Tokens<'_>), ReadError>
    ensures { Gives (λ x. (x.0, tokens_of x.1.now)) result (reading.text_type_at (tokens_of tokens.now)) }
{
    let (word, rest) = text_type_word(tokens)?;
    let rest = mark(b'(', rest)?;
    let (length, rest) = length_number(rest)?;
    let rest = mark(b')', rest)?;
    Ok((DeclaredType::Text(word, length), rest))
}

fn starts_text_type(tokens: Tokens<'_>) -> bool
    ensures { result ≡ starts words.is_text_type (tokens_of tokens.now) }
{
    match tokens {
        [] => false,
        [token, ..] => is_text_type(token),
    }
}

/// A column's type.
#[tactic(auto, unfolding(crate::specs::Reading::type_at))]
pub fn declared_type(
    wide: bool,
    tokens: Tokens<'_>,
) -> Result<(DeclaredType, Tokens<'_>), ReadError>
    ensures { Gives (λ x. (x.0, tokens_of x.1.now)) result (reading.type_at wide (tokens_of tokens.now)) }
{
    if starts_text_type(tokens) {
        return text_type(tokens);
    }
    number_type(wide, tokens)
}
