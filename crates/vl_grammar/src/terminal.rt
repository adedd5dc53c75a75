ghost use Rattle.std.specs.Prelude.{◌≡◌, IfOk, option_map};
ghost use Rattle.std.specs.Option.{option_copied};
ghost use Rattle.std.specs.Str.{str_eq_ignore_ascii_case};
ghost use Rattle.vl_token.specs.View.{tok, tokens_of};
ghost use Rattle.vl_token.specs.Lexical.{number_in};
ghost use Rattle.vl_grammar.specs.Terminal as terminals;
ghost use Rattle.vl_grammar.specs.Reading.{Gives, one, starts, behind};

use crate::read_error::ReadError;
use std::alloc::{AllocError, Global};
use vl_token::{Token, Tokens, number, unescape, unhex};
use vl_values::bytes::Bytes;
use vl_values::value::Value;

fn same_word(word: &[u8], keyword: &[u8]) -> bool
    ensures { result ≡ str_eq_ignore_ascii_case word.now keyword.now }
{
    word.eq_ignore_ascii_case(keyword)
}

/// Whether a token is this keyword, in any case.
pub fn is_key(keyword: &[u8], token: &Token) -> bool
    ensures { result ≡ terminals.is_key keyword.now (tok token.now) }
{
    match token {
        Token::Word(word) => same_word(word, keyword),
        _ => false,
    }
}

/// Whether a token is this mark.
pub fn is_mark(mark: u8, token: &Token) -> bool
    ensures { result ≡ terminals.is_mark mark (tok token.now) }
{
    match token {
        Token::Mark(byte) => *byte == mark,
        _ => false,
    }
}

/// Whether a token is this word behind `@@`, in any case.
pub fn is_variable(name: &[u8], token: &Token) -> bool
    ensures { result ≡ terminals.is_variable name.now (tok token.now) }
{
    match token {
        Token::Variable(word) => same_word(word, name),
        _ => false,
    }
}

fn is_digits(digits: &[u8], token: &Token) -> bool
    ensures { result ≡ terminals.is_digits digits.now (tok token.now) }
{
    match token {
        Token::Number(false, spelled) => *spelled == digits,
        _ => false,
    }
}

/// Whether the tokens start with this keyword.
pub fn starts_key(keyword: &[u8], tokens: Tokens<'_>) -> bool
    ensures { result ≡ starts (terminals.is_key keyword.now) (tokens_of tokens.now) }
{
    match tokens {
        [] => false,
        [token, ..] => is_key(keyword, token),
    }
}

/// Whether the tokens start with this mark.
pub fn starts_mark(mark: u8, tokens: Tokens<'_>) -> bool
    ensures { result ≡ starts (terminals.is_mark mark) (tokens_of tokens.now) }
{
    match tokens {
        [] => false,
        [token, ..] => is_mark(mark, token),
    }
}

/// Whether the tokens start with this word behind `@@`.
pub fn starts_variable(name: &[u8], tokens: Tokens<'_>) -> bool
    ensures { result ≡ starts (terminals.is_variable name.now) (tokens_of tokens.now) }
{
    match tokens {
        [] => false,
        [token, ..] => is_variable(name, token),
    }
}

/// The tokens behind a keyword.
pub fn key<'a>(keyword: &[u8], tokens: Tokens<'a>) -> Result<Tokens<'a>, ReadError>
    ensures { Gives (λ rest. (tt, tokens_of rest.now)) result (one (terminals.key keyword.now) (tokens_of tokens.now)) }
{
    match tokens {
        [] => Err(ReadError::Fault(0)),
        [token, rest @ ..] => {
            if is_key(keyword, token) {
                return Ok(rest);
            }
            Err(ReadError::Fault(tokens.len()))
        }
    }
}

/// The tokens behind a mark.
pub fn mark(mark: u8, tokens: Tokens<'_>) -> Result<Tokens<'_>, ReadError>
    ensures { Gives (λ rest. (tt, tokens_of rest.now)) result (one (terminals.mark mark) (tokens_of tokens.now)) }
{
    match tokens {
        [] => Err(ReadError::Fault(0)),
        [token, rest @ ..] => {
            if is_mark(mark, token) {
                return Ok(rest);
            }
            Err(ReadError::Fault(tokens.len()))
        }
    }
}

/// The tokens behind a word behind `@@`.
pub fn variable<'a>(name: &[u8], tokens: Tokens<'a>) -> Result<Tokens<'a>, ReadError>
    ensures { Gives (λ rest. (tt, tokens_of rest.now)) result (one (terminals.variable name.now) (tokens_of tokens.now)) }
{
    match tokens {
        [] => Err(ReadError::Fault(0)),
        [token, rest @ ..] => {
            if is_variable(name, token) {
                return Ok(rest);
            }
            Err(ReadError::Fault(tokens.len()))
        }
    }
}

/// The tokens behind a number that is spelled just so.
pub fn digits<'a>(digits: &[u8], tokens: Tokens<'a>) -> Result<Tokens<'a>, ReadError>
    ensures { Gives (λ rest. (tt, tokens_of rest.now)) result (one (terminals.digits digits.now) (tokens_of tokens.now)) }
{
    match tokens {
        [] => Err(ReadError::Fault(0)),
        [token, rest @ ..] => {
            if is_digits(digits, token) {
                return Ok(rest);
            }
            Err(ReadError::Fault(tokens.len()))
        }
    }
}

/// The tokens behind a keyword and a `(`, if they start so.
pub fn called<'a>(keyword: &[u8], tokens: Tokens<'a>) -> Option<Tokens<'a>>
    ensures { option_map (λ rest. tokens_of rest.now) result ≡ behind (terminals.is_key keyword.now) (terminals.is_mark 40) (tokens_of tokens.now) }
{
    match tokens {
        [first, second, rest @ ..] => {
            if is_key(keyword, first) {
                if is_mark(b'(', second) {
                    return Some(rest);
                }
                return None;
            }
            None
        }
        _ => None,
    }
}

/// A name: a word, which may be a keyword elsewhere, or what stands in backquotes.
pub fn name(alloc: Global, tokens: Tokens<'_>) -> Result<(Bytes, Tokens<'_>), ReadError>
    ensures { Gives (λ x. (x.0, tokens_of x.1.now)) result (one terminals.name_of (tokens_of tokens.now)) }
{
    match tokens {
        [] => Err(ReadError::Fault(0)),
        [Token::Word(word) | Token::Quoted(word), rest @ ..] => {
            let name = Bytes::from_slice(alloc, word)?;
            Ok((name, rest))
        }
        _ => Err(ReadError::Fault(tokens.len())),
    }
}

/// A word or a text, as SET NAMES takes them.
pub fn charset(alloc: Global, tokens: Tokens<'_>) -> Result<(Bytes, Tokens<'_>), ReadError>
    ensures { Gives (λ x. (x.0, tokens_of x.1.now)) result (one terminals.charset_of (tokens_of tokens.now)) }
{
    match tokens {
        [] => Err(ReadError::Fault(0)),
        [Token::Word(word), rest @ ..] => {
            let name = Bytes::from_slice(alloc, word)?;
            Ok((name, rest))
        }
        [Token::Text(quote, raw), rest @ ..] => {
            let name = unescape(alloc, *quote, raw)?;
            Ok((Bytes::from_vec(name), rest))
        }
        _ => Err(ReadError::Fault(tokens.len())),
    }
}

// The literal of a number, from -9223372036854775808 to 18446744073709551615.
fn number_value(minus: bool, digits: &[u8]) -> Option<Value>
    ensures { result ≡ terminals.number_of minus (number_in digits.now) }
{
    let n = number(digits)?;
    if !minus {
        return Some(Value::Uint(n));
    }
    if n == 0 {
        return Some(Value::Uint(0));
    }
    if n <= 1 << 63 {
        let below = (n - 1) as i64;
        return Some(Value::Int(-1 - below));
    }
    None
}

// The literal that a token is, if it is one.
fn literal_value(alloc: Global, token: &Token) -> Result<Option<Value>, AllocError>
    ensures { IfOk result (λ v. v ≡ terminals.literal_of (tok token.now)) }
{
    match token {
        Token::Word(word) => {
            if same_word(word, b"NULL") {
                return Ok(Some(Value::Null));
            }
            Ok(None)
        }
        Token::Text(quote, raw) => {
            let bytes = unescape(alloc, *quote, raw)?;
            Ok(Some(Value::Bytes(Bytes::from_vec(bytes))))
        }
        Token::Hex(digits) => {
            let bytes = unhex(alloc, digits)?;
            Ok(Some(Value::Bytes(Bytes::from_vec(bytes))))
        }
        Token::Number(minus, digits) => Ok(number_value(*minus, digits)),
        _ => Ok(None),
    }
}

/// A literal: NULL, a number, a text or bytes in hexadecimal digits.
pub fn literal(alloc: Global, tokens: Tokens<'_>) -> Result<(Value, Tokens<'_>), ReadError>
    ensures { Gives (λ x. (x.0, tokens_of x.1.now)) result (one terminals.literal_of (tokens_of tokens.now)) }
{
    match tokens {
        [] => Err(ReadError::Fault(0)),
        [token, rest @ ..] => {
            let value = literal_value(alloc, token)?;
            let Some(value) = value else {
                return Err(ReadError::Fault(tokens.len()));
            };
            Ok((value, rest))
        }
    }
}

fn count_value(token: &Token) -> Option<u64>
    ensures { result ≡ terminals.count_of (tok token.now) }
{
    match token {
        Token::Number(false, digits) => number(digits),
        _ => None,
    }
}

/// A number with no sign, below 2^64.
pub fn count(tokens: Tokens<'_>) -> Result<(u64, Tokens<'_>), ReadError>
    ensures { Gives (λ x. (x.0, tokens_of x.1.now)) result (one terminals.count_of (tokens_of tokens.now)) }
{
    match tokens {
        [] => Err(ReadError::Fault(0)),
        [token, rest @ ..] => {
            let Some(n) = count_value(token) else {
                return Err(ReadError::Fault(tokens.len()));
            };
            Ok((n, rest))
        }
    }
}

/// `0` or `1`, spelled just so.
pub fn bit(tokens: Tokens<'_>) -> Result<(bool, Tokens<'_>), ReadError>
    ensures { Gives (λ x. (x.0, tokens_of x.1.now)) result (one terminals.bit_of (tokens_of tokens.now)) }
{
    match tokens {
        [] => Err(ReadError::Fault(0)),
        [token, rest @ ..] => {
            if is_digits(b"0", token) {
                return Ok((false, rest));
            }
            if is_digits(b"1", token) {
                return Ok((true, rest));
            }
            Err(ReadError::Fault(tokens.len()))
        }
    }
}
