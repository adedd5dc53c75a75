ghost use Rattle.std.specs.Prelude.{◌≡◌, IfOk, ◌&&◌};
ghost use Rattle.vl_token.specs.View.{tok, tokens_of};
ghost use Rattle.vl_ddl.specs.Told as told;
ghost use Rattle.vl_ddl.specs.Words as words;

use crate::parts::{is_index, is_other_key};
use crate::types::{is_number_type, is_text_type};
use std::alloc::{AllocError, Global};
use vl_grammar::{is_key, is_mark};
use vl_token::{Token, Tokens};

fn is_key_word(token: &Token) -> bool
    ensures { result ≡ words.is_key_word (tok token.now) }
{
    is_index(token) || is_key(b"PRIMARY", token) || is_other_key(token)
}

fn is_name(token: &Token) -> bool
    ensures { result ≡ words.is_name (tok token.now) }
{
    match token {
        Token::Word(_) | Token::Quoted(_) => true,
        _ => false,
    }
}

// `(` and a name.
fn lists(tokens: Tokens<'_>) -> bool
    ensures { result ≡ told.lists (tokens_of tokens.now) }
{
    match tokens {
        [first, second, ..] => is_mark(b'(', first) && is_name(second),
        _ => false,
    }
}

// A type, and no list of names.
fn declares(tokens: Tokens<'_>) -> bool
    ensures { result ≡ told.declares (tokens_of tokens.now) }
{
    match tokens {
        [] => false,
        [token, rest @ ..] => (is_number_type(token) || is_text_type(token)) && !lists(rest),
    }
}

fn opens(token: &Token) -> bool
    ensures { result ≡ told.opens (tok token.now) }
{
    is_mark(b'(', token) || is_mark(b',', token)
}

fn as_name<'a>(token: &Token<'a>) -> Token<'a>
    ensures { tok result ≡ told.as_name (tok token.now) }
{
    match token {
        Token::Word(word) => Token::Quoted(word),
        _ => *token,
    }
}

fn told_token<'a>(begins: bool, token: &Token<'a>, rest: Tokens<'a>) -> Token<'a>
    ensures { tok result ≡ told.told_token begins (tok token.now) (tokens_of rest.now) }
{
    if begins && is_key_word(token) && declares(rest) {
        return as_name(token);
    }
    *token
}

/// The tokens, in which PRIMARY, KEY, INDEX, UNIQUE and FOREIGN begin a key wherever a part may
/// begin: those that are a column's name are as in backquotes.
pub fn told<'a>(alloc: Global, tokens: Tokens<'a>) -> Result<Vec<Token<'a>>, AllocError>
    ensures { IfOk result (λ v. tokens_of v.items ≡ told.told (tokens_of tokens.now)) }
{
    let mut list = Vec::with_capacity(alloc, tokens.len())?;
    let mut begins = false;
    for (i, token) in tokens.iter().enumerate() {
        list.push(told_token(begins, token, &tokens[i + 1..]))?;
        begins = opens(token);
    }
    Ok(list)
}
