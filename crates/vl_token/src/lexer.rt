ghost use Rattle.std.specs.Prelude.{◌≡◌, ℕ, ◌==◌, ◌&&◌, ◌||◌, suc, IfOk, MatchOption};
ghost use Rattle.std.specs.Char.{is_ascii_digit};
ghost use Rattle.vl_token.specs.Tok.{Tok as toks};
ghost use Rattle.vl_token.specs.Lexical.{is_part, run_at, text_at, quoted_at, hex_at, dash_at, slash_at, at_at, symbol_at, begins, lexeme_at, cut_within, tokens_in, lefts_in};
ghost use Rattle.vl_token.specs.View.{lexeme, tokens_of};
ghost use Rattle.vl_token.specs.Steps.{Ends, GoesOn};

use crate::class::{is_blank, is_mark, is_start};
use crate::scan::{begins, behind_comment, closing, digits_len, hex_len, len_before, part_len};
use crate::token::Token;
use std::alloc::{AllocError, Global};

/// What begins a text: white space or a comment, a token, or neither; and the bytes behind it.
pub enum Found<'a> {
    Gap(&'a [u8]),
    Piece(Token<'a>, &'a [u8]),
    Wrong,
}

// A word of all bytes that go on with it.
fn word(bytes: &[u8]) -> Found<'_>
    ensures { lexeme result ≡ run_at toks.Word is_part bytes.now }
{
    let (front, rest) = bytes.split_at(part_len(bytes));
    Found::Piece(Token::Word(front), rest)
}

fn variable(bytes: &[u8]) -> Found<'_>
    ensures { lexeme result ≡ run_at toks.Variable is_part bytes.now }
{
    let (front, rest) = bytes.split_at(part_len(bytes));
    Found::Piece(Token::Variable(front), rest)
}

fn number(minus: bool, bytes: &[u8]) -> Found<'_>
    ensures { lexeme result ≡ run_at (toks.Number minus) is_ascii_digit bytes.now }
{
    let (front, rest) = bytes.split_at(digits_len(bytes));
    Found::Piece(Token::Number(minus, front), rest)
}

fn text(quote: u8, bytes: &[u8]) -> Found<'_>
    ensures { lexeme result ≡ text_at quote bytes.now }
{
    let Some(n) = closing(quote, bytes) else {
        return Found::Wrong;
    };
    let (raw, rest) = bytes.split_at(n);
    Found::Piece(Token::Text(quote, raw), &rest[1..])
}

fn quoted(bytes: &[u8]) -> Found<'_>
    ensures { lexeme result ≡ quoted_at bytes.now }
{
    let (front, rest) = bytes.split_at(len_before(b'`', bytes));
    match rest {
        [b'`', rest @ ..] => Found::Piece(Token::Quoted(front), rest),
        _ => Found::Wrong,
    }
}

fn hex(bytes: &[u8]) -> Found<'_>
    ensures { lexeme result ≡ hex_at bytes.now }
{
    let (front, rest) = bytes.split_at(hex_len(bytes));
    if front.len() % 2 != 0 {
        return Found::Wrong;
    }
    match rest {
        [b'\'', rest @ ..] => Found::Piece(Token::Hex(front), rest),
        _ => Found::Wrong,
    }
}

fn dash(bytes: &[u8]) -> Found<'_>
    ensures { lexeme result ≡ dash_at bytes.now }
{
    match bytes {
        [] => Found::Piece(Token::Mark(b'-'), bytes),
        [c, rest @ ..] => {
            if c.is_ascii_digit() {
                return number(true, bytes);
            }
            if *c == b'-' && begins(b' ', rest) {
                return Found::Gap(&rest[len_before(b'\n', rest)..]);
            }
            Found::Piece(Token::Mark(b'-'), bytes)
        }
    }
}

fn slash(bytes: &[u8]) -> Found<'_>
    ensures { lexeme result ≡ slash_at bytes.now }
{
    match bytes {
        [b'*', rest @ ..] => match behind_comment(rest) {
            Some(rest) => Found::Gap(rest),
            None => Found::Wrong,
        },
        _ => Found::Wrong,
    }
}

fn at_sign(bytes: &[u8]) -> Found<'_>
    ensures { lexeme result ≡ at_at bytes.now }
{
    match bytes {
        [c, d, ..] => {
            if *c == b'@' && is_start(*d) {
                return variable(&bytes[1..]);
            }
            Found::Wrong
        }
        _ => Found::Wrong,
    }
}

// A lexeme that begins with none of the bytes of white space, words and numbers.
fn symbol(b: u8, rest: &[u8]) -> Found<'_>
    ensures { lexeme result ≡ symbol_at b rest.now }
{
    if b == b'\'' || b == b'"' {
        return text(b, rest);
    }
    if b == b'`' {
        return quoted(rest);
    }
    if b == b'-' {
        return dash(rest);
    }
    if b == b'/' {
        return slash(rest);
    }
    if b == b'@' {
        return at_sign(rest);
    }
    if is_mark(b) {
        return Found::Piece(Token::Mark(b), rest);
    }
    Found::Wrong
}

// Whether `x'` begins here.
fn is_hex(b: u8, rest: &[u8]) -> bool
    ensures { result ≡ ((b == 120 || b == 88) && begins 39 rest.now) }
{
    (b == b'x' || b == b'X') && begins(b'\'', rest)
}

fn lexeme(bytes: &[u8]) -> Found<'_>
    ensures { lexeme result ≡ lexeme_at bytes.now }
{
    let [b, rest @ ..] = bytes else {
        return Found::Wrong;
    };
    let b = *b;
    if is_blank(b) {
        return Found::Gap(rest);
    }
    if is_hex(b, rest) {
        return hex(&rest[1..]);
    }
    if is_start(b) {
        return word(bytes);
    }
    if b.is_ascii_digit() {
        return number(false, bytes);
    }
    symbol(b, rest)
}

/// The tokens of a text, and how many bytes are left where each begins.
#[derive(Drop)]
pub struct Lexed<'a> {
    pub tokens: Vec<Token<'a>>,
    pub left: Vec<usize>,
}

impl<'a> Lexed<'a> {
    // Takes the lexeme at the front, and answers the bytes behind it; none where the tokens end.
    fn step(&mut self, rest: &'a [u8]) -> Result<Option<&'a [u8]>, AllocError>
        ensures { IfOk result (λ behind. (n : ℕ) → MatchOption behind (Ends self.old self.new (cut_within (suc n) rest.now)) (λ bytes. GoesOn self.old self.new (cut_within (suc n) rest.now) (cut_within n bytes.now))) }
    {
        if rest.is_empty() {
            return Ok(None);
        }
        match lexeme(rest) {
            Found::Gap(behind) => Ok(Some(behind)),
            Found::Piece(token, behind) => {
                self.tokens.push(token)?;
                self.left.push(rest.len())?;
                Ok(Some(behind))
            }
            Found::Wrong => {
                self.tokens.push(Token::Bad)?;
                self.left.push(rest.len())?;
                Ok(None)
            }
        }
    }
}

/// Cuts a text into tokens, in one pass.
#[tactic(auto, unfolding(crate::specs::Lexical::cut))]
pub fn lex(alloc: Global, text: &[u8]) -> Result<Lexed<'_>, AllocError>
    ensures tokens { IfOk result (λ l. tokens_of l.tokens.items ≡ tokens_in text.now) }
    ensures left { IfOk result (λ l. l.left.items ≡ lefts_in text.now) }
{
    let mut lexed = Lexed {
        tokens: Vec::new(alloc),
        left: Vec::new(alloc),
    };
    let mut rest = text;
    for _ in 0..text.len() {
        match lexed.step(rest)? {
            None => return Ok(lexed),
            Some(behind) => rest = behind,
        }
    }
    Ok(lexed)
}
