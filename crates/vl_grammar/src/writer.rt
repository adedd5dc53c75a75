ghost use Rattle.std.specs.Prelude.{◌≡◌, Bool, true, [], ◌∷◌, ◌++◌, OnOk, if◌then◌else◌};
ghost use Rattle.std.specs.List.{list_all, flat_map};
ghost use Rattle.std.specs.Fmt.{decimal, signed_decimal};
ghost use Rattle.vl_token.specs.Lexical.{is_start, is_part};
ghost use Rattle.vl_grammar.specs.Item.{Item};
ghost use Rattle.vl_grammar.specs.Layout.{is_plain, letter_for, escape, in_quotes, in_backquotes, literal_text, added, opens, is_tight, space};

use std::alloc::{AllocError, Global};
use std::marker::Model;
use vl_values::bytes::Bytes;
use vl_values::value::Value;

/// Writes items one behind the other: one space between two, none before a `,` and inside brackets.
#[derive(Drop)]
pub struct Writer {
    text: Vec<u8>,
    unspaced: bool,
}

impl Model for Writer {
    ghost use Rattle.vl_grammar.specs.Layout.{Page};

    ghost Value = { Page };

    ghost view = { λ w. record { text = w.text.items; unspaced = w.unspaced } };
}

// Whether a byte begins a word.
fn is_start(byte: u8) -> bool
    ensures { result ≡ is_start byte }
{
    byte.is_ascii_alphabetic() || byte == b'_'
}

// Whether a byte goes on with a word.
fn is_part(byte: u8) -> bool
    ensures { result ≡ is_part byte }
{
    byte.is_ascii_alphabetic() || byte.is_ascii_digit() || byte == b'_' || byte == b'$'
}

fn all_part(bytes: &[u8]) -> bool
    ensures { result ≡ list_all is_part bytes.now }
{
    bytes.iter().all(|b| is_part(*b))
}

// Whether a name needs no backquotes.
fn is_plain(name: &[u8]) -> bool
    ensures { result ≡ is_plain name.now }
{
    match name {
        [] => false,
        [first, rest @ ..] => is_start(*first) && all_part(rest),
    }
}

// The byte that stands for another behind a backslash; 0 where it needs none.
fn letter_for(byte: u8) -> u8
    ensures { result ≡ letter_for byte }
{
    if byte == 0 {
        return b'0';
    }
    if byte == 8 {
        return b'b';
    }
    if byte == b'\n' {
        return b'n';
    }
    if byte == b'\r' {
        return b'r';
    }
    if byte == b'\t' {
        return b't';
    }
    if byte == 26 {
        return b'Z';
    }
    if byte == b'\\' || byte == b'\'' || byte == b'"' {
        return byte;
    }
    0
}

fn push_escape(text: &mut Vec<u8>, byte: u8) -> Result<(), AllocError>
    ensures { OnOk result (text.new.items ≡ text.old.items ++ escape byte) }
{
    let letter = letter_for(byte);
    if letter == 0 {
        text.push(byte)?;
        return Ok(());
    }
    text.push(b'\\')?;
    text.push(letter)?;
    Ok(())
}

fn push_escapes(text: &mut Vec<u8>, bytes: &[u8]) -> Result<(), AllocError>
    ensures { OnOk result (text.new.items ≡ text.old.items ++ flat_map escape bytes.now) }
{
    for byte in bytes {
        push_escape(text, *byte)?;
    }
    Ok(())
}

// Adds bytes in single quotes, with backslash escapes.
fn push_quoted(text: &mut Vec<u8>, bytes: &[u8]) -> Result<(), AllocError>
    ensures { OnOk result (text.new.items ≡ text.old.items ++ in_quotes bytes.now) }
{
    text.push(b'\'')?;
    push_escapes(text, bytes)?;
    text.push(b'\'')?;
    Ok(())
}

fn push_name(text: &mut Vec<u8>, name: &[u8]) -> Result<(), AllocError>
    ensures { OnOk result (text.new.items ≡ text.old.items ++ (if is_plain name.now then name.now else in_backquotes name.now)) }
{
    if is_plain(name) {
        return text.extend_from_slice(name);
    }
    text.push(b'`')?;
    text.extend_from_slice(name)?;
    text.push(b'`')?;
    Ok(())
}

fn push_literal(alloc: Global, text: &mut Vec<u8>, value: &Value) -> Result<(), AllocError>
    ensures { OnOk result (text.new.items ≡ text.old.items ++ literal_text value.now) }
{
    match value {
        Value::Null => text.extend_from_slice(b"NULL"),
        Value::Int(n) => {
            let digits = format!(in alloc; "{n}")?;
            text.extend_from_slice(digits.as_bytes())
        }
        Value::Uint(n) => {
            let digits = format!(in alloc; "{n}")?;
            text.extend_from_slice(digits.as_bytes())
        }
        Value::Bytes(bytes) => push_quoted(text, bytes.as_slice()),
    }
}

// Adds the space before an item that isn't `,` or `)`.
fn push_space(text: &mut Vec<u8>, unspaced: bool) -> Result<(), AllocError>
    ensures { OnOk result (text.new.items ≡ text.old.items ++ (if unspaced then [] else 32 ∷ [])) }
{
    if !unspaced {
        text.push(b' ')?;
    }
    Ok(())
}

impl Writer {
    /// A writer that has written nothing.
    pub fn new(alloc: Global) -> Writer
        ensures { result ≡ record { text = []; unspaced = true } }
    {
        Writer {
            text: Vec::new(alloc),
            unspaced: true,
        }
    }

    /// What was written.
    pub fn into_text(self) -> Bytes
        ensures { result ≡ self.text }
    {
        let Writer { text, unspaced: _ } = self;
        Bytes::from_vec(text)
    }

    /// Writes a keyword.
    #[tactic(auto, unfolding(crate::specs::Layout::added))]
    pub fn key(&mut self, keyword: &[u8]) -> Result<(), AllocError>
        ensures { OnOk result (self.new ≡ added self.old (Item.Key keyword.now ∷ [])) }
    {
        push_space(&mut self.text, self.unspaced)?;
        self.text.extend_from_slice(keyword)?;
        self.unspaced = false;
        Ok(())
    }

    /// Writes a name, in backquotes where it needs them.
    #[tactic(auto, unfolding(crate::specs::Layout::added))]
    pub fn name(&mut self, name: &[u8]) -> Result<(), AllocError>
        ensures { OnOk result (self.new ≡ added self.old (Item.Name name.now ∷ [])) }
    {
        push_space(&mut self.text, self.unspaced)?;
        push_name(&mut self.text, name)?;
        self.unspaced = false;
        Ok(())
    }

    /// Writes a literal: NULL, a number or a text.
    #[tactic(auto, unfolding(crate::specs::Layout::added))]
    pub fn literal(&mut self, alloc: Global, value: &Value) -> Result<(), AllocError>
        ensures { OnOk result (self.new ≡ added self.old (Item.Literal value.now ∷ [])) }
    {
        push_space(&mut self.text, self.unspaced)?;
        push_literal(alloc, &mut self.text, value)?;
        self.unspaced = false;
        Ok(())
    }

    /// Writes a mark of one byte.
    #[tactic(auto, unfolding(crate::specs::Layout::added))]
    pub fn sign(&mut self, mark: u8) -> Result<(), AllocError>
        ensures { OnOk result (self.new ≡ added self.old (Item.Sign mark ∷ [])) }
    {
        let tight = mark == b')' || mark == b',';
        push_space(&mut self.text, self.unspaced || tight)?;
        self.text.push(mark)?;
        self.unspaced = mark == b'(';
        Ok(())
    }

    /// Writes a number in decimal.
    #[tactic(auto, unfolding(crate::specs::Layout::added))]
    pub fn count(&mut self, alloc: Global, n: u64) -> Result<(), AllocError>
        ensures { OnOk result (self.new ≡ added self.old (Item.Count n ∷ [])) }
    {
        push_space(&mut self.text, self.unspaced)?;
        let digits = format!(in alloc; "{n}")?;
        self.text.extend_from_slice(digits.as_bytes())?;
        self.unspaced = false;
        Ok(())
    }

    /// Writes these digits.
    #[tactic(auto, unfolding(crate::specs::Layout::added))]
    pub fn digits(&mut self, digits: &[u8]) -> Result<(), AllocError>
        ensures { OnOk result (self.new ≡ added self.old (Item.Digits digits.now ∷ [])) }
    {
        push_space(&mut self.text, self.unspaced)?;
        self.text.extend_from_slice(digits)?;
        self.unspaced = false;
        Ok(())
    }

    /// Writes `@@` and the name of a variable.
    #[tactic(auto, unfolding(crate::specs::Layout::added))]
    pub fn variable(&mut self, name: &[u8]) -> Result<(), AllocError>
        ensures { OnOk result (self.new ≡ added self.old (Item.Variable name.now ∷ [])) }
    {
        push_space(&mut self.text, self.unspaced)?;
        self.text.extend_from_slice(b"@@")?;
        self.text.extend_from_slice(name)?;
        self.unspaced = false;
        Ok(())
    }

    /// Writes the name of a character set in quotes.
    #[tactic(auto, unfolding(crate::specs::Layout::added))]
    pub fn charset(&mut self, name: &[u8]) -> Result<(), AllocError>
        ensures { OnOk result (self.new ≡ added self.old (Item.Charset name.now ∷ [])) }
    {
        push_space(&mut self.text, self.unspaced)?;
        push_quoted(&mut self.text, name)?;
        self.unspaced = false;
        Ok(())
    }
}
