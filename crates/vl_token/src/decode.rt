ghost use Rattle.std.specs.Prelude.{◌≡◌, ◌≤◌, ◌<◌, ◌^◌, ◌++◌, drop, IfOk, OnOk, MatchOption};
ghost use Rattle.vl_token.specs.Lexical.{escaped, unescaped, hex_value, unhexed, number_in};

use std::alloc::{AllocError, Global};

/// The bytes that stand between quotes with their escapes, without them: a doubled quote is one,
/// and `\0 \b \n \r \t \Z` are bytes of their own; `\%` and `\_` keep the backslash.
pub fn unescape(alloc: Global, quote: u8, raw: &[u8]) -> Result<Vec<u8>, AllocError>
    ensures { IfOk result (λ v. v.items ≡ unescaped quote raw.now) }
{
    let mut bytes = Vec::with_capacity(alloc, raw.len())?;
    let mut i = 0;
    while i < raw.len() {
        i += push_unescaped(&mut bytes, quote, &raw[i..])?;
    }
    Ok(bytes)
}

// Adds what the front of raw stands for, and answers how many bytes that takes.
fn push_unescaped(bytes: &mut Vec<u8>, quote: u8, raw: &[u8]) -> Result<usize, AllocError>
    ensures { IfOk result (λ n. (0 < n) × (n ≤ 2) × (bytes.new.items ++ unescaped quote (drop n raw.now) ≡ bytes.old.items ++ unescaped quote raw.now)) }
{
    match raw {
        [] => Ok(1),
        [b] => {
            bytes.push(*b)?;
            Ok(1)
        }
        [b, c, ..] => {
            if *b == quote {
                bytes.push(*b)?;
                return Ok(2);
            }
            if *b == b'\\' {
                push_escaped(bytes, *c)?;
                return Ok(2);
            }
            bytes.push(*b)?;
            Ok(1)
        }
    }
}

// Adds what a backslash and this byte stand for.
fn push_escaped(bytes: &mut Vec<u8>, byte: u8) -> Result<(), AllocError>
    ensures { OnOk result (bytes.new.items ≡ bytes.old.items ++ escaped byte) }
{
    if byte == b'0' {
        bytes.push(0)?;
        return Ok(());
    }
    if byte == b'b' {
        bytes.push(8)?;
        return Ok(());
    }
    if byte == b'n' {
        bytes.push(10)?;
        return Ok(());
    }
    if byte == b'r' {
        bytes.push(13)?;
        return Ok(());
    }
    if byte == b't' {
        bytes.push(9)?;
        return Ok(());
    }
    if byte == b'Z' {
        bytes.push(26)?;
        return Ok(());
    }
    if byte == b'%' || byte == b'_' {
        bytes.push(b'\\')?;
    }
    bytes.push(byte)?;
    Ok(())
}

fn hex_value(byte: u8) -> u8
    ensures { result ≡ hex_value byte }
{
    let value = if byte.is_ascii_digit() {
        byte - 48
    } else if byte >= 97 {
        byte - 87
    } else {
        byte.saturating_sub(55)
    };
    value % 16
}

/// The bytes that hexadecimal digits spell, two a byte.
pub fn unhex(alloc: Global, digits: &[u8]) -> Result<Vec<u8>, AllocError>
    ensures { IfOk result (λ v. v.items ≡ unhexed digits.now) }
{
    let mut bytes = Vec::with_capacity(alloc, digits.len() / 2)?;
    let mut rest = digits;
    for _ in 0..digits.len() {
        match rest {
            [high, low, behind @ ..] => {
                bytes.push(16 * hex_value(*high) + hex_value(*low))?;
                rest = behind;
            }
            _ => break,
        }
    }
    Ok(bytes)
}

/// The number that decimal digits spell, if it is below 2^64.
pub fn number(digits: &[u8]) -> Option<u64>
    ensures { MatchOption result (2 ^ 64 ≤ number_in digits.now) (λ n. n ≡ number_in digits.now) }
{
    let mut n = 0_u64;
    for digit in digits {
        let Some(tens) = n.checked_mul(10) else {
            return None;
        };
        let Some(next) = tens.checked_add(u64::from(digit.saturating_sub(b'0'))) else {
            return None;
        };
        n = next;
    }
    Some(n)
}
