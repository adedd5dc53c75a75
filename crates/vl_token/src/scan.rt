ghost use Rattle.std.specs.Prelude.{◌≡◌, ◌<◌, ◌≤◌, ◌==◌, not, length, drop, IfSome, MatchOption};
ghost use Rattle.std.specs.List.{prefix_len};
ghost use Rattle.std.specs.Char.{is_ascii_digit, is_ascii_hexdigit};
ghost use Rattle.vl_token.specs.Lexical.{begins, is_part, closing, later, comment_at};
ghost use Rattle.vl_token.specs.Lexical.Lexeme.{Gap, Wrong};

use crate::class::is_part;

/// Whether the bytes begin with this one.
pub fn begins(byte: u8, bytes: &[u8]) -> bool
    ensures { result ≡ begins byte bytes.now }
{
    match bytes {
        [] => false,
        [first, ..] => *first == byte,
    }
}

/// How many bytes from the front on go on with a word.
pub fn part_len(bytes: &[u8]) -> usize
    ensures is { result ≡ prefix_len is_part bytes.now }
    ensures within { result ≤ length bytes.now }
{
    bytes.iter().take_while(|b| is_part(**b)).count()
}

/// How many bytes from the front on are digits.
pub fn digits_len(bytes: &[u8]) -> usize
    ensures is { result ≡ prefix_len is_ascii_digit bytes.now }
    ensures within { result ≤ length bytes.now }
{
    bytes.iter().take_while(|b| b.is_ascii_digit()).count()
}

/// How many bytes from the front on are hexadecimal digits.
pub fn hex_len(bytes: &[u8]) -> usize
    ensures is { result ≡ prefix_len is_ascii_hexdigit bytes.now }
    ensures within { result ≤ length bytes.now }
{
    bytes.iter().take_while(|b| b.is_ascii_hexdigit()).count()
}

/// How many bytes stand before the first of this kind.
pub fn len_before(byte: u8, bytes: &[u8]) -> usize
    ensures is { result ≡ prefix_len (λ b. not (b == byte)) bytes.now }
    ensures within { result ≤ length bytes.now }
{
    bytes.iter().take_while(|b| **b != byte).count()
}

/// Where the quote closes the text: neither behind a backslash nor doubled.
pub fn closing(quote: u8, bytes: &[u8]) -> Option<usize>
    ensures is { result ≡ closing quote bytes.now }
    ensures within { IfSome result (λ n. n < length bytes.now) }
{
    let mut i = 0;
    while i < bytes.len() {
        match step(quote, &bytes[i..]) {
            None => return Some(i),
            Some(n) => i += n,
        }
    }
    None
}

// How many bytes at the front of a text belong together; none where the text closes there.
fn step(quote: u8, bytes: &[u8]) -> Option<usize>
    ensures { MatchOption result (closing quote bytes.now ≡ Some 0) (λ n. (0 < n) × (n ≤ 2) × (closing quote bytes.now ≡ later n (closing quote (drop n bytes.now)))) }
{
    match bytes {
        [] => Some(1),
        [b] => {
            if *b == quote {
                return None;
            }
            Some(1)
        }
        [b, c, ..] => {
            if *b == quote {
                if *c == quote {
                    return Some(2);
                }
                return None;
            }
            if *b == b'\\' {
                return Some(2);
            }
            Some(1)
        }
    }
}

/// What stands behind the `*/` of a comment that began before these bytes.
pub fn behind_comment(bytes: &[u8]) -> Option<&[u8]>
    ensures { MatchOption result (comment_at bytes.now ≡ Wrong) (λ rest. comment_at bytes.now ≡ Gap rest.now) }
{
    for i in 0..bytes.len() {
        if bytes[i] == b'*' && begins(b'/', &bytes[i + 1..]) {
            return Some(&bytes[i + 2..]);
        }
    }
    None
}
