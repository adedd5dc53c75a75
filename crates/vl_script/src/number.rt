ghost use Rattle.std.specs.Prelude.{◌≡◌, ℕ, ◌≤◌, ◌++◌, codes, IfSome, IfNone};
ghost use Rattle.std.specs.Fmt.{decimal};
ghost use Rattle.vl_script.specs.Script.{IsCount, IsSession, session_name};

use crate::words::without_front;
use std::str;

/// The number that decimal digits without leading zeros write, from 1 to 1,000,000.
pub fn count_of(digits: &[u8]) -> Option<u32>
    ensures some { IfSome result (λ n. (digits.now ≡ decimal n) × IsCount n) }
    ensures none { IfNone result ((n : ℕ) → IsCount n → digits.now ≡ decimal n → ⊥) }
{
    let [first, ..] = digits else {
        return None;
    };
    // neither a leading zero nor a sign
    if *first <= b'0' {
        return None;
    }
    let Ok(text) = str::from_utf8(digits) else {
        return None;
    };
    let Ok(n) = text.parse::<u32>() else {
        return None;
    };
    if n > 1_000_000 {
        return None;
    }
    Some(n)
}

/// The number in a session's name.
pub fn session_of(name: &[u8]) -> Option<u16>
    ensures some { IfSome result (λ n. (name.now ≡ session_name n) × IsSession n) }
    ensures none { IfNone result ((n : ℕ) → IsSession n → name.now ≡ session_name n → ⊥) }
{
    let Some(digits) = without_front(name, b"s") else {
        return None;
    };
    let Some(n) = count_of(digits) else {
        return None;
    };
    if n > 9_999 {
        return None;
    }
    Some(n as u16)
}
