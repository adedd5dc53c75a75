ghost use Rattle.std.specs.Prelude.{ℕ, ◌+◌, ◌*◌, ◌^◌, ◌<◌, IfSome, IfNone, SomeIff};
ghost use Rattle.vl_model.specs.ScriptLine.{IsNumber};

/// The value of 1 to 20 decimal digits, where it has 64 bits.
pub fn number_of(digits: &[u8]) -> Option<u64>
    ensures some { IfSome result (λ n. IsNumber digits.now n) }
    ensures none { IfNone result ((n : ℕ) → IsNumber digits.now n → ⊥) }
{
    if digits.is_empty() || digits.len() > 20 {
        return None;
    }
    let mut value: u64 = 0;
    for digit in digits {
        if !digit.is_ascii_digit() {
            return None;
        }
        let Some(next) = with_digit(value, *digit - b'0') else {
            return None;
        };
        value = next;
    }
    Some(value)
}

// One digit more behind a number.
fn with_digit(value: u64, digit: u8) -> Option<u64>
    ensures { SomeIff result (10 * value + digit < 2 ^ 64) (10 * value + digit) }
{
    value.checked_mul(10)?.checked_add(u64::from(digit))
}
