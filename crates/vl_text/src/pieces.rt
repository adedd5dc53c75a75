ghost use Rattle.std.specs.Prelude.{◌≡◌, [], ◌∷◌, ◌++◌, OnOk};
ghost use Rattle.std.specs.Fmt.{decimal, signed_decimal};
ghost use Rattle.hex.specs.Hex.{encode_lower};
ghost use Rattle.vl_text.specs.Listed.{before_value};
ghost use Rattle.vl_text.specs.Shown.{in_hex, in_quotes, is_printable};

use std::alloc::AllocError;

const DIGITS: &[u8; 16] = b"0123456789abcdef";

// Whether a byte is printable ASCII.
pub(crate) fn is_printable(byte: u8) -> bool
    ensures { result ≡ is_printable byte }
{
    32 <= byte && byte <= 126
}

pub(crate) fn push_int(text: &mut Vec<u8>, n: i64) -> Result<(), AllocError>
    ensures { OnOk result (text.new.items ≡ text.old.items ++ signed_decimal n) }
{
    let mut buffer = itoa::Buffer::new();
    text.extend_from_slice(buffer.format(n).as_bytes())
}

pub(crate) fn push_uint(text: &mut Vec<u8>, n: u64) -> Result<(), AllocError>
    ensures { OnOk result (text.new.items ≡ text.old.items ++ decimal n) }
{
    let mut buffer = itoa::Buffer::new();
    text.extend_from_slice(buffer.format(n).as_bytes())
}

#[tactic(auto, unfolding(hex::specs::Hex::encode_with))]
fn push_byte(text: &mut Vec<u8>, byte: u8) -> Result<(), AllocError>
    ensures { OnOk result (text.new.items ≡ text.old.items ++ encode_lower (byte ∷ [])) }
{
    let high = DIGITS[usize::from(byte / 16)];
    let low = DIGITS[usize::from(byte % 16)];
    text.extend_from_slice(&[high, low])
}

// Adds two lower case digits for each byte.
#[tactic(auto, unfolding(hex::specs::Hex::encode_with))]
fn push_digits(text: &mut Vec<u8>, bytes: &[u8]) -> Result<(), AllocError>
    ensures { OnOk result (text.new.items ≡ text.old.items ++ encode_lower bytes.now) }
{
    for byte in bytes {
        push_byte(text, *byte)?;
    }
    Ok(())
}

// Adds `x'hex'`.
pub(crate) fn push_hex(text: &mut Vec<u8>, bytes: &[u8]) -> Result<(), AllocError>
    ensures { OnOk result (text.new.items ≡ text.old.items ++ in_hex bytes.now) }
{
    text.reserve(bytes.len().saturating_mul(2).saturating_add(3))?;
    text.extend_from_slice(b"x'")?;
    push_digits(text, bytes)?;
    text.extend_from_slice(b"'")
}

// Adds bytes between single quotes.
pub(crate) fn push_quoted(text: &mut Vec<u8>, bytes: &[u8]) -> Result<(), AllocError>
    ensures { OnOk result (text.new.items ≡ text.old.items ++ in_quotes bytes.now) }
{
    text.reserve(bytes.len().saturating_add(2))?;
    text.extend_from_slice(b"'")?;
    text.extend_from_slice(bytes)?;
    text.extend_from_slice(b"'")
}

// Adds the separator before a value that isn't the first.
pub(crate) fn push_separator(
    text: &mut Vec<u8>,
    separator: &[u8],
    n: usize,
) -> Result<(), AllocError>
    ensures { OnOk result (text.new.items ≡ text.old.items ++ before_value separator.now n) }
{
    if n == 0 {
        return Ok(());
    }
    text.extend_from_slice(separator)
}
