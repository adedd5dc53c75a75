ghost use Rattle.std.specs.Prelude.{◌≡◌, ◌++◌, IfOk, OnOk};
ghost use Rattle.std.specs.List.{list_all};
ghost use Rattle.vl_values.specs.Value.{text_of_value};
ghost use Rattle.vl_text.specs.JoinedText.{joined_text, printable};
ghost use Rattle.vl_text.specs.Shown.{is_printable};

use crate::pieces::{is_printable, push_hex, push_separator};
use std::alloc::{AllocError, Global};
use vl_values::bytes::Bytes;
use vl_values::value::Value;

fn all_printable(bytes: &[u8]) -> bool
    ensures { result ≡ list_all is_printable bytes.now }
{
    bytes.iter().all(|byte| is_printable(*byte))
}

// Adds bytes as they are where each is printable, else as `x'hex'`.
fn push_printable(text: &mut Vec<u8>, bytes: &[u8]) -> Result<(), AllocError>
    ensures { OnOk result (text.new.items ≡ text.old.items ++ printable bytes.now) }
{
    if all_printable(bytes) {
        return text.extend_from_slice(bytes);
    }
    push_hex(text, bytes)
}

fn push_value(text: &mut Vec<u8>, value: &Value) -> Result<(), AllocError>
    ensures { OnOk result (text.new.items ≡ text.old.items ++ printable (text_of_value value.now)) }
{
    let mut buffer = itoa::Buffer::new();
    match value {
        Value::Null => Ok(()),
        Value::Int(n) => push_printable(text, buffer.format(*n).as_bytes()),
        Value::Uint(n) => push_printable(text, buffer.format(*n).as_bytes()),
        Value::Bytes(bytes) => push_printable(text, bytes.as_slice()),
    }
}

/// The texts of values that clash, with `-` between each two: of each what `text_of` gives, or `x'hex'`
/// where a byte of that isn't printable ASCII.
pub fn joined_text(alloc: Global, values: &[Value]) -> Result<Bytes, AllocError>
    ensures { IfOk result (λ text. text ≡ joined_text values.now) }
{
    let mut text = Vec::new(alloc);
    for (n, value) in values.iter().enumerate() {
        push_separator(&mut text, b"-", n)?;
        push_value(&mut text, value)?;
    }
    Ok(Bytes::from_vec(text))
}
