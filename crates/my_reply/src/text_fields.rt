ghost use Rattle.std.specs.Prelude.{◌≡◌, ◌≤◌, ◌∷◌, [], ◌++◌, length, OnOk};
ghost use Rattle.my_reply.specs.Fields.{length_encoded, text_bytes};
ghost use Rattle.my_reply.specs.Reply.{IsShortValue};
ghost use Rattle.my_reply.specs.ResultSet.{value_bytes};

use std::alloc::AllocError;
use vl_values::value::Value;

/// Adds a number below 2^16, length-encoded.
pub(crate) fn push_length(buf: &mut Vec<u8>, n: u16) -> Result<(), AllocError>
    ensures { OnOk result (buf.new.items ≡ buf.old.items ++ length_encoded n) }
{
    if n < 251 {
        return buf.extend_from_slice(&[n as u8]);
    }
    let [low, high] = n.to_le_bytes();
    buf.extend_from_slice(&[0xfc, low, high])
}

/// Adds a text behind its length.
pub(crate) fn push_text(buf: &mut Vec<u8>, text: &[u8]) -> Result<(), AllocError>
    requires { length text.now ≤ 16383 }
    ensures { OnOk result (buf.new.items ≡ buf.old.items ++ text_bytes text.now) }
{
    push_length(buf, text.len() as u16)?;
    buf.extend_from_slice(text)
}

/// Adds a value: its text behind its length, or the mark of NULL.
pub(crate) fn push_value(buf: &mut Vec<u8>, value: &Value) -> Result<(), AllocError>
    requires { IsShortValue value.now }
    ensures { OnOk result (buf.new.items ≡ buf.old.items ++ value_bytes value.now) }
{
    let mut buffer = itoa::Buffer::new();
    match value {
        Value::Null => buf.extend_from_slice(&[0xfb]),
        Value::Int(n) => push_text(buf, buffer.format(*n).as_bytes()),
        Value::Uint(n) => push_text(buf, buffer.format(*n).as_bytes()),
        Value::Bytes(bytes) => push_text(buf, bytes.as_slice()),
    }
}
