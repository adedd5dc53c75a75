ghost use Rattle.std.specs.Prelude.{◌≡◌, ◌++◌, IfOk, OnOk, codes};
ghost use Rattle.std.specs.List.{list_all};
ghost use Rattle.vl_text.specs.Shown.{is_plain, is_text, shown, shown_bytes};

use crate::pieces::{is_printable, push_hex, push_int, push_quoted, push_uint};
use std::alloc::{AllocError, Global};
use vl_values::bytes::Bytes;
use vl_values::col_type::ColType;
use vl_values::value::Value;

// Whether a byte stands for itself between single quotes.
fn is_plain(byte: u8) -> bool
    ensures { result ≡ is_plain byte }
{
    is_printable(byte) && byte != b'\'' && byte != b'\\'
}

fn all_plain(bytes: &[u8]) -> bool
    ensures { result ≡ list_all is_plain bytes.now }
{
    bytes.iter().all(|byte| is_plain(*byte))
}

// Whether bytes of this type are a text.
fn is_text(ty: ColType) -> bool
    ensures { result ≡ is_text ty }
{
    matches!(ty, ColType::VarChar(_))
}

fn push_bytes(text: &mut Vec<u8>, ty: ColType, bytes: &[u8]) -> Result<(), AllocError>
    ensures { OnOk result (text.new.items ≡ text.old.items ++ shown_bytes (is_text ty) bytes.now) }
{
    if is_text(ty) && all_plain(bytes) {
        return push_quoted(text, bytes);
    }
    push_hex(text, bytes)
}

/// Adds a value behind a text, as rows are printed: `NULL`; a number in decimal; bytes of VARCHAR in
/// single quotes where each is printable ASCII other than `'` and `\`; all other bytes as `x'hex'`.
/// After an error a part of that may stand behind the text.
pub fn push_shown(text: &mut Vec<u8>, ty: ColType, value: &Value) -> Result<(), AllocError>
    ensures { OnOk result (text.new.items ≡ text.old.items ++ shown ty value.now) }
{
    match value {
        Value::Null => text.extend_from_slice(b"NULL"),
        Value::Int(n) => push_int(text, *n),
        Value::Uint(n) => push_uint(text, *n),
        Value::Bytes(bytes) => push_bytes(text, ty, bytes.as_slice()),
    }
}

/// The text of a value, as rows are printed, by the type of its column.
pub fn shown(alloc: Global, ty: ColType, value: &Value) -> Result<Bytes, AllocError>
    ensures { IfOk result (λ text. text ≡ shown ty value.now) }
{
    let mut text = Vec::new(alloc);
    push_shown(&mut text, ty, value)?;
    Ok(Bytes::from_vec(text))
}
