ghost use Rattle.std.specs.Prelude.{◌≡◌, length};
ghost use Rattle.vl_values.specs.Value.{text_of_value};

use vl_values::value::Value;

/// How many bytes the text of a value has. It takes no memory.
pub fn text_length(value: &Value) -> usize
    ensures { result ≡ length (text_of_value value.now) }
{
    let mut buffer = itoa::Buffer::new();
    match value {
        Value::Null => 0,
        Value::Int(n) => buffer.format(*n).len(),
        Value::Uint(n) => buffer.format(*n).len(),
        Value::Bytes(bytes) => bytes.len(),
    }
}
