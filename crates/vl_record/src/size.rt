ghost use Rattle.std.specs.Prelude.{◌≡◌, ◌<◌, ◌≤◌, ◌^◌, length};
ghost use Rattle.std.specs.List.{flat_map};
ghost use Rattle.std.specs.Option.{option_copied};
ghost use Rattle.vl_record.specs.Spelling.{change_bytes, new_row_bytes, value_bytes, values_bytes};
ghost use Rattle.vl_record.specs.Collected.{change_of};
ghost use Rattle.vl_record.specs.Grammar.{FitsField};
ghost use Rattle.vl_record.specs.Writing.{AreFields, IsField, IsWritable};

use vl_values::key::Key;
use vl_values::row::Row;
use vl_values::value::Value;

// Each of these gives how many bytes are written of it.

#[tactic(auto, unfolding(crate::specs::Spelling::number_bytes))]
fn value_len(value: &Value) -> usize
    requires { FitsField value.now }
    ensures len { result ≡ length (value_bytes value.now) }
    ensures bound { result ≤ 4294967300 }
{
    match value {
        Value::Null => 1,
        Value::Int(_) | Value::Uint(_) => 9,
        Value::Bytes(text) => 5 + text.len(),
    }
}

fn each_len(values: &[Value]) -> usize
    requires { AreFields values.now }
    ensures len { result ≡ length (flat_map value_bytes values.now) }
    ensures bound { result < 2 ^ 49 }
{
    let mut len = 0;
    for value in values {
        len += value_len(value);
    }
    len
}

#[tactic(auto, unfolding(crate::specs::Spelling::number_bytes))]
fn values_len(values: &[Value]) -> usize
    requires { AreFields values.now }
    ensures len { result ≡ length (values_bytes values.now) }
    ensures bound { result < 2 ^ 50 }
{
    2 + each_len(values)
}

fn new_row_len(row: Option<&Row>) -> usize
    requires { IsField (option_copied row) }
    ensures len { result ≡ length (new_row_bytes (option_copied row.entry)) }
    ensures bound { result < 2 ^ 51 }
{
    match row {
        None => 1,
        Some(row) => 1 + values_len(row.as_slice()),
    }
}

/// How many bytes a change has.
#[tactic(auto, unfolding(crate::specs::Spelling::number_bytes))]
pub fn change_len(key: &Key, row: Option<&Row>) -> usize
    requires { IsWritable (change_of (key.now, option_copied row)) }
    ensures { result ≡ length (change_bytes (change_of (key.now, option_copied row.entry))) }
{
    4 + values_len(key.pk.as_slice()) + new_row_len(row)
}
