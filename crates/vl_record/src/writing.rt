ghost use Rattle.std.specs.Prelude.{◌≡◌, ◌<◌, ◌≤◌, ◌+◌, ◌^◌, ◌++◌, ◌∷◌, [], length, vec_len, vec_capacity, OnOk, OnErr};
ghost use Rattle.std.specs.List.{flat_map};
ghost use Rattle.std.specs.Int.{w16, w32, w64};
ghost use Rattle.std.specs.Option.{option_copied};
ghost use Rattle.vl_record.specs.Spelling.{change_bytes, group_byte, key_bytes, new_row_bytes, number_bytes, value_bytes, values_bytes};
ghost use Rattle.vl_record.specs.Grammar.{FitsField};
ghost use Rattle.vl_record.specs.Collected.{change_of};
ghost use Rattle.vl_record.specs.Writing.{AreFields, IsField, IsWritable};

use std::alloc::AllocError;
use vl_values::group::Group;
use vl_values::key::Key;
use vl_values::row::Row;
use vl_values::value::Value;

// Each of these adds its bytes at the end, or finds that there was no room for them.

#[tactic(auto, unfolding(crate::specs::Spelling::number_bytes))]
pub(crate) fn put_u16(out: &mut Vec<u8>, n: u16) -> Result<(), AllocError>
    ensures items { OnOk result (out.new.items ≡ out.old.items ++ number_bytes w16 n) }
    ensures capacity { vec_capacity out.old ≤ vec_capacity out.new }
    ensures full { OnErr result (vec_capacity out.old < vec_len out.old + length (number_bytes w16 n)) }
{
    out.extend_from_slice(&n.to_le_bytes())
}

#[tactic(auto, unfolding(crate::specs::Spelling::number_bytes))]
pub(crate) fn put_u32(out: &mut Vec<u8>, n: u32) -> Result<(), AllocError>
    ensures items { OnOk result (out.new.items ≡ out.old.items ++ number_bytes w32 n) }
    ensures capacity { vec_capacity out.old ≤ vec_capacity out.new }
    ensures full { OnErr result (vec_capacity out.old < vec_len out.old + length (number_bytes w32 n)) }
{
    out.extend_from_slice(&n.to_le_bytes())
}

#[tactic(auto, unfolding(crate::specs::Spelling::number_bytes))]
pub(crate) fn put_u64(out: &mut Vec<u8>, n: u64) -> Result<(), AllocError>
    ensures items { OnOk result (out.new.items ≡ out.old.items ++ number_bytes w64 n) }
    ensures capacity { vec_capacity out.old ≤ vec_capacity out.new }
    ensures full { OnErr result (vec_capacity out.old < vec_len out.old + length (number_bytes w64 n)) }
{
    out.extend_from_slice(&n.to_le_bytes())
}

pub(crate) fn put_u8(out: &mut Vec<u8>, n: u8) -> Result<(), AllocError>
    ensures items { OnOk result (out.new.items ≡ out.old.items ++ n ∷ []) }
    ensures capacity { vec_capacity out.old ≤ vec_capacity out.new }
    ensures full { OnErr result (vec_capacity out.old < vec_len out.old + 1) }
{
    out.extend_from_slice(&[n])
}

fn put_value(out: &mut Vec<u8>, value: &Value) -> Result<(), AllocError>
    requires { FitsField value.now }
    ensures items { OnOk result (out.new.items ≡ out.old.items ++ value_bytes value.now) }
    ensures capacity { vec_capacity out.old ≤ vec_capacity out.new }
    ensures full { OnErr result (vec_capacity out.old < vec_len out.old + length (value_bytes value.now)) }
{
    match value {
        Value::Null => put_u8(out, 0),
        Value::Int(n) => {
            put_u8(out, 1)?;
            put_u64(out, n.cast_unsigned())
        }
        Value::Uint(n) => {
            put_u8(out, 2)?;
            put_u64(out, *n)
        }
        Value::Bytes(text) => {
            put_u8(out, 3)?;
            put_u32(out, text.len() as u32)?;
            out.extend_from_slice(text.as_slice())
        }
    }
}

fn put_each(out: &mut Vec<u8>, values: &[Value]) -> Result<(), AllocError>
    requires { AreFields values.now }
    ensures items { OnOk result (out.new.items ≡ out.old.items ++ flat_map value_bytes values.now) }
    ensures capacity { vec_capacity out.old ≤ vec_capacity out.new }
    ensures full { OnErr result (vec_capacity out.old < vec_len out.old + length (flat_map value_bytes values.now)) }
{
    for value in values {
        put_value(out, value)?;
    }
    Ok(())
}

pub(crate) fn put_values(out: &mut Vec<u8>, values: &[Value]) -> Result<(), AllocError>
    requires { AreFields values.now }
    ensures items { OnOk result (out.new.items ≡ out.old.items ++ values_bytes values.now) }
    ensures capacity { vec_capacity out.old ≤ vec_capacity out.new }
    ensures full { OnErr result (vec_capacity out.old < vec_len out.old + length (values_bytes values.now)) }
{
    put_u16(out, values.len() as u16)?;
    put_each(out, values)
}

pub(crate) fn put_key(out: &mut Vec<u8>, key: &Key) -> Result<(), AllocError>
    requires { AreFields key.now.pk }
    ensures items { OnOk result (out.new.items ≡ out.old.items ++ key_bytes key.now) }
    ensures capacity { vec_capacity out.old ≤ vec_capacity out.new }
    ensures full { OnErr result (vec_capacity out.old < vec_len out.old + length (key_bytes key.now)) }
{
    put_u32(out, key.table)?;
    put_values(out, key.pk.as_slice())
}

fn put_new_row(out: &mut Vec<u8>, row: Option<&Row>) -> Result<(), AllocError>
    requires { IsField (option_copied row) }
    ensures items { OnOk result (out.new.items ≡ out.old.items ++ new_row_bytes (option_copied row.entry)) }
    ensures capacity { vec_capacity out.old ≤ vec_capacity out.new }
    ensures full { OnErr result (vec_capacity out.old < vec_len out.old + length (new_row_bytes (option_copied row.entry))) }
{
    match row {
        None => put_u8(out, 0),
        Some(row) => {
            put_u8(out, 1)?;
            put_values(out, row.as_slice())
        }
    }
}

/// Adds a change's bytes: the key has this row, or is removed.
pub(crate) fn put_change(out: &mut Vec<u8>, key: &Key, row: Option<&Row>) -> Result<(), AllocError>
    requires { IsWritable (change_of (key.now, option_copied row)) }
    ensures items { OnOk result (out.new.items ≡ out.old.items ++ change_bytes (change_of (key.now, option_copied row.entry))) }
    ensures capacity { vec_capacity out.old ≤ vec_capacity out.new }
    ensures full { OnErr result (vec_capacity out.old < vec_len out.old + length (change_bytes (change_of (key.now, option_copied row.entry)))) }
{
    put_key(out, key)?;
    put_new_row(out, row)
}

pub(crate) fn group_byte(group: Group) -> u8
    ensures { result ≡ group_byte group }
{
    match group {
        Group::Pre => 0,
        Group::Main => 1,
        Group::Post => 2,
    }
}
