ghost use Rattle.std.specs.Prelude.{◌≡◌, []};
ghost use Rattle.std.specs.Option.{option_copied};
ghost use Rattle.vl_record.specs.Reading.{many_at, next_value, value_at, value_in, value_of_kind, values_at};
ghost use Rattle.vl_record.specs.Readers.{Gives, rest_of};

use crate::allowed::{column_at, fits, width_of};
use crate::number::{text_at, u8_at, u16_at, u32_at, u64_at};
use crate::read_error::ReadError;
use crate::reader::Reader;
use std::alloc::Global;
use vl_catalog::{Column, Table};
use vl_values::bytes::Bytes;
use vl_values::row::Row;
use vl_values::value::Value;

// A value behind its leading byte.
#[tactic(auto, unfolding(crate::specs::Reading::value_of_kind))]
fn value_of_kind(
    alloc: Global,
    kind: u8,
    first: usize,
    r: Reader<'_>,
) -> Result<(Value, Reader<'_>), ReadError>
    ensures { Gives (λ x. (x.0, rest_of x.1)) result (value_of_kind kind first (rest_of r.entry)) }
{
    match kind {
        0 => Ok((Value::Null, r)),
        1 => {
            let (number, rest) = u64_at(first, r)?;
            Ok((Value::Int(number.cast_signed()), rest))
        }
        2 => {
            let (number, rest) = u64_at(first, r)?;
            Ok((Value::Uint(number), rest))
        }
        3 => {
            let (len, rest) = u32_at(first, r)?;
            let (text, rest) = text_at(len as usize, first, rest)?;
            Ok((Value::Bytes(Bytes::from_slice(alloc, text)?), rest))
        }
        _ => Err(ReadError::NotOurs(first)),
    }
}

#[tactic(auto, unfolding(crate::specs::Reading::value_at))]
fn value_at(alloc: Global, r: Reader<'_>) -> Result<(Value, Reader<'_>), ReadError>
    ensures { Gives (λ x. (x.0, rest_of x.1)) result (value_at (rest_of r.entry)) }
{
    let (kind, rest) = u8_at(r.offset, r)?;
    value_of_kind(alloc, kind, r.offset, rest)
}

// A value that the column may hold.
#[tactic(auto, unfolding(crate::specs::Reading::value_in))]
fn value_in<'a>(
    alloc: Global,
    column: Option<&Column>,
    r: Reader<'a>,
) -> Result<(Value, Reader<'a>), ReadError>
    ensures { Gives (λ x. (x.0, rest_of x.1)) result (value_in (option_copied column.entry) (rest_of r.entry)) }
{
    let (value, rest) = value_at(alloc, r)?;
    if fits(column, &value) {
        Ok((value, rest))
    } else {
        Err(ReadError::NotOurs(r.offset))
    }
}

// A value behind these of its key or of its row.
fn next_value<'a>(
    alloc: Global,
    table: &Table,
    is_key: bool,
    front: &[Value],
    r: Reader<'a>,
) -> Result<(Value, Reader<'a>), ReadError>
    ensures { Gives (λ x. (x.0, rest_of x.1)) result (next_value table.now is_key front.now (rest_of r.entry)) }
{
    value_in(alloc, column_at(table, is_key, front.len()), r)
}

// So many values of a key of the table (true), or of a row (false).
fn values_of<'a>(
    alloc: Global,
    table: &Table,
    is_key: bool,
    count: u16,
    r: Reader<'a>,
) -> Result<(Vec<Value>, Reader<'a>), ReadError>
    ensures { Gives (λ x. (x.0.items, rest_of x.1)) result (many_at (next_value table.now is_key) count [] (rest_of r.entry)) }
{
    let mut values = Vec::with_capacity(alloc, count as usize)?;
    let mut rest = r;
    for _ in 0..count {
        let (value, next) = next_value(alloc, table, is_key, values.as_slice(), rest)?;
        values.push(value)?;
        rest = next;
    }
    Ok((values, rest))
}

/// The values of a key of the table (true), or of a row (false).
#[tactic(auto, unfolding(crate::specs::Reading::values_at))]
pub(crate) fn values_at<'a>(
    alloc: Global,
    table: &Table,
    is_key: bool,
    r: Reader<'a>,
) -> Result<(Row, Reader<'a>), ReadError>
    ensures { Gives (λ x. (x.0, rest_of x.1)) result (values_at table.now is_key (rest_of r.entry)) }
{
    let (count, rest) = u16_at(r.offset, r)?;
    if usize::from(count) != width_of(table, is_key) {
        return Err(ReadError::NotOurs(r.offset));
    }
    let (values, rest) = values_of(alloc, table, is_key, count, rest)?;
    Ok((Row::from_vec(values), rest))
}
