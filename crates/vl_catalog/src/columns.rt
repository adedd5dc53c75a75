ghost use Rattle.std.specs.Prelude.{◌≡◌, IfOk, Option};
ghost use Rattle.vl_catalog.specs.Build.{column_number, column_numbers, one_column};

use crate::column::Column;
use std::alloc::{AllocError, Global};
use vl_values::ColumnNo;
use vl_values::bytes::Bytes;

// The place of the column of this name.
pub(crate) fn column_number(columns: &[Column], name: &[u8]) -> Option<ColumnNo>
    ensures { result ≡ column_number columns.now name.now }
{
    columns
        .iter()
        .position(|column| column.name.as_slice() == name)
}

// The places of the columns of these names; none where one of them doesn't exist.
pub(crate) fn column_numbers(
    alloc: Global,
    columns: &[Column],
    names: &[Bytes],
) -> Result<Vec<ColumnNo>, AllocError>
    ensures { IfOk result (λ numbers. numbers.items ≡ column_numbers columns.now names.now) }
{
    let mut numbers = Vec::with_capacity(alloc, names.len())?;
    for name in names {
        match column_number(columns, name.as_slice()) {
            Some(number) => numbers.push(number)?,
            None => return Ok(Vec::new(alloc)),
        }
    }
    Ok(numbers)
}

// The place of the column, where there is one name alone.
pub(crate) fn one_column(columns: &[Column], names: &[Bytes]) -> Option<ColumnNo>
    ensures { result ≡ one_column columns.now names.now }
{
    match names {
        [name] => column_number(columns, name.as_slice()),
        _ => None,
    }
}
