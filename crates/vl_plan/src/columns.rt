ghost use Rattle.std.specs.Prelude.{◌≡◌, ◌∷◌, [], map, IfOk, IfErr, OnOk, Some};
ghost use Rattle.vl_values.specs.declared.cause.Cause.TheVariants.{UnknownColumn};
ghost use Rattle.vl_catalog.specs.Build.{column_number};
ghost use Rattle.vl_model.specs.Refusals.{IsFirst, unknown_among};
ghost use Rattle.vl_plan.specs.Planned.{number_in};

use std::alloc::Global;
use vl_catalog::{Column, Table};
use vl_sql::assignment::Assignment;
use vl_values::ColumnNo;
use vl_values::bytes::Bytes;
use vl_values::cause::Cause;

fn column_number(columns: &[Column], name: &[u8]) -> Option<ColumnNo>
    ensures { result ≡ column_number columns.now name.now }
{
    columns
        .iter()
        .position(|column| column.name.as_slice() == name)
}

fn unknown_column(alloc: Global, name: &Bytes) -> Cause
    ensures { IsFirst result (UnknownColumn name.now ∷ []) }
{
    match name.copy(alloc) {
        Ok(name) => Cause::UnknownColumn { name },
        Err(_) => Cause::OutOfMemory,
    }
}

/// The place of the column of this name.
pub(crate) fn number_of(alloc: Global, table: &Table, name: &Bytes) -> Result<ColumnNo, Cause>
    ensures unknown { IfErr result (λ cause. IsFirst cause (unknown_among table.now.columns (name.now ∷ []))) }
    ensures known { OnOk result (unknown_among table.now.columns (name.now ∷ []) ≡ []) }
    ensures number { IfOk result (λ n. column_number table.now.columns name.now ≡ Some n) }
{
    match column_number(table.columns.as_slice(), name.as_slice()) {
        Some(number) => Ok(number),
        None => Err(unknown_column(alloc, name)),
    }
}

/// Looks whether each of these columns exists.
pub(crate) fn known(alloc: Global, table: &Table, names: &[Bytes]) -> Result<(), Cause>
    ensures unknown { IfErr result (λ cause. IsFirst cause (unknown_among table.now.columns names.now)) }
    ensures known { OnOk result (unknown_among table.now.columns names.now ≡ []) }
{
    for name in names {
        number_of(alloc, table, name)?;
    }
    Ok(())
}

/// Looks whether each column that SET names exists.
pub(crate) fn known_set(
    alloc: Global,
    table: &Table,
    assignments: &[Assignment],
) -> Result<(), Cause>
    ensures unknown { IfErr result (λ cause. IsFirst cause (unknown_among table.now.columns (map (λ assignment. assignment.column) assignments.now))) }
    ensures known { OnOk result (unknown_among table.now.columns (map (λ assignment. assignment.column) assignments.now) ≡ []) }
{
    for assignment in assignments {
        number_of(alloc, table, &assignment.column)?;
    }
    Ok(())
}

/// The places of the columns of these names.
pub(crate) fn numbers_of(
    alloc: Global,
    table: &Table,
    names: &[Bytes],
) -> Result<Vec<ColumnNo>, Cause>
    ensures unknown { IfErr result (λ cause. IsFirst cause (unknown_among table.now.columns names.now)) }
    ensures known { OnOk result (unknown_among table.now.columns names.now ≡ []) }
    ensures numbers { IfOk result (λ numbers. numbers.items ≡ map (number_in table.now.columns) names.now) }
{
    let Ok(mut numbers) = Vec::with_capacity(alloc, names.len()) else {
        return Err(Cause::OutOfMemory);
    };
    for name in names {
        let number = number_of(alloc, table, name)?;
        let Ok(()) = numbers.push(number) else {
            return Err(Cause::OutOfMemory);
        };
    }
    Ok(numbers)
}
