ghost use Rattle.std.specs.Prelude.{◌≡◌, ◌∷◌, [], ℕ, List, map, position, slice_get, option_and_then, unwrap_or, IfOk, IfErr, OnOk, Ok};
ghost use Rattle.std.specs.List.{flat_map};
ghost use Rattle.std.specs.Option.{option_copied};
ghost use Rattle.std.specs.Str.{bytes_eq};
ghost use Rattle.vl_values.specs.declared.cause.Cause.{Cause as ACause};
ghost use Rattle.vl_values.specs.declared.value.Value.{Value as AValue};
ghost use Rattle.vl_values.specs.declared.value.Value.TheVariants.{Null};
ghost use Rattle.vl_sql.specs.declared.table.TableName.{TableName as ATableName};
ghost use Rattle.vl_sql.specs.declared.stmt.Stmt.TheVariants as stmts;
ghost use Rattle.vl_model.specs.Columns.{row_stored};
ghost use Rattle.vl_model.specs.Refusals.{IsFirst, faults, refusals_in};
ghost use Rattle.vl_plan.specs.Planned.{planned_on, values_of};
ghost use Rattle.vl_plan.specs.Targets.{stored_by};

use crate::asks::asks_of;
use crate::columns::known;
use crate::counts::counted;
use crate::insert_plan::InsertPlan;
use crate::plan::Plan;
use crate::stored::stored;
use crate::target::Target;
use crate::unsupported::written;
use std::alloc::Global;
use vl_catalog::{Catalog, Column, Table};
use vl_values::TableNo;
use vl_values::bytes::Bytes;
use vl_values::cause::Cause;
use vl_values::items::Items;
use vl_values::row::Row;
use vl_values::value::Value;

fn position_of(names: &[Bytes], name: &[u8]) -> Option<usize>
    ensures { result ≡ position (λ n. bytes_eq n name.now) names.now }
{
    names.iter().position(|one| one.as_slice() == name)
}

fn target<'a>(
    catalog: &Catalog,
    table: &Table,
    number: usize,
    column: &'a Column,
    names: &[Bytes],
) -> Target<'a>
    ensures { (row : List AValue) → stored_by row result ∷ [] ≡ row_stored catalog.now table.now names.now row number (column.now ∷ []) }
{
    Target {
        column,
        asks: asks_of(catalog, table, number),
        position: position_of(names, column.name.as_slice()),
    }
}

// The table's columns, for the rows whose values are named so.
fn targets<'a>(
    alloc: Global,
    catalog: &Catalog,
    table: &'a Table,
    names: &[Bytes],
) -> Result<Vec<Target<'a>>, Cause>
    ensures memory { IfErr result (λ cause. (causes : List ACause) → IsFirst cause causes) }
    ensures targets { IfOk result (λ targets. (row : List AValue) → map (stored_by row) targets.items ≡ row_stored catalog.now table.now names.now row 0 table.now.columns) }
{
    let columns = table.columns.as_slice();
    let Ok(mut targets) = Vec::with_capacity(alloc, columns.len()) else {
        return Err(Cause::OutOfMemory);
    };
    for (number, column) in columns.iter().enumerate() {
        let target = target(catalog, table, number, column, names);
        let Ok(()) = targets.push(target) else {
            return Err(Cause::OutOfMemory);
        };
    }
    Ok(targets)
}

fn value_at(row: &Row, position: Option<usize>) -> Option<&Value>
    ensures { option_copied result ≡ option_and_then (slice_get row.now) position }
{
    match position {
        Some(position) => row.as_slice().get(position),
        None => None,
    }
}

// The value of a row that is stored in a column.
fn stored_in(alloc: Global, target: &Target<'_>, row: &Row) -> Result<Value, Cause>
    ensures refused { IfErr result (λ cause. IsFirst cause (faults (stored_by row.now target.now ∷ []))) }
    ensures value { IfOk result (λ value. stored_by row.now target.now ≡ Ok value) }
{
    match value_at(row, target.position) {
        Some(value) => stored(alloc, target.asks, target.column, value),
        None => stored(alloc, target.asks, target.column, &Value::Null),
    }
}

// A row as it is stored.
fn row_of(alloc: Global, targets: &[Target<'_>], row: &Row) -> Result<Row, Cause>
    ensures refused { IfErr result (λ cause. IsFirst cause (faults (map (stored_by row.now) targets.now))) }
    ensures row { IfOk result (λ values. map (stored_by row.now) targets.now ≡ map (λ value. Ok value) values) }
{
    let Ok(mut values) = Vec::with_capacity(alloc, targets.len()) else {
        return Err(Cause::OutOfMemory);
    };
    for target in targets {
        let value = stored_in(alloc, target, row)?;
        let Ok(()) = values.push(value) else {
            return Err(Cause::OutOfMemory);
        };
    }
    Ok(Row::from_vec(values))
}

fn rows_of(alloc: Global, targets: &[Target<'_>], rows: &[Row]) -> Result<Vec<Row>, Cause>
    ensures refused { IfErr result (λ cause. IsFirst cause (flat_map (λ row. faults (map (stored_by row) targets.now)) rows.now)) }
    ensures fit { OnOk result (flat_map (λ row. faults (map (stored_by row) targets.now)) rows.now ≡ []) }
    ensures rows { IfOk result (λ all. all.items ≡ map (λ row. values_of (map (stored_by row) targets.now)) rows.now) }
{
    let Ok(mut all) = Vec::with_capacity(alloc, rows.len()) else {
        return Err(Cause::OutOfMemory);
    };
    for row in rows {
        let stored = row_of(alloc, targets, row)?;
        let Ok(()) = all.push(stored) else {
            return Err(Cause::OutOfMemory);
        };
    }
    Ok(all)
}

// The rows as the table stores them.
fn stored_rows(
    alloc: Global,
    catalog: &Catalog,
    table: &Table,
    names: &[Bytes],
    rows: &[Row],
) -> Result<Vec<Row>, Cause>
    ensures refused { IfErr result (λ cause. IsFirst cause (flat_map (λ row. faults (row_stored catalog.now table.now names.now row 0 table.now.columns)) rows.now)) }
    ensures fit { OnOk result (flat_map (λ row. faults (row_stored catalog.now table.now names.now row 0 table.now.columns)) rows.now ≡ []) }
    ensures rows { IfOk result (λ all. all.items ≡ map (λ row. values_of (row_stored catalog.now table.now names.now row 0 table.now.columns)) rows.now) }
{
    let targets = targets(alloc, catalog, table, names)?;
    rows_of(alloc, targets.as_slice(), rows)
}

/// The plan of an INSERT into the table of this number.
pub(crate) fn insert(
    alloc: Global,
    catalog: &Catalog,
    number: TableNo,
    table: &Table,
    names: &[Bytes],
    rows: &[Row],
) -> Result<Plan, Cause>
    ensures refused { IfErr result (λ cause. (t : ATableName) → IsFirst cause (refusals_in catalog.now number table.now (stmts.Insert t names.now rows.now))) }
    ensures planned { IfOk result (λ plan. (t : ATableName) → (refusals_in catalog.now number table.now (stmts.Insert t names.now rows.now) ≡ []) × (plan ≡ planned_on catalog.now number table.now (stmts.Insert t names.now rows.now))) }
{
    known(alloc, table, names)?;
    counted(names, rows)?;
    let all = stored_rows(alloc, catalog, table, names, rows)?;
    written(catalog, number)?;
    Ok(Plan::Insert(InsertPlan {
        table: number,
        rows: Items::from_vec(all),
    }))
}
