ghost use Rattle.std.specs.Prelude.{◌≡◌, ◌≤◌, ◌∷◌, [], length, map, slice_get, IfOk, IfErr, OnOk, Ok, Some};
ghost use Rattle.std.specs.List.{flat_map};
ghost use Rattle.vl_values.specs.declared.cause.Cause.{Cause as ACause};
ghost use Rattle.vl_catalog.specs.Build.{column_number};
ghost use Rattle.vl_catalog.specs.declared.catalog.Catalog.{Catalog as ACatalog};
ghost use Rattle.vl_model.specs.Columns.{column_tested, compared, literals, test_compared};
ghost use Rattle.vl_model.specs.Refusals.{IsFirst, faults, unknown_among};
ghost use Rattle.vl_plan.specs.Conditions.{IsConditionOf, compared_by, compared_in, resolved, test_resolved, planned_test};
ghost use Rattle.vl_plan.specs.Planned.{in_order, test_of, values_of};

use crate::asks::{Asks, asks_of};
use crate::columns::number_of;
use crate::condition::Condition;
use crate::in_order::in_order;
use crate::stored::compared;
use std::alloc::Global;
use std::slice;
use vl_catalog::{Catalog, Column, Table};
use vl_sql::test::Test as Written;
use vl_values::bytes::Bytes;
use vl_values::cause::Cause;
use vl_values::test::Test;
use vl_values::value::Value;

fn column_tested(test: &Written) -> &Bytes
    ensures { result.now ≡ column_tested test.now }
{
    match test {
        Written::Equals(column, _) => column,
        Written::Among(column, _) => column,
    }
}

fn literals(test: &Written) -> &[Value]
    ensures { result.now ≡ literals test.now }
{
    match test {
        Written::Equals(_, value) => slice::from_ref(value),
        Written::Among(_, values) => values.as_slice(),
    }
}

fn condition<'a>(alloc: Global, table: &'a Table, test: &'a Written) -> Result<Condition<'a>, Cause>
    requires { length table.now.columns ≤ 64 }
    ensures unknown { IfErr result (λ cause. IsFirst cause (unknown_among table.now.columns (column_tested test.now ∷ []))) }
    ensures known { OnOk result (unknown_among table.now.columns (column_tested test.now ∷ []) ≡ []) }
    ensures condition { IfOk result (IsConditionOf table.now.columns test.now) }
{
    let columns = table.columns.as_slice();
    let number = number_of(alloc, table, column_tested(test))?;
    Ok(Condition {
        number: number as u16,
        column: &columns[number],
        literals: literals(test),
    })
}

/// The tests with their columns.
pub(crate) fn conditions<'a>(
    alloc: Global,
    table: &'a Table,
    tests: &'a [Written],
) -> Result<Vec<Condition<'a>>, Cause>
    requires { length table.now.columns ≤ 64 }
    ensures unknown { IfErr result (λ cause. IsFirst cause (unknown_among table.now.columns (map column_tested tests.now))) }
    ensures known { OnOk result (unknown_among table.now.columns (map column_tested tests.now) ≡ []) }
    ensures conditions { IfOk result (λ conditions. (catalog : ACatalog) → map (resolved catalog table.now) conditions.items ≡ map (test_resolved catalog table.now) tests.now) }
{
    let Ok(mut conditions) = Vec::with_capacity(alloc, tests.len()) else {
        return Err(Cause::OutOfMemory);
    };
    for test in tests {
        let condition = condition(alloc, table, test)?;
        let Ok(()) = conditions.push(condition) else {
            return Err(Cause::OutOfMemory);
        };
    }
    Ok(conditions)
}

// The values that the column is tested against, as they are written.
fn all_compared(
    alloc: Global,
    asks: Asks,
    column: &Column,
    literals: &[Value],
) -> Result<Vec<Value>, Cause>
    ensures refused { IfErr result (λ cause. IsFirst cause (faults (map (compared_by asks.numbered column.now) literals.now))) }
    ensures values { IfOk result (λ values. map (compared_by asks.numbered column.now) literals.now ≡ map (λ value. Ok value) values.items) }
{
    let Ok(mut values) = Vec::with_capacity(alloc, literals.len()) else {
        return Err(Cause::OutOfMemory);
    };
    for literal in literals {
        let value = compared(alloc, asks, column, literal)?;
        let Ok(()) = values.push(value) else {
            return Err(Cause::OutOfMemory);
        };
    }
    Ok(values)
}

fn test_of(
    alloc: Global,
    catalog: &Catalog,
    table: &Table,
    condition: &Condition<'_>,
) -> Result<Test, Cause>
    ensures refused { IfErr result (λ cause. IsFirst cause (faults (compared_in catalog.now table.now condition.now))) }
    ensures fit { OnOk result (faults (compared_in catalog.now table.now condition.now) ≡ []) }
    ensures test { IfOk result (λ test. test ≡ planned_test (resolved catalog.now table.now condition.now)) }
{
    let asks = asks_of(catalog, table, condition.number as usize);
    let values = all_compared(alloc, asks, condition.column, condition.literals)?;
    Ok(Test {
        column: condition.number,
        values: in_order(values),
    })
}

/// The tests with the values that their columns are tested against.
pub(crate) fn tests_of(
    alloc: Global,
    catalog: &Catalog,
    table: &Table,
    conditions: &[Condition<'_>],
) -> Result<Vec<Test>, Cause>
    ensures refused { IfErr result (λ cause. IsFirst cause (flat_map (λ condition. faults (compared_in catalog.now table.now condition)) conditions.now)) }
    ensures fit { OnOk result (flat_map (λ condition. faults (compared_in catalog.now table.now condition)) conditions.now ≡ []) }
    ensures tests { IfOk result (λ tests. tests.items ≡ map (λ condition. planned_test (resolved catalog.now table.now condition)) conditions.now) }
{
    let Ok(mut tests) = Vec::with_capacity(alloc, conditions.len()) else {
        return Err(Cause::OutOfMemory);
    };
    for condition in conditions {
        let test = test_of(alloc, catalog, table, condition)?;
        let Ok(()) = tests.push(test) else {
            return Err(Cause::OutOfMemory);
        };
    }
    Ok(tests)
}
