ghost use Rattle.std.specs.Prelude.{◌≡◌, [], List, map, IfOk, IfErr, OnOk};
ghost use Rattle.std.specs.List.{flat_map};
ghost use Rattle.vl_sql.specs.declared.test.Test.{Test as AWritten};
ghost use Rattle.vl_model.specs.Columns.{test_compared};
ghost use Rattle.vl_model.specs.Refusals.{IsFirst, faults};
ghost use Rattle.vl_plan.specs.Conditions.{resolved, test_resolved};
ghost use Rattle.vl_plan.specs.Planned.{pred_of, route_to};

use crate::condition::Condition;
use crate::route::route_of;
use crate::test_of::tests_of;
use std::alloc::Global;
use vl_catalog::{Catalog, Table};
use vl_model::route::Route;
use vl_values::TableNo;
use vl_values::cause::Cause;
use vl_values::pred::Pred;
use vl_values::tests::Tests;

/// The rows that match, and the route to them.
#[derive(Drop)]
pub(crate) struct Matched {
    pub pred: Pred,
    pub route: Route,
}

/// What the conditions of a statement match in the table of this number.
pub(crate) fn matched_by(
    alloc: Global,
    catalog: &Catalog,
    number: TableNo,
    table: &Table,
    conditions: Vec<Condition<'_>>,
) -> Result<Matched, Cause>
    ensures refused { IfErr result (λ cause. (tests : List AWritten) → map (resolved catalog.now table.now) conditions.entry.items ≡ map (test_resolved catalog.now table.now) tests → IsFirst cause (flat_map (λ test. faults (test_compared catalog.now table.now test)) tests)) }
    ensures fit { OnOk result ((tests : List AWritten) → map (resolved catalog.now table.now) conditions.entry.items ≡ map (test_resolved catalog.now table.now) tests → flat_map (λ test. faults (test_compared catalog.now table.now test)) tests ≡ []) }
    ensures pred { IfOk result (λ matched. (tests : List AWritten) → map (resolved catalog.now table.now) conditions.entry.items ≡ map (test_resolved catalog.now table.now) tests → matched.pred ≡ pred_of catalog.now number table.now tests) }
    ensures route { IfOk result (λ matched. (tests : List AWritten) → map (resolved catalog.now table.now) conditions.entry.items ≡ map (test_resolved catalog.now table.now) tests → matched.route ≡ route_to catalog.now table.now tests) }
{
    let tests = tests_of(alloc, catalog, table, conditions.as_slice())?;
    let Ok(route) = route_of(alloc, catalog, table, tests.as_slice()) else {
        return Err(Cause::OutOfMemory);
    };
    let pred = Pred {
        table: number,
        tests: Tests::from_vec(tests),
    };
    Ok(Matched { pred, route })
}
