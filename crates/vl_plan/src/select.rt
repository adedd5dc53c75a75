ghost use Rattle.std.specs.Prelude.{◌≡◌, ◌≤◌, [], length, map, IfOk, IfErr, OnOk};
ghost use Rattle.vl_sql.specs.declared.table.TableName.{TableName as ATableName};
ghost use Rattle.vl_sql.specs.declared.stmt.Stmt.TheVariants as stmts;
ghost use Rattle.vl_model.specs.Columns.{names_selected};
ghost use Rattle.vl_model.specs.Refusals.{IsFirst, refusals_in, unknown_among};
ghost use Rattle.vl_plan.specs.Planned.{is_descending, planned_on, projection_of, sort_of};

use crate::columns::{number_of, numbers_of};
use crate::matched::{Matched, matched_by};
use crate::plan::Plan;
use crate::projection::Projection;
use crate::select_plan::SelectPlan;
use crate::sort::Sort;
use crate::test_of::conditions;
use crate::unsupported::{counted_alone, locked};
use std::alloc::Global;
use vl_catalog::{Catalog, Table};
use vl_sql::order::{Direction, Order};
use vl_sql::test::Test as Written;
use vl_sql::what::What;
use vl_values::TableNo;
use vl_values::cause::Cause;
use vl_values::items::Items;

/// What a SELECT gives, with the numbers of the columns that it names.
fn projection(alloc: Global, table: &Table, what: &What) -> Result<Projection, Cause>
    ensures unknown { IfErr result (λ cause. IsFirst cause (unknown_among table.now.columns (names_selected what.now))) }
    ensures known { OnOk result (unknown_among table.now.columns (names_selected what.now) ≡ []) }
    ensures projection { IfOk result (λ projection. projection ≡ projection_of table.now what.now) }
{
    match what {
        What::All => Ok(Projection::All),
        What::Count => Ok(Projection::Count),
        What::Columns(names) => {
            match numbers_of(alloc, table, names.as_slice()) {
                Ok(numbers) => Ok(Projection::Columns(Items::from_vec(numbers))),
                Err(cause) => Err(cause),
            }
        }
    }
}

fn is_descending(direction: Option<Direction>) -> bool
    ensures { result ≡ is_descending direction }
{
    match direction {
        Some(Direction::Descending) => true,
        Some(Direction::Ascending) | None => false,
    }
}

fn sorts_of(alloc: Global, table: &Table, orders: &[Order]) -> Result<Vec<Sort>, Cause>
    ensures unknown { IfErr result (λ cause. IsFirst cause (unknown_among table.now.columns (map (λ order. order.column) orders.now))) }
    ensures known { OnOk result (unknown_among table.now.columns (map (λ order. order.column) orders.now) ≡ []) }
    ensures sorts { IfOk result (λ sorts. sorts.items ≡ map (sort_of table.now) orders.now) }
{
    let Ok(mut sorts) = Vec::with_capacity(alloc, orders.len()) else {
        return Err(Cause::OutOfMemory);
    };
    for order in orders {
        let column = number_of(alloc, table, &order.column)?;
        let sort = Sort {
            column,
            descending: is_descending(order.direction),
        };
        let Ok(()) = sorts.push(sort) else {
            return Err(Cause::OutOfMemory);
        };
    }
    Ok(sorts)
}

/// The plan of a SELECT from the table of this number.
pub(crate) fn select(
    alloc: Global,
    catalog: &Catalog,
    number: TableNo,
    table: &Table,
    what: &What,
    tests: &[Written],
    orders: &[Order],
    limit: Option<u64>,
    locking: bool,
) -> Result<Plan, Cause>
    requires { length table.now.columns ≤ 64 }
    ensures refused { IfErr result (λ cause. (t : ATableName) → IsFirst cause (refusals_in catalog.now number table.now (stmts.Select what.now t tests.now orders.now limit locking))) }
    ensures planned { IfOk result (λ plan. (t : ATableName) → (refusals_in catalog.now number table.now (stmts.Select what.now t tests.now orders.now limit locking) ≡ []) × (plan ≡ planned_on catalog.now number table.now (stmts.Select what.now t tests.now orders.now limit locking))) }
{
    let projection = projection(alloc, table, what)?;
    let conditions = conditions(alloc, table, tests)?;
    let sorts = sorts_of(alloc, table, orders)?;
    let matched = matched_by(alloc, catalog, number, table, conditions)?;
    locked(catalog, number, locking)?;
    counted_alone(what, orders, limit, locking)?;
    let Matched { pred, route } = matched;
    Ok(Plan::Select(SelectPlan {
        what: projection,
        pred,
        route,
        sorts: Items::from_vec(sorts),
        limit,
        locking,
    }))
}
