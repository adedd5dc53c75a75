ghost use Rattle.std.specs.Prelude.{◌≡◌, ◌≤◌, [], length, IfOk, IfErr};
ghost use Rattle.vl_sql.specs.declared.table.TableName.{TableName as ATableName};
ghost use Rattle.vl_sql.specs.declared.stmt.Stmt.TheVariants as stmts;
ghost use Rattle.vl_model.specs.Refusals.{IsFirst, refusals_in};
ghost use Rattle.vl_plan.specs.Planned.{planned_on};

use crate::columns::known_set;
use crate::delete_plan::DeletePlan;
use crate::matched::{Matched, matched_by};
use crate::plan::Plan;
use crate::settings::settings_of;
use crate::test_of::conditions;
use crate::unsupported::{keys_kept, written};
use crate::update_plan::UpdatePlan;
use std::alloc::Global;
use vl_catalog::{Catalog, Table};
use vl_sql::assignment::Assignment;
use vl_sql::test::Test as Written;
use vl_values::TableNo;
use vl_values::cause::Cause;
use vl_values::items::Items;

/// The plan of an UPDATE of the table of this number.
pub(crate) fn update(
    alloc: Global,
    catalog: &Catalog,
    number: TableNo,
    table: &Table,
    assignments: &[Assignment],
    tests: &[Written],
) -> Result<Plan, Cause>
    requires { length table.now.columns ≤ 64 }
    ensures refused { IfErr result (λ cause. (t : ATableName) → IsFirst cause (refusals_in catalog.now number table.now (stmts.Update t assignments.now tests.now))) }
    ensures planned { IfOk result (λ plan. (t : ATableName) → (refusals_in catalog.now number table.now (stmts.Update t assignments.now tests.now) ≡ []) × (plan ≡ planned_on catalog.now number table.now (stmts.Update t assignments.now tests.now))) }
{
    known_set(alloc, table, assignments)?;
    let conditions = conditions(alloc, table, tests)?;
    let settings = settings_of(alloc, catalog, table, assignments)?;
    let matched = matched_by(alloc, catalog, number, table, conditions)?;
    written(catalog, number)?;
    keys_kept(table, assignments)?;
    let Matched { pred, route } = matched;
    Ok(Plan::Update(UpdatePlan {
        settings: Items::from_vec(settings),
        pred,
        route,
    }))
}

/// The plan of a DELETE from the table of this number.
pub(crate) fn delete(
    alloc: Global,
    catalog: &Catalog,
    number: TableNo,
    table: &Table,
    tests: &[Written],
) -> Result<Plan, Cause>
    requires { length table.now.columns ≤ 64 }
    ensures refused { IfErr result (λ cause. (t : ATableName) → IsFirst cause (refusals_in catalog.now number table.now (stmts.Delete t tests.now))) }
    ensures planned { IfOk result (λ plan. (t : ATableName) → (refusals_in catalog.now number table.now (stmts.Delete t tests.now) ≡ []) × (plan ≡ planned_on catalog.now number table.now (stmts.Delete t tests.now))) }
{
    let conditions = conditions(alloc, table, tests)?;
    let matched = matched_by(alloc, catalog, number, table, conditions)?;
    written(catalog, number)?;
    let Matched { pred, route } = matched;
    Ok(Plan::Delete(DeletePlan { pred, route }))
}
