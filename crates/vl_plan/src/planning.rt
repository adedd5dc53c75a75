ghost use Rattle.std.specs.Prelude.{◌≡◌, ◌≤◌, [], length, IfOk, IfErr};
ghost use Rattle.vl_model.specs.Refusals.{IsFirst, is_keyspace, refusals};
ghost use Rattle.vl_values.specs.declared.cause.Cause.TheVariants.{OutOfMemory};
ghost use Rattle.vl_sql.specs.declared.stmt.Stmt.TheVariants as stmts;
ghost use Rattle.vl_plan.specs.declared.plan.Plan.TheVariants as plans;
ghost use Rattle.vl_rules.specs.Order.{Checked};
ghost use Rattle.vl_plan.specs.Fits.{Fits};
ghost use Rattle.vl_plan.specs.Planned.{IsPlanned};

use crate::insert::insert;
use crate::plan::Plan;
use crate::select::select;
use crate::table::table_of;
use crate::update::{delete, update};
use std::alloc::Global;
use vl_catalog::Catalog;
use vl_sql::assignment::Assignment;
use vl_sql::order::Order;
use vl_sql::stmt::Stmt;
use vl_sql::table::TableName;
use vl_sql::test::Test;
use vl_sql::what::What;
use vl_values::bytes::Bytes;
use vl_values::cause::Cause;
use vl_values::row::Row;

fn planned_insert(
    alloc: Global,
    catalog: &Catalog,
    name: &TableName,
    names: &[Bytes],
    rows: &[Row],
) -> Result<Plan, Cause>
    requires checked { Checked catalog.now }
    ensures refused { IfErr result (λ cause. IsFirst cause (refusals catalog.now (stmts.Insert name.now names.now rows.now))) }
    ensures planned { IfOk result (λ plan. (refusals catalog.now (stmts.Insert name.now names.now rows.now) ≡ []) × IsPlanned catalog.now (stmts.Insert name.now names.now rows.now) plan) }
{
    let (number, table) = table_of(alloc, catalog, name)?;
    insert(alloc, catalog, number, table, names, rows)
}

fn planned_select(
    alloc: Global,
    catalog: &Catalog,
    what: &What,
    name: &TableName,
    tests: &[Test],
    orders: &[Order],
    limit: Option<u64>,
    locking: bool,
) -> Result<Plan, Cause>
    requires checked { Checked catalog.now }
    ensures refused { IfErr result (λ cause. IsFirst cause (refusals catalog.now (stmts.Select what.now name.now tests.now orders.now limit locking))) }
    ensures planned { IfOk result (λ plan. (refusals catalog.now (stmts.Select what.now name.now tests.now orders.now limit locking) ≡ []) × IsPlanned catalog.now (stmts.Select what.now name.now tests.now orders.now limit locking) plan) }
{
    let (number, table) = table_of(alloc, catalog, name)?;
    select(
        alloc, catalog, number, table, what, tests, orders, limit, locking,
    )
}

fn planned_update(
    alloc: Global,
    catalog: &Catalog,
    name: &TableName,
    assignments: &[Assignment],
    tests: &[Test],
) -> Result<Plan, Cause>
    requires checked { Checked catalog.now }
    ensures refused { IfErr result (λ cause. IsFirst cause (refusals catalog.now (stmts.Update name.now assignments.now tests.now))) }
    ensures planned { IfOk result (λ plan. (refusals catalog.now (stmts.Update name.now assignments.now tests.now) ≡ []) × IsPlanned catalog.now (stmts.Update name.now assignments.now tests.now) plan) }
{
    let (number, table) = table_of(alloc, catalog, name)?;
    update(alloc, catalog, number, table, assignments, tests)
}

fn planned_delete(
    alloc: Global,
    catalog: &Catalog,
    name: &TableName,
    tests: &[Test],
) -> Result<Plan, Cause>
    requires checked { Checked catalog.now }
    ensures refused { IfErr result (λ cause. IsFirst cause (refusals catalog.now (stmts.Delete name.now tests.now))) }
    ensures planned { IfOk result (λ plan. (refusals catalog.now (stmts.Delete name.now tests.now) ≡ []) × IsPlanned catalog.now (stmts.Delete name.now tests.now) plan) }
{
    let (number, table) = table_of(alloc, catalog, name)?;
    delete(alloc, catalog, number, table, tests)
}

fn is_keyspace(catalog: &Catalog, name: &[u8]) -> bool
    ensures { result ≡ is_keyspace catalog.now name.now }
{
    let keyspaces = catalog.keyspaces.as_slice();
    keyspaces
        .iter()
        .any(|keyspace| keyspace.name.as_slice() == name)
}

fn planned_use(alloc: Global, catalog: &Catalog, name: &Bytes) -> Result<Plan, Cause>
    ensures refused { IfErr result (λ cause. IsFirst cause (refusals catalog.now (stmts.Use name.now))) }
    ensures planned { IfOk result (λ plan. (refusals catalog.now (stmts.Use name.now) ≡ []) × IsPlanned catalog.now (stmts.Use name.now) plan) }
{
    let Ok(copy) = name.copy(alloc) else {
        return Err(Cause::OutOfMemory);
    };
    if is_keyspace(catalog, name.as_slice()) {
        return Ok(Plan::Use(copy));
    }
    Err(Cause::UnknownDatabase { name: copy })
}

fn planned_names(alloc: Global, charset: &Bytes) -> Result<Plan, Cause>
    ensures memory { IfErr result (λ cause. cause ≡ OutOfMemory) }
    ensures planned { IfOk result (λ plan. plan ≡ plans.SetNames charset.now) }
{
    match charset.copy(alloc) {
        Ok(charset) => Ok(Plan::SetNames(charset)),
        Err(_) => Err(Cause::OutOfMemory),
    }
}

fn plan_of(alloc: Global, catalog: &Catalog, stmt: &Stmt) -> Result<Plan, Cause>
    requires checked { Checked catalog.now }
    ensures refused { IfErr result (λ cause. IsFirst cause (refusals catalog.now stmt.now)) }
    ensures planned { IfOk result (λ plan. (refusals catalog.now stmt.now ≡ []) × IsPlanned catalog.now stmt.now plan) }
{
    match stmt {
        Stmt::Insert {
            table,
            columns,
            rows,
        } => { planned_insert(alloc, catalog, table, columns.as_slice(), rows.as_slice()) }
        Stmt::Select {
            what,
            table,
            tests,
            orders,
            limit,
            for_update,
        } => planned_select(
            alloc,
            catalog,
            what,
            table,
            tests.as_slice(),
            orders.as_slice(),
            *limit,
            *for_update,
        ),
        Stmt::Update {
            table,
            assignments,
            tests,
        } => planned_update(
            alloc,
            catalog,
            table,
            assignments.as_slice(),
            tests.as_slice(),
        ),
        Stmt::Delete { table, tests } => planned_delete(alloc, catalog, table, tests.as_slice()),
        Stmt::Begin | Stmt::StartTransaction => Ok(Plan::Begin),
        Stmt::Commit => Ok(Plan::Commit),
        Stmt::Rollback => Ok(Plan::Rollback),
        Stmt::SetAutocommit(on) => Ok(Plan::SetAutocommit(*on)),
        Stmt::SetNames(charset) => planned_names(alloc, charset),
        Stmt::Use(name) => planned_use(alloc, catalog, name),
        Stmt::ShowTables => Ok(Plan::ShowTables),
        Stmt::ShowDatabases => Ok(Plan::ShowDatabases),
        Stmt::ShowWarnings => Ok(Plan::ShowWarnings),
        Stmt::SelectVersionComment => Ok(Plan::SelectVersionComment),
        Stmt::SelectDatabase => Ok(Plan::SelectDatabase),
    }
}

/// The plan of a statement over a catalog that keeps its rules, or why it has none.
pub fn plan(alloc: Global, catalog: &Catalog, stmt: &Stmt) -> Result<Plan, Cause>
    requires checked { Checked catalog.now }
    // A refusal is the first of all, unless memory ran out.
    ensures refused { IfErr result (λ cause. IsFirst cause (refusals catalog.now stmt.now)) }
    // A plan comes where nothing refuses, and is that of the catalog and the statement.
    ensures planned { IfOk result (λ plan. (refusals catalog.now stmt.now ≡ []) × IsPlanned catalog.now stmt.now plan) }
    // Its table and columns exist, its values fit them, its route is one of its tests, and its rows and their
    // entries have places.
    ensures fits { IfOk result (Fits catalog.now) }
{
    plan_of(alloc, catalog, stmt)
}
