ghost use Rattle.vl_rules.specs.Order.{Checked};

use crate::plan::Plan;
use crate::planning::plan;
use std::alloc::Global;
use std::process::Abort;
use std::test::Fail;
use vl_catalog::Catalog;
use vl_model::route::Route;
use vl_sql::parse;
use vl_values::row::Row;
use vl_values::value::{Value, text_of};

// NULL, a signed number, an unsigned one behind a `+`, a text in quotes.
fn value_text(alloc: Global, value: &Value) -> Result<String, Fail> {
    let bytes = text_of(alloc, value)?;
    let text = String::from_utf8(bytes.into_vec()).ok().ok_or("a text")?;
    match value {
        Value::Null => Ok(String::from_str(alloc, "NULL")?),
        Value::Int(_) => Ok(text),
        Value::Uint(_) => Ok(format!(in alloc; "+{text}")?),
        Value::Bytes(_) => Ok(format!(in alloc; "'{text}'")?),
    }
}

fn values_text(alloc: Global, head: &str, row: &Row) -> Result<String, Fail> {
    let mut all = String::from_str(alloc, head)?;
    for value in row.as_slice() {
        let text = value_text(alloc, value)?;
        all.push_str(" ")?;
        all.push_str(text.as_str())?;
    }
    Ok(all)
}

fn rows_text(alloc: Global, rows: &[Row]) -> Result<String, Fail> {
    let mut all = String::from_str(alloc, "rows:")?;
    for row in rows {
        let text = values_text(alloc, "", row)?;
        all.push_str(text.as_str())?;
        all.push_str(";")?;
    }
    Ok(all)
}

fn route_text(alloc: Global, route: &Route) -> Result<String, Fail> {
    match route {
        Route::Primary(values) => values_text(alloc, "primary", values),
        Route::Lookup(number, values) => {
            let head = format!(in alloc; "lookup {number}")?;
            values_text(alloc, head.as_str(), values)
        }
        Route::All => Ok(String::from_str(alloc, "all")?),
    }
}

fn plan_text(alloc: Global, plan: &Plan) -> Result<String, Fail> {
    match plan {
        Plan::Insert(insert) => rows_text(alloc, insert.rows.as_slice()),
        Plan::Select(select) => route_text(alloc, &select.route),
        Plan::Update(update) => route_text(alloc, &update.route),
        Plan::Delete(delete) => route_text(alloc, &delete.route),
        _ => Ok(format!(in alloc; "{plan:?}")?),
    }
}

// What a statement is planned as, or why it is refused.
fn outcome(alloc: Global, catalog: &Catalog, text: &str) -> Result<String, Fail>
    requires { Checked catalog.now }
{
    let Ok(stmt) = parse(alloc, text.as_bytes()) else {
        return Err("a statement".into());
    };
    match plan(alloc, catalog, &stmt) {
        Ok(plan) => plan_text(alloc, &plan),
        Err(cause) => {
            let code = cause.code();
            let text = cause.text();
            let text = str::from_utf8(text.as_slice()).ok().ok_or("a text")?;
            Ok(format!(in alloc; "{code} {text}")?)
        }
    }
}

fn is_planned(
    rt: &impl Abort,
    alloc: Global,
    catalog: &Catalog,
    text: &str,
    want: &str,
) -> Result<(), Fail>
    requires { Checked catalog.now }
{
    let got = outcome(alloc, catalog, text)?;
    assert_eq!(rt; got.as_str(), want, "{text}");
    Ok(())
}

/// Each statement has its plan, or its refusal.
pub fn are_planned(
    rt: &impl Abort,
    alloc: Global,
    catalog: &Catalog,
    table: &[(&str, &str)],
) -> Result<(), Fail>
    requires { Checked catalog.now }
{
    for (text, want) in table {
        is_planned(rt, alloc, catalog, text, want)?;
    }
    Ok(())
}
