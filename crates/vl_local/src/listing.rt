ghost use Rattle.std.specs.Prelude.{◌≡◌, ℕ, List, Option, IfOk, IfSome, OnOk, map};
ghost use Rattle.std.specs.Option.{is_some};
ghost use Rattle.vl_values.specs.declared.warning.Warning.{Warning as Told};
ghost use Rattle.vl_catalog.specs.declared.catalog.Catalog.{Catalog as Served};
ghost use Rattle.vl_catalog.specs.declared.keyspace.Keyspace.{Keyspace};
ghost use Rattle.vl_sql.specs.declared.stmt.Stmt.TheVariants.{SelectDatabase, SelectVersionComment, ShowDatabases, ShowTables, ShowWarnings};
ghost use Rattle.vl_run.specs.Local.{AreByBytes, IsLocal, chosen_value, is_chosen, tables_in, warning_row};
ghost use Rattle.vl_local.specs.Locals.{is_local};

use crate::result_set::{ResultSet, number_column, of_texts, one, text_column};
use std::alloc::{AllocError, Global};
use vl_catalog::{Catalog, Table};
use vl_sql::stmt::Stmt;
use vl_values::bytes::Bytes;
use vl_values::row::Row;
use vl_values::value::Value;
use vl_values::warning::Warning;

// Whether a table is of the chosen keyspace; without one each is.
fn is_chosen(catalog: &Catalog, chosen: &Option<Bytes>, table: &Table) -> bool
    ensures { result ≡ is_chosen catalog.now chosen.now table.now }
{
    let Some(name) = chosen else {
        return true;
    };
    match catalog.keyspaces.as_slice().get(table.keyspace) {
        Some(keyspace) => keyspace.name.as_slice() == name.as_slice(),
        None => false,
    }
}

fn tables_in(
    alloc: Global,
    catalog: &Catalog,
    chosen: &Option<Bytes>,
) -> Result<Vec<Bytes>, AllocError>
    ensures { IfOk result (λ names. names.items ≡ tables_in catalog.now chosen.now) }
{
    let mut names = Vec::new(alloc);
    for table in catalog.tables.as_slice() {
        if is_chosen(catalog, chosen, table) {
            names.push(table.name.copy(alloc)?)?;
        }
    }
    Ok(names)
}

fn sort_names(names: &mut Vec<Bytes>) -> Result<(), AllocError>
    ensures { OnOk result (AreByBytes names.old.items names.new.items) }
{
    names.sort_by(|a, b| a.as_slice().cmp(b.as_slice()))
}

// The tables of the chosen keyspace, or of all, by their names.
fn show_tables(
    alloc: Global,
    catalog: &Catalog,
    chosen: &Option<Bytes>,
) -> Result<ResultSet, AllocError>
    ensures { IfOk result (λ set. (warnings : List Told) → IsLocal catalog.now chosen.now warnings ShowTables set.columns.items set.rows.items) }
{
    let mut names = tables_in(alloc, catalog, chosen)?;
    sort_names(&mut names)?;
    of_texts(alloc, b"Tables", names)
}

fn keyspaces_of(alloc: Global, catalog: &Catalog) -> Result<Vec<Bytes>, AllocError>
    ensures { IfOk result (λ names. names.items ≡ map (λ (keyspace : Keyspace). keyspace.name) catalog.now.keyspaces) }
{
    let keyspaces = catalog.keyspaces.as_slice();
    let mut names = Vec::with_capacity(alloc, keyspaces.len())?;
    for keyspace in keyspaces {
        names.push(keyspace.name.copy(alloc)?)?;
    }
    Ok(names)
}

// The keyspaces, in the order of the catalog.
fn show_databases(alloc: Global, catalog: &Catalog) -> Result<ResultSet, AllocError>
    ensures { IfOk result (λ set. (chosen : Option (List ℕ)) (warnings : List Told) → IsLocal catalog.now chosen warnings ShowDatabases set.columns.items set.rows.items) }
{
    of_texts(alloc, b"Database", keyspaces_of(alloc, catalog)?)
}

fn warning_row(alloc: Global, warning: &Warning) -> Result<Row, AllocError>
    ensures { IfOk result (λ row. row ≡ warning_row warning.now) }
{
    let mut values = Vec::with_capacity(alloc, 3)?;
    values.push(Value::Bytes(Bytes::from_slice(alloc, b"Warning")?))?;
    values.push(Value::Uint(warning.code() as u64))?;
    let text = warning.text();
    values.push(Value::Bytes(Bytes::from_slice(alloc, text.as_slice())?))?;
    Ok(Row::from_vec(values))
}

fn warning_rows(alloc: Global, warnings: &[Warning]) -> Result<Vec<Row>, AllocError>
    ensures { IfOk result (λ rows. rows.items ≡ map warning_row warnings.now) }
{
    let mut rows = Vec::with_capacity(alloc, warnings.len())?;
    for warning in warnings {
        rows.push(warning_row(alloc, warning)?)?;
    }
    Ok(rows)
}

// The warnings of the statement before.
fn show_warnings(alloc: Global, warnings: &[Warning]) -> Result<ResultSet, AllocError>
    ensures { IfOk result (λ set. (catalog : Served) (chosen : Option (List ℕ)) → IsLocal catalog chosen warnings.now ShowWarnings set.columns.items set.rows.items) }
{
    let mut columns = Vec::with_capacity(alloc, 3)?;
    columns.push(text_column(alloc, b"Level")?)?;
    columns.push(number_column(alloc, b"Code")?)?;
    columns.push(text_column(alloc, b"Message")?)?;
    let rows = warning_rows(alloc, warnings)?;
    Ok(ResultSet { columns, rows })
}

fn select_version_comment(alloc: Global) -> Result<ResultSet, AllocError>
    ensures { IfOk result (λ set. (catalog : Served) (chosen : Option (List ℕ)) (warnings : List Told) → IsLocal catalog chosen warnings SelectVersionComment set.columns.items set.rows.items) }
{
    let texts = one(alloc, Bytes::from_slice(alloc, b"vtgate_cl")?)?;
    of_texts(alloc, b"@@version_comment", texts)
}

fn chosen_value(alloc: Global, chosen: &Option<Bytes>) -> Result<Value, AllocError>
    ensures { IfOk result (λ value. value ≡ chosen_value chosen.now) }
{
    match chosen {
        Some(name) => Ok(Value::Bytes(name.copy(alloc)?)),
        None => Ok(Value::Null),
    }
}

// The chosen keyspace, NULL without one.
fn select_database(alloc: Global, chosen: &Option<Bytes>) -> Result<ResultSet, AllocError>
    ensures { IfOk result (λ set. (catalog : Served) (warnings : List Told) → IsLocal catalog chosen.now warnings SelectDatabase set.columns.items set.rows.items) }
{
    let columns = one(alloc, text_column(alloc, b"DATABASE()")?)?;
    let row = Row::from_vec(one(alloc, chosen_value(alloc, chosen)?)?);
    let rows = one(alloc, row)?;
    Ok(ResultSet { columns, rows })
}

/// The result set of a statement that reads no table, of a session with this chosen keyspace and these warnings;
/// None for a statement that has none or reads a table. `AllocError` where memory was refused.
pub fn local_result(
    alloc: Global,
    catalog: &Catalog,
    chosen: &Option<Bytes>,
    warnings: &[Warning],
    stmt: &Stmt,
) -> Result<Option<ResultSet>, AllocError>
    ensures result { IfOk result (λ found. IfSome found (λ set. IsLocal catalog.now chosen.now warnings.now stmt.now set.columns.items set.rows.items)) }
    ensures answered { IfOk result (λ found. is_some found ≡ is_local stmt.now) }
{
    match stmt {
        Stmt::ShowTables => Ok(Some(show_tables(alloc, catalog, chosen)?)),
        Stmt::ShowDatabases => Ok(Some(show_databases(alloc, catalog)?)),
        Stmt::ShowWarnings => Ok(Some(show_warnings(alloc, warnings)?)),
        Stmt::SelectVersionComment => Ok(Some(select_version_comment(alloc)?)),
        Stmt::SelectDatabase => Ok(Some(select_database(alloc, chosen)?)),
        Stmt::Insert { .. }
        | Stmt::Select { .. }
        | Stmt::Update { .. }
        | Stmt::Delete { .. }
        | Stmt::Begin
        | Stmt::StartTransaction
        | Stmt::Commit
        | Stmt::Rollback
        | Stmt::SetAutocommit(_)
        | Stmt::SetNames(_)
        | Stmt::Use(_) => Ok(None),
    }
}
