ghost use Rattle.std.specs.Prelude.{◌≡◌, IfOk};
ghost use Rattle.vl_text.specs.KeyText.{column_type, key_text, key_type, key_type_in};

use crate::pieces::push_separator;
use crate::values::push_shown;
use std::alloc::{AllocError, Global};
use vl_catalog::{Catalog, Column, Table, TableNo};
use vl_values::bytes::Bytes;
use vl_values::col_type::ColType;
use vl_values::key::Key;

// The type of a column that doesn't exist, whose bytes aren't known to be a text.
const UNKNOWN_TYPE: ColType = ColType::VarBinary(0);

fn column_type(columns: &[Column], column: usize) -> ColType
    ensures { result ≡ column_type columns.now column }
{
    match columns.get(column) {
        Some(column) => column.ty,
        None => UNKNOWN_TYPE,
    }
}

// The type of the table's key column n.
fn key_type_in(table: &Table, n: usize) -> ColType
    ensures { result ≡ key_type_in n table.now }
{
    match table.pk.as_slice().get(n) {
        Some(column) => column_type(table.columns.as_slice(), *column),
        None => UNKNOWN_TYPE,
    }
}

fn key_type(catalog: &Catalog, table: TableNo, n: usize) -> ColType
    ensures { result ≡ key_type catalog.now table n }
{
    match catalog.tables.as_slice().get(table as usize) {
        Some(table) => key_type_in(table, n),
        None => UNKNOWN_TYPE,
    }
}

/// The values of a key, each as `shown` prints it by the type of its column, with `, ` between each
/// two. A value whose column the catalog doesn't have is shown as one of VARBINARY.
pub fn key_text(alloc: Global, catalog: &Catalog, key: &Key) -> Result<Bytes, AllocError>
    ensures { IfOk result (λ text. text ≡ key_text catalog.now key.now) }
{
    let values = key.pk.as_slice();
    let mut text = Vec::new(alloc);
    for (n, value) in values.iter().enumerate() {
        push_separator(&mut text, b", ", n)?;
        push_shown(&mut text, key_type(catalog, key.table, n), value)?;
    }
    Ok(Bytes::from_vec(text))
}
