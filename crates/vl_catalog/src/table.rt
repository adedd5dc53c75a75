ghost use Rattle.std.specs.Prelude.{◌≡◌, IfOk, slice_index_or};
ghost use Rattle.vl_values.specs.declared.value.Value.TheVariants.{Null};
ghost use Rattle.vl_catalog.specs.Fitting.{key_of, key_values};

use crate::column::Column;
use crate::column_vindex::ColumnVindex;
use crate::copies::numbers_of;
use crate::primary::Primary;
use crate::{LookupNo, TableNo};
use std::alloc::{AllocError, Global};
use vl_values::ColumnNo;
use vl_values::bytes::Bytes;
use vl_values::items::Items;
use vl_values::key::Key;
use vl_values::row::Row;
use vl_values::try_copy::TryCopy;
use vl_values::value::Value;

/// A table of a catalog. Its columns are numbered by their places, counted from 0.
#[derive(Drop)]
pub struct Table {
    pub name: Bytes,
    /// The place of its keyspace in the catalog.
    pub keyspace: usize,
    /// Whether the schema file has it.
    pub in_schema: bool,
    /// Whether the VSchema has it.
    pub in_vschema: bool,
    pub columns: Items<Column>,
    /// The primary key's columns, in its order; none where the table has no primary key, or where
    /// that names a column that doesn't exist.
    pub pk: Items<ColumnNo>,
    pub primary: Option<Primary>,
    /// As the VSchema has them.
    pub column_vindexes: Items<ColumnVindex>,
    /// The lookups that it lists, in the order of its column vindexes.
    pub lookups: Items<LookupNo>,
}

impl TryCopy for Table {
    fn try_copy(&self, alloc: Global) -> Result<Table, AllocError> {
        Ok(Table {
            name: self.name.copy(alloc)?,
            keyspace: self.keyspace,
            in_schema: self.in_schema,
            in_vschema: self.in_vschema,
            columns: self.columns.try_copy(alloc)?,
            pk: numbers_of(alloc, self.pk.as_slice())?,
            primary: self.primary,
            column_vindexes: self.column_vindexes.try_copy(alloc)?,
            lookups: numbers_of(alloc, self.lookups.as_slice())?,
        })
    }
}

// The row's value in a column; NULL past its end.
fn value_in(alloc: Global, row: &[Value], column: ColumnNo) -> Result<Value, AllocError>
    ensures { IfOk result (λ value. value ≡ slice_index_or row.now column Null) }
{
    match row.get(column) {
        Some(value) => value.copy(alloc),
        None => Ok(Value::Null),
    }
}

fn key_values(alloc: Global, table: &Table, row: &[Value]) -> Result<Vec<Value>, AllocError>
    ensures { IfOk result (λ values. values.items ≡ key_values table.now row.now) }
{
    let columns = table.pk.as_slice();
    let mut values = Vec::with_capacity(alloc, columns.len())?;
    for column in columns {
        values.push(value_in(alloc, row, *column)?)?;
    }
    Ok(values)
}

impl Table {
    /// The key of a row of this table, which has this number in its catalog.
    pub fn key_of(&self, alloc: Global, number: TableNo, row: &[Value]) -> Result<Key, AllocError>
        ensures { IfOk result (λ key. key ≡ key_of number self.now row.now) }
    {
        let values = key_values(alloc, self, row)?;
        Ok(Key {
            table: number,
            pk: Row::from_vec(values),
        })
    }
}
