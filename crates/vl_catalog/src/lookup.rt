use crate::copies::{name_of, numbers_of};
use std::alloc::{AllocError, Global};
use vl_values::bytes::Bytes;
use vl_values::items::Items;
use vl_values::try_copy::TryCopy;
use vl_values::{ColumnNo, TableNo};

/// A lookup of a catalog: its table maps the values of the owner's column to keyspace ids. What its
/// definition names and doesn't exist has no number.
#[derive(Drop)]
pub struct Lookup {
    pub name: Bytes,
    /// The place in the catalog of the keyspace whose VSchema has it.
    pub keyspace: usize,
    pub unique: bool,
    /// The one column by which the first table that lists it does, as a column of that table.
    pub column: Option<ColumnNo>,
    pub ignore_nulls: bool,
    pub write_only: bool,
    pub owner: Option<TableNo>,
    pub owner_name: Bytes,
    pub table: Option<TableNo>,
    /// The name of the table's keyspace, where the definition gives it.
    pub table_keyspace: Option<Bytes>,
    pub table_name: Bytes,
    /// The table's columns for the values; none where one of them doesn't exist.
    pub from: Items<ColumnNo>,
    /// The table's column for the keyspace id.
    pub to: Option<ColumnNo>,
}

impl TryCopy for Lookup {
    fn try_copy(&self, alloc: Global) -> Result<Lookup, AllocError> {
        Ok(Lookup {
            name: self.name.copy(alloc)?,
            keyspace: self.keyspace,
            unique: self.unique,
            column: self.column,
            ignore_nulls: self.ignore_nulls,
            write_only: self.write_only,
            owner: self.owner,
            owner_name: self.owner_name.copy(alloc)?,
            table: self.table,
            table_keyspace: name_of(alloc, &self.table_keyspace)?,
            table_name: self.table_name.copy(alloc)?,
            from: numbers_of(alloc, self.from.as_slice())?,
            to: self.to,
        })
    }
}
