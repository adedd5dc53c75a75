use std::alloc::{AllocError, Global};
use vl_catalog::{Catalog, Column, ColumnVindex, Keyspace, Lookup, Primary, Table, Vindex};
use vl_values::bytes::Bytes;
use vl_values::col_type::ColType;
use vl_values::items::Items;
use vl_values::try_copy::TryCopy;

// The names of a column vindex's columns, and of its vindex.
pub(crate) type Listed = (&'static [&'static str], &'static str);

// One change of a table.
#[derive(Clone, Copy)]
pub(crate) enum TableChange {
    Name(&'static str),
    OffSchema,
    OffVschema,
    Key(&'static [usize]),
    NoPrimary,
    By(usize, Vindex),
    Type(usize, ColType),
    Rename(usize, &'static str),
    // As many columns more, of this type, which may be NULL or not.
    More(usize, ColType, bool),
    Vindexes(&'static [Listed], &'static [u32]),
}

// One change of a lookup.
#[derive(Clone, Copy)]
pub(crate) enum LookupChange {
    Unique(bool),
    Column(Option<usize>),
    WriteOnly,
    Owner(Option<u32>, &'static str),
    Served(Option<u32>),
    From(&'static [usize]),
    To(Option<usize>),
}

#[derive(Clone, Copy)]
pub(crate) enum Change {
    Table(usize, TableChange),
    Lookup(usize, LookupChange),
    Unsharded,
    Keyspace(&'static str),
}

pub(crate) fn name(alloc: Global, text: &str) -> Result<Bytes, AllocError> {
    Bytes::from_slice(alloc, text.as_bytes())
}

pub(crate) fn names(alloc: Global, texts: &[&str]) -> Result<Items<Bytes>, AllocError> {
    let mut names = Vec::new(alloc);
    for text in texts {
        names.push(name(alloc, text)?)?;
    }
    Ok(Items::from_vec(names))
}

pub(crate) fn column_vindexes(
    alloc: Global,
    listed: &[Listed],
) -> Result<Items<ColumnVindex>, AllocError> {
    let mut vindexes = Vec::new(alloc);
    for (columns, vindex) in listed {
        vindexes.push(ColumnVindex {
            columns: names(alloc, columns)?,
            vindex: name(alloc, vindex)?,
        })?;
    }
    Ok(Items::from_vec(vindexes))
}

fn numbers(alloc: Global, numbers: &[usize]) -> Result<Items<usize>, AllocError> {
    Ok(Items::from_vec(Vec::from_slice(alloc, numbers)?))
}

// The columns, of which the one at this place has another name or type.
fn columns_with(
    alloc: Global,
    columns: &[Column],
    place: usize,
    name: Option<&str>,
    ty: Option<ColType>,
) -> Result<Items<Column>, AllocError> {
    let mut changed = Vec::new(alloc);
    for (number, column) in columns.iter().enumerate() {
        let mut copy = column.try_copy(alloc)?;
        if number == place {
            if let Some(name) = name {
                copy.name = self::name(alloc, name)?;
            }
            if let Some(ty) = ty {
                copy.ty = ty;
            }
        }
        changed.push(copy)?;
    }
    Ok(Items::from_vec(changed))
}

fn more_columns(
    alloc: Global,
    columns: &[Column],
    count: usize,
    ty: ColType,
    nullable: bool,
) -> Result<Items<Column>, AllocError> {
    let mut more = columns_with(alloc, columns, 0, None, None)?.into_vec();
    for _ in 0..count {
        let name = name(alloc, "more")?;
        more.push(Column { name, ty, nullable })?;
    }
    Ok(Items::from_vec(more))
}

fn changed_table(
    alloc: Global,
    mut table: Table,
    change: TableChange,
) -> Result<Table, AllocError> {
    match change {
        TableChange::Name(text) => table.name = name(alloc, text)?,
        TableChange::OffSchema => table.in_schema = false,
        TableChange::OffVschema => table.in_vschema = false,
        TableChange::Key(key) => table.pk = numbers(alloc, key)?,
        TableChange::NoPrimary => table.primary = None,
        TableChange::By(column, vindex) => table.primary = Some(Primary { column, vindex }),
        TableChange::Type(place, ty) => {
            table.columns = columns_with(alloc, table.columns.as_slice(), place, None, Some(ty))?
        }
        TableChange::Rename(place, name) => {
            table.columns = columns_with(alloc, table.columns.as_slice(), place, Some(name), None)?
        }
        TableChange::More(count, ty, nullable) => {
            table.columns = more_columns(alloc, table.columns.as_slice(), count, ty, nullable)?
        }
        TableChange::Vindexes(listed, lookups) => {
            table.column_vindexes = column_vindexes(alloc, listed)?;
            table.lookups = Items::from_vec(Vec::from_slice(alloc, lookups)?);
        }
    }
    Ok(table)
}

fn changed_lookup(
    alloc: Global,
    mut lookup: Lookup,
    change: LookupChange,
) -> Result<Lookup, AllocError> {
    match change {
        LookupChange::Unique(unique) => lookup.unique = unique,
        LookupChange::Column(column) => lookup.column = column,
        LookupChange::WriteOnly => lookup.write_only = true,
        LookupChange::Owner(owner, text) => {
            lookup.owner = owner;
            lookup.owner_name = name(alloc, text)?;
        }
        LookupChange::Served(table) => lookup.table = table,
        LookupChange::From(from) => lookup.from = numbers(alloc, from)?,
        LookupChange::To(to) => lookup.to = to,
    }
    Ok(lookup)
}

fn change_table(
    alloc: Global,
    tables: Items<Table>,
    place: usize,
    change: TableChange,
) -> Result<Items<Table>, AllocError> {
    let mut changed = Vec::new(alloc);
    for (number, table) in tables.into_vec().into_iter().enumerate() {
        let table = if number == place {
            changed_table(alloc, table, change)?
        } else {
            table
        };
        changed.push(table)?;
    }
    Ok(Items::from_vec(changed))
}

fn change_lookup(
    alloc: Global,
    lookups: Items<Lookup>,
    place: usize,
    change: LookupChange,
) -> Result<Items<Lookup>, AllocError> {
    let mut changed = Vec::new(alloc);
    for (number, lookup) in lookups.into_vec().into_iter().enumerate() {
        let lookup = if number == place {
            changed_lookup(alloc, lookup, change)?
        } else {
            lookup
        };
        changed.push(lookup)?;
    }
    Ok(Items::from_vec(changed))
}

fn one_keyspace(alloc: Global, text: &str, sharded: bool) -> Result<Items<Keyspace>, AllocError> {
    let name = name(alloc, text)?;
    Ok(Items::from_vec(vec![in alloc; Keyspace { name, sharded }]?))
}

fn changed(alloc: Global, mut catalog: Catalog, change: Change) -> Result<Catalog, AllocError> {
    match change {
        Change::Table(place, change) => {
            catalog.tables = change_table(alloc, catalog.tables, place, change)?
        }
        Change::Lookup(place, change) => {
            catalog.lookups = change_lookup(alloc, catalog.lookups, place, change)?
        }
        Change::Unsharded => catalog.keyspaces = one_keyspace(alloc, "commerce", false)?,
        Change::Keyspace(text) => catalog.keyspaces = one_keyspace(alloc, text, true)?,
    }
    Ok(catalog)
}

// The built-in catalog after some changes.
pub(crate) fn built_in_but(alloc: Global, changes: &[Change]) -> Result<Catalog, AllocError> {
    let mut catalog = Catalog::a(alloc)?;
    for change in changes {
        catalog = changed(alloc, catalog, *change)?;
    }
    Ok(catalog)
}
