ghost use Rattle.std.specs.Prelude.{◌≡◌, ℕ, List, ◌++◌, ◌∷◌, [], ◌||◌, IfOk, OnOk, map};
ghost use Rattle.std.specs.List.{list_any, flat_map};
ghost use Rattle.std.specs.Str.{bytes_eq};
ghost use Rattle.vl_ddl.specs.Meaning as meaning;
ghost use Rattle.vl_ddl.specs.Seen.{Holds};

use crate::column_options::ColumnOptions;
use crate::column_part::ColumnPart;
use crate::columns::name_set;
use crate::declared_type::DeclaredType;
use crate::number_type::NumberType;
use crate::part::Part;
use crate::statement::Statement;
use crate::text_type::TextType;
use std::alloc::{AllocError, Global};
use std::collections::HashSet;
use vl_catalog::{Column, TableDef};
use vl_values::bytes::Bytes;
use vl_values::col_type::ColType;
use vl_values::items::Items;

fn type_of(declared: DeclaredType) -> ColType
    ensures { result ≡ meaning.type_of declared }
{
    match declared {
        DeclaredType::Number(NumberType::BigInt, _, unsigned) => {
            if unsigned {
                return ColType::BigUint;
            }
            ColType::BigInt
        }
        DeclaredType::Number(NumberType::Int, _, unsigned) => {
            if unsigned {
                return ColType::Uint32;
            }
            ColType::Int
        }
        DeclaredType::Number(NumberType::Other, _, _) => ColType::BigInt,
        DeclaredType::Text(TextType::VarChar, length) => ColType::VarChar(length),
        DeclaredType::Text(TextType::VarBinary, length) => ColType::VarBinary(length),
    }
}

// The names of the primary key that a part gives.
fn add_key(alloc: Global, key: &mut Vec<Bytes>, part: &Part) -> Result<(), AllocError>
    ensures { OnOk result (key.new.items ≡ key.old.items ++ meaning.key_in part.now) }
{
    match part {
        Part::Column(column) => {
            if column.options.primary {
                key.push(column.name.copy(alloc)?)?;
            }
            Ok(())
        }
        Part::PrimaryKey(names) => add_names(alloc, key, names.as_slice()),
        Part::Index(_, _) | Part::OtherKey => Ok(()),
    }
}

fn add_names(alloc: Global, key: &mut Vec<Bytes>, names: &[Bytes]) -> Result<(), AllocError>
    ensures { OnOk result (key.new.items ≡ key.old.items ++ names.now) }
{
    for name in names {
        key.push(name.copy(alloc)?)?;
    }
    Ok(())
}

// The names of the primary key's columns, in its order.
fn key_of(alloc: Global, parts: &[Part]) -> Result<Vec<Bytes>, AllocError>
    ensures { IfOk result (λ key. key.items ≡ meaning.key_of parts.now) }
{
    let mut key = Vec::new(alloc);
    for part in parts {
        add_key(alloc, &mut key, part)?;
    }
    Ok(key)
}

fn is_among(names: &HashSet<&[u8]>, name: &[u8]) -> bool
    ensures { (known : List (List ℕ)) → Holds names.now known → result ≡ list_any (bytes_eq name.now) known }
{
    names.contains(name)
}

fn may_be_null(nullable: Option<bool>) -> bool
    ensures { result ≡ meaning.may_be_null nullable }
{
    match nullable {
        None => true,
        Some(nullable) => nullable,
    }
}

fn column_of(alloc: Global, key: &HashSet<&[u8]>, column: &ColumnPart) -> Result<Column, AllocError>
    ensures { IfOk result (λ c. (names : List (List ℕ)) → Holds key.now names → c ≡ meaning.column_of names column.now) }
{
    let in_key = is_among(key, column.name.as_slice());
    let nullable = may_be_null(column.options.nullable) && !in_key;
    Ok(Column {
        name: column.name.copy(alloc)?,
        ty: type_of(column.ty),
        nullable,
    })
}

// The column that a part is, if it is one.
fn add_column(
    alloc: Global,
    columns: &mut Vec<Column>,
    key: &HashSet<&[u8]>,
    part: &Part,
) -> Result<(), AllocError>
    ensures { OnOk result ((names : List (List ℕ)) → Holds key.now names → columns.new.items ≡ columns.old.items ++ meaning.column_in names part.now) }
{
    match part {
        Part::Column(column) => {
            columns.push(column_of(alloc, key, column)?)?;
            Ok(())
        }
        Part::PrimaryKey(_) | Part::Index(_, _) | Part::OtherKey => Ok(()),
    }
}

fn columns_within(
    alloc: Global,
    key: &HashSet<&[u8]>,
    parts: &[Part],
) -> Result<Vec<Column>, AllocError>
    ensures { IfOk result (λ columns. (names : List (List ℕ)) → Holds key.now names → columns.items ≡ flat_map (meaning.column_in names) parts.now) }
{
    let mut columns = Vec::new(alloc);
    for part in parts {
        add_column(alloc, &mut columns, key, part)?;
    }
    Ok(columns)
}

fn columns_of(alloc: Global, key: &[Bytes], parts: &[Part]) -> Result<Vec<Column>, AllocError>
    ensures { IfOk result (λ columns. columns.items ≡ flat_map (meaning.column_in key.now) parts.now) }
{
    let names = name_set(alloc, key)?;
    columns_within(alloc, &names, parts)
}

// TABLE/NAME
fn path(alloc: Global, table: &[u8], name: &[u8]) -> Result<Bytes, AllocError>
    ensures { IfOk result (λ p. p ≡ meaning.path table.now name.now) }
{
    let mut path = Vec::from_slice(alloc, table)?;
    path.push(b'/')?;
    path.extend_from_slice(name)?;
    Ok(Bytes::from_vec(path))
}

fn is_noted(options: &ColumnOptions) -> bool
    ensures { result ≡ meaning.is_noted options.now }
{
    options.auto_increment || options.charset || options.collation
}

// What is ignored of a part.
fn add_ignored(
    alloc: Global,
    ignored: &mut Vec<Bytes>,
    table: &[u8],
    part: &Part,
) -> Result<(), AllocError>
    ensures { OnOk result (ignored.new.items ≡ ignored.old.items ++ meaning.ignored_in table.now part.now) }
{
    match part {
        Part::Column(column) => {
            if is_noted(&column.options) {
                ignored.push(path(alloc, table, column.name.as_slice())?)?;
            }
            Ok(())
        }
        Part::Index(name, _) => {
            ignored.push(path(alloc, table, name.as_slice())?)?;
            Ok(())
        }
        Part::PrimaryKey(_) | Part::OtherKey => Ok(()),
    }
}

fn ignored_parts(alloc: Global, table: &[u8], parts: &[Part]) -> Result<Vec<Bytes>, AllocError>
    ensures { IfOk result (λ ignored. ignored.items ≡ flat_map (meaning.ignored_in table.now) parts.now) }
{
    let mut ignored = Vec::new(alloc);
    for part in parts {
        add_ignored(alloc, &mut ignored, table, part)?;
    }
    Ok(ignored)
}

fn ignored_of(alloc: Global, statement: &Statement) -> Result<Vec<Bytes>, AllocError>
    ensures { IfOk result (λ ignored. ignored.items ≡ meaning.ignored_of statement.now) }
{
    let mut ignored = ignored_parts(alloc, statement.name.as_slice(), statement.parts.as_slice())?;
    if statement.options {
        ignored.push(statement.name.copy(alloc)?)?;
    }
    Ok(ignored)
}

#[tactic(auto, unfolding(crate::specs::Meaning::defined))]
fn defined(alloc: Global, statement: &Statement) -> Result<TableDef, AllocError>
    ensures { IfOk result (λ table. table ≡ meaning.defined statement.now) }
{
    let parts = statement.parts.as_slice();
    let key = key_of(alloc, parts)?;
    let columns = columns_of(alloc, key.as_slice(), parts)?;
    let ignored = ignored_of(alloc, statement)?;
    Ok(TableDef {
        name: statement.name.copy(alloc)?,
        columns: Items::from_vec(columns),
        key: Items::from_vec(key),
        ignored: Items::from_vec(ignored),
    })
}

/// The tables that statements define.
pub fn tables_of(alloc: Global, statements: &[Statement]) -> Result<Vec<TableDef>, AllocError>
    ensures { IfOk result (λ tables. tables.items ≡ map meaning.defined statements.now) }
{
    let mut tables = Vec::with_capacity(alloc, statements.len())?;
    for statement in statements {
        tables.push(defined(alloc, statement)?)?;
    }
    Ok(tables)
}
