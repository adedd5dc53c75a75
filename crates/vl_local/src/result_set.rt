ghost use Rattle.std.specs.Prelude.{◌≡◌, [], ◌∷◌, IfOk, map};
ghost use Rattle.vl_values.specs.declared.value.Value.TheVariants as ValueOf;
ghost use Rattle.vl_run.specs.Local.{number_column, text_column, text_rows};

use std::alloc::{AllocError, Global};
use vl_values::bytes::Bytes;
use vl_values::col_type::ColType;
use vl_values::reply_column::ReplyColumn;
use vl_values::row::Row;
use vl_values::value::Value;

/// A result set: its columns, and its rows.
#[derive(Drop)]
pub struct ResultSet {
    pub columns: Vec<ReplyColumn>,
    pub rows: Vec<Row>,
}

fn column(alloc: Global, name: &[u8], ty: ColType, flags: u16) -> Result<ReplyColumn, AllocError>
    ensures { IfOk result (λ column. column ≡ record { schema = []; table = []; name = name.now; ty = ty; flags = flags }) }
{
    Ok(ReplyColumn {
        schema: Bytes::from_vec(Vec::new(alloc)),
        table: Bytes::from_vec(Vec::new(alloc)),
        name: Bytes::from_slice(alloc, name)?,
        ty,
        flags,
    })
}

/// A column of texts that no table has.
pub fn text_column(alloc: Global, name: &[u8]) -> Result<ReplyColumn, AllocError>
    ensures { IfOk result (λ column. column ≡ text_column name.now) }
{
    column(alloc, name, ColType::VarChar(255), 0)
}

/// A column of numbers that no table has, none of them NULL.
pub fn number_column(alloc: Global, name: &[u8]) -> Result<ReplyColumn, AllocError>
    ensures { IfOk result (λ column. column ≡ number_column name.now) }
{
    column(alloc, name, ColType::BigUint, 33)
}

/// A list of this one item.
pub fn one<T: Drop>(alloc: Global, item: T) -> Result<Vec<T>, AllocError>
    ensures { IfOk result (λ items. items.items ≡ item ∷ []) }
{
    let mut items = Vec::with_capacity(alloc, 1)?;
    items.push(item)?;
    Ok(items)
}

fn text_row(alloc: Global, text: Bytes) -> Result<Row, AllocError>
    ensures { IfOk result (λ row. row ≡ ValueOf.Bytes text ∷ []) }
{
    Ok(Row::from_vec(one(alloc, Value::Bytes(text))?))
}

/// A row for each text, which are moved.
pub fn text_rows(alloc: Global, texts: Vec<Bytes>) -> Result<Vec<Row>, AllocError>
    ensures { IfOk result (λ rows. rows.items ≡ text_rows texts.items) }
{
    let mut rows = Vec::with_capacity(alloc, texts.len())?;
    for text in texts {
        rows.push(text_row(alloc, text)?)?;
    }
    Ok(rows)
}

/// The result set of one column of texts.
pub fn of_texts(alloc: Global, name: &[u8], texts: Vec<Bytes>) -> Result<ResultSet, AllocError>
    ensures columns { IfOk result (λ set. set.columns.items ≡ text_column name.now ∷ []) }
    ensures rows { IfOk result (λ set. set.rows.items ≡ text_rows texts.items) }
{
    let columns = one(alloc, text_column(alloc, name)?)?;
    let rows = text_rows(alloc, texts)?;
    Ok(ResultSet { columns, rows })
}
