ghost use Rattle.std.specs.Prelude.{◌≡◌, ◌+◌, ◌-◌, ◌^◌, ◌<◌, ◌≤◌, ℕ, List, [], ◌∷◌, ◌++◌, length, map, All, IfOk, OnOk};
ghost use Rattle.my_reply.specs.Reply.{HasShortTexts, IsShortRow, IsShortValue};
ghost use Rattle.my_reply.specs.ResultSet.{charset, column_payload, eof_payload, fixed_fields, framed, framed_from, greatest_length, name_in_table, next_number, row_payload, type_code};

use crate::text_fields::{push_text, push_value};
use my_packet::header_of;
use std::alloc::AllocError;
use vl_values::col_type::ColType;
use vl_values::reply_column::ReplyColumn;
use vl_values::row::Row;
use vl_values::value::Value;

/// The room of a header, which is filled once the payload behind it has its length.
const NO_HEADER: [u8; 4] = [0; 4];

/// Fills the header that stands at this place: the payload is all that stands behind it.
fn close(buf: &mut Vec<u8>, start: usize, seq: u8)
    requires room { start + 4 ≤ length buf.old.items }
    requires short { length buf.old.items - start < 2 ^ 24 }
    ensures { (front header payload : List ℕ) → buf.old.items ≡ front ++ (header ++ payload) → length front ≡ start → length header ≡ 4
        → buf.new.items ≡ front ++ framed payload seq }
{
    let header = header_of(buf.len() - start - 4, seq);
    buf[start..start + 4].copy_from_slice(&header);
}

fn charset(ty: ColType) -> u16
    ensures { result ≡ charset ty }
{
    match ty {
        ColType::VarChar(_) => 45,
        _ => 63,
    }
}

fn greatest_length(ty: ColType) -> u32
    ensures { result ≡ greatest_length ty }
{
    match ty {
        ColType::VarChar(n) => u32::from(n),
        ColType::VarBinary(n) => u32::from(n),
        _ => 20,
    }
}

fn type_code(ty: ColType) -> u8
    ensures { result ≡ type_code ty }
{
    match ty {
        ColType::VarChar(_) => 253,
        ColType::VarBinary(_) => 253,
        _ => 8,
    }
}

fn push_fixed(buf: &mut Vec<u8>, ty: ColType, flags: u16) -> Result<(), AllocError>
    ensures { OnOk result (buf.new.items ≡ buf.old.items ++ fixed_fields ty flags) }
{
    buf.extend_from_slice(&[0x0c])?;
    buf.extend_from_slice(&charset(ty).to_le_bytes())?;
    buf.extend_from_slice(&greatest_length(ty).to_le_bytes())?;
    buf.extend_from_slice(&[type_code(ty)])?;
    buf.extend_from_slice(&flags.to_le_bytes())?;
    buf.extend_from_slice(&[0, 0, 0])
}

/// The name of a column in its table; one of no table has none.
fn name_in_table(column: &ReplyColumn) -> &[u8]
    ensures { result.now ≡ name_in_table column.now }
{
    if column.table.len() == 0 {
        &[]
    } else {
        column.name.as_slice()
    }
}

fn push_definition(buf: &mut Vec<u8>, column: &ReplyColumn) -> Result<(), AllocError>
    requires { HasShortTexts column.now }
    ensures { OnOk result (buf.new.items ≡ buf.old.items ++ column_payload column.now) }
{
    push_text(buf, b"def")?;
    push_text(buf, column.schema.as_slice())?;
    push_text(buf, column.table.as_slice())?;
    push_text(buf, column.table.as_slice())?;
    push_text(buf, column.name.as_slice())?;
    push_text(buf, name_in_table(column))?;
    push_fixed(buf, column.ty, column.flags)
}

/// Adds the packet of a column's definition.
fn push_column(buf: &mut Vec<u8>, column: &ReplyColumn, seq: u8) -> Result<(), AllocError>
    requires { HasShortTexts column.now }
    ensures { OnOk result (buf.new.items ≡ buf.old.items ++ framed (column_payload column.now) seq) }
{
    let start = buf.len();
    buf.extend_from_slice(&NO_HEADER)?;
    push_definition(buf, column)?;
    close(buf, start, seq);
    Ok(())
}

fn push_values(buf: &mut Vec<u8>, row: &[Value]) -> Result<(), AllocError>
    requires { All IsShortValue row.now }
    ensures { OnOk result (buf.new.items ≡ buf.old.items ++ row_payload row.now) }
{
    for value in row {
        push_value(buf, value)?;
    }
    Ok(())
}

/// Adds the packet of a row.
fn push_row(buf: &mut Vec<u8>, row: &[Value], seq: u8) -> Result<(), AllocError>
    requires { IsShortRow row.now }
    ensures { OnOk result (buf.new.items ≡ buf.old.items ++ framed (row_payload row.now) seq) }
{
    let start = buf.len();
    buf.extend_from_slice(&NO_HEADER)?;
    push_values(buf, row)?;
    close(buf, start, seq);
    Ok(())
}

/// Adds the packets of the definitions of columns, numbered from this number on, and gives the number of
/// the packet behind them.
pub(crate) fn push_columns(
    buf: &mut Vec<u8>,
    columns: &[ReplyColumn],
    first: u8,
) -> Result<u8, AllocError>
    requires { All HasShortTexts columns.now }
    ensures { IfOk result (λ seq. (rest : List (List ℕ)) → buf.new.items ++ framed_from seq rest ≡ buf.old.items ++ framed_from first (map column_payload columns.now ++ rest)) }
{
    let mut seq = first;
    for column in columns {
        push_column(buf, column, seq)?;
        seq = seq.wrapping_add(1);
    }
    Ok(seq)
}

/// The same of rows.
pub(crate) fn push_rows(buf: &mut Vec<u8>, rows: &[Row], first: u8) -> Result<u8, AllocError>
    requires { All IsShortRow rows.now }
    ensures { IfOk result (λ seq. (rest : List (List ℕ)) → buf.new.items ++ framed_from seq rest ≡ buf.old.items ++ framed_from first (map row_payload rows.now ++ rest)) }
{
    let mut seq = first;
    for row in rows {
        push_row(buf, row.as_slice(), seq)?;
        seq = seq.wrapping_add(1);
    }
    Ok(seq)
}

/// Adds the packet of an EOF with this status and no warnings.
pub(crate) fn push_eof(buf: &mut Vec<u8>, status: u16, seq: u8) -> Result<(), AllocError>
    ensures { OnOk result (buf.new.items ≡ buf.old.items ++ framed (eof_payload status) seq) }
{
    buf.extend_from_slice(&header_of(5, seq))?;
    buf.extend_from_slice(&[0xfe, 0, 0])?;
    buf.extend_from_slice(&status.to_le_bytes())
}
