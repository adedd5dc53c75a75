ghost use Rattle.std.specs.Prelude.{◌≡◌, ℕ, IfOk, length};
ghost use Rattle.my_reply.specs.GivesInPackets.{GivesIn, viewed};
ghost use Rattle.my_reply.specs.Reading.{Gives};
ghost use Rattle.my_reply.specs.ResultSetReading.{byte_at, column_at, column_packet_at, columns_at, decimals_at, eof_at, eof_packet_at, fixed_at, four_at, header_at, is_eof, mark_at, numbered_at, row_at, rows_at, said_at, text_at, two_texts_at, value_at, values_at};

use crate::definition::Definition;
use crate::fixed_fields::FixedFields;
use crate::reading::{bytes_of, ended, number_of, two_of};
use crate::said::Said;
use crate::wire::{Fault, PacketFault};
use crate::wire_column::WireColumn;
use std::alloc::{AllocError, Global};
use vl_values::bytes::Bytes;
use vl_values::items::Items;

/// The length that a header announces and the packet's number, and the bytes behind the header.
#[tactic(auto, unfolding(crate::specs::ResultSetReading::header_at))]
pub(crate) fn heading_of(bytes: &[u8]) -> Result<((u32, u8), &[u8]), Fault>
    ensures { Gives (λ x. ((x.0.0, x.0.1), x.1.now)) result (header_at bytes.now) }
{
    match bytes {
        [low, middle, high, number, rest @ ..] => {
            let len = u32::from_le_bytes([*low, *middle, *high, 0]);
            Ok(((len, *number), rest))
        }
        _ => Err(Fault { left: 0 }),
    }
}

/// The payload of the packet that has this number, and the bytes behind it.
pub(crate) fn numbered_of(due: u8, bytes: &[u8]) -> Result<(&[u8], &[u8]), Fault>
    ensures { Gives (λ x. (x.0.now, x.1.now)) result (numbered_at due bytes.now) }
{
    let ((len, number), rest) = heading_of(bytes)?;
    if number != due {
        return Err(Fault {
            left: rest.len() + 1,
        });
    }
    bytes_of(u64::from(len), rest)
}

fn byte_of(bytes: &[u8]) -> Result<(u8, &[u8]), Fault>
    ensures { Gives (λ x. (x.0, x.1.now)) result (byte_at bytes.now) }
{
    match bytes {
        [] => Err(Fault { left: 0 }),
        [byte, rest @ ..] => Ok((*byte, rest)),
    }
}

fn mark_of(mark: u8, bytes: &[u8]) -> Result<&[u8], Fault>
    ensures { Gives (λ x. x.now) result (mark_at mark bytes.now) }
{
    match bytes {
        [] => Err(Fault { left: 0 }),
        [byte, rest @ ..] if *byte == mark => Ok(rest),
        [_, ..] => Err(Fault { left: bytes.len() }),
    }
}

fn four_of(bytes: &[u8]) -> Result<(u32, &[u8]), Fault>
    ensures { Gives (λ x. (x.0, x.1.now)) result (four_at bytes.now) }
{
    let (front, rest) = bytes_of(4, bytes)?;
    Ok((
        u32::from_le_bytes([front[0], front[1], front[2], front[3]]),
        rest,
    ))
}

fn text_of(bytes: &[u8]) -> Result<(&[u8], &[u8]), Fault>
    ensures { Gives (λ x. (x.0.now, x.1.now)) result (text_at bytes.now) }
{
    let (len, rest) = number_of(bytes)?;
    bytes_of(len, rest)
}

fn two_texts_of(bytes: &[u8]) -> Result<((&[u8], &[u8]), &[u8]), Fault>
    ensures { Gives (λ x. ((x.0.0.now, x.0.1.now), x.1.now)) result (two_texts_at bytes.now) }
{
    let (first, rest) = text_of(bytes)?;
    let (second, rest) = text_of(rest)?;
    Ok(((first, second), rest))
}

#[tactic(auto, unfolding(crate::specs::ResultSetReading::fixed_at))]
fn fixed_of(bytes: &[u8]) -> Result<(FixedFields, &[u8]), Fault>
    ensures { Gives (λ x. (x.0, x.1.now)) result (fixed_at bytes.now) }
{
    let rest = mark_of(12, bytes)?;
    let (charset, rest) = two_of(rest)?;
    let (greatest_length, rest) = four_of(rest)?;
    let (code, rest) = byte_of(rest)?;
    let (flags, rest) = two_of(rest)?;
    let fixed = FixedFields {
        charset,
        greatest_length,
        code,
        flags,
    };
    Ok((fixed, rest))
}

#[tactic(auto, unfolding(crate::specs::ResultSetReading::decimals_at))]
fn decimals_of(bytes: &[u8]) -> Result<u8, Fault>
    ensures { Gives (λ x. x) result (decimals_at bytes.now) }
{
    let (decimals, rest) = byte_of(bytes)?;
    let rest = mark_of(0, rest)?;
    let rest = mark_of(0, rest)?;
    ended(decimals, rest)
}

#[tactic(auto, unfolding(crate::specs::ResultSetReading::column_at))]
fn definition_of(payload: &[u8]) -> Result<Definition<'_>, Fault>
    ensures { Gives viewed result (column_at payload.now) }
{
    let ((catalog, schema), rest) = two_texts_of(payload)?;
    let ((table, table_behind), rest) = two_texts_of(rest)?;
    let ((name, name_behind), rest) = two_texts_of(rest)?;
    let (fixed, rest) = fixed_of(rest)?;
    let decimals = decimals_of(rest)?;
    Ok(Definition {
        catalog,
        schema,
        table,
        table_behind,
        name,
        name_behind,
        fixed,
        decimals,
    })
}

fn copied(alloc: Global, definition: &Definition<'_>) -> Result<WireColumn, AllocError>
    ensures { IfOk result (λ column. column ≡ viewed definition.now) }
{
    Ok(WireColumn {
        catalog: Bytes::from_slice(alloc, definition.catalog)?,
        schema: Bytes::from_slice(alloc, definition.schema)?,
        table: Bytes::from_slice(alloc, definition.table)?,
        table_behind: Bytes::from_slice(alloc, definition.table_behind)?,
        name: Bytes::from_slice(alloc, definition.name)?,
        name_behind: Bytes::from_slice(alloc, definition.name_behind)?,
        fixed: definition.fixed,
        decimals: definition.decimals,
    })
}

/// The status and the warnings of an EOF.
#[tactic(auto, unfolding(crate::specs::ResultSetReading::eof_at))]
fn eof_of(payload: &[u8]) -> Result<(u16, u16), Fault>
    ensures { Gives (λ x. x) result (eof_at payload.now) }
{
    let rest = mark_of(254, payload)?;
    let (warnings, rest) = two_of(rest)?;
    let (status, rest) = two_of(rest)?;
    ended((status, warnings), rest)
}

fn is_eof(payload: &[u8]) -> bool
    ensures { result ≡ is_eof payload.now }
{
    match payload {
        [] => false,
        [first, ..] => *first == 254 && payload.len() < 9,
    }
}

/// A value: its text, or none for NULL.
#[tactic(auto, unfolding(crate::specs::ResultSetReading::value_at))]
fn value_of(
    alloc: Global,
    bytes: &[u8],
) -> Result<Result<(Option<Bytes>, &[u8]), Fault>, AllocError>
    ensures { IfOk result (λ r. Gives (λ x. (x.0, x.1.now)) r (value_at bytes.now)) }
{
    match bytes {
        [] => Ok(Err(Fault { left: 0 })),
        [0xfb, rest @ ..] => Ok(Ok((None, rest))),
        [_, ..] => match text_of(bytes) {
            Err(fault) => Ok(Err(fault)),
            Ok((text, rest)) => {
                let text = Bytes::from_slice(alloc, text)?;
                Ok(Ok((Some(text), rest)))
            }
        },
    }
}

/// So many values.
fn values_of(
    alloc: Global,
    count: u64,
    bytes: &[u8],
) -> Result<Result<(Vec<Option<Bytes>>, &[u8]), Fault>, AllocError>
    ensures { IfOk result (λ r. Gives (λ x. (x.0.items, x.1.now)) r (values_at count bytes.now)) }
{
    let mut values = Vec::new(alloc);
    let mut rest = bytes;
    for _n in 0..count {
        match value_of(alloc, rest)? {
            Err(fault) => return Ok(Err(fault)),
            Ok((value, behind)) => {
                values.push(value)?;
                rest = behind;
            }
        }
    }
    Ok(Ok((values, rest)))
}

/// A row of so many values.
fn row_of(
    alloc: Global,
    count: u64,
    payload: &[u8],
) -> Result<Result<Items<Option<Bytes>>, Fault>, AllocError>
    ensures { IfOk result (λ r. Gives (λ x. x) r (row_at count payload.now)) }
{
    match values_of(alloc, count, payload)? {
        Err(fault) => Ok(Err(fault)),
        Ok((values, rest)) => Ok(ended(Items::from_vec(values), rest)),
    }
}

/// A fault of a payload that has these bytes behind it.
pub(crate) fn in_payload(fault: Fault, rest: &[u8]) -> PacketFault
    ensures { result ≡ record { left = fault.left; behind = length rest.now } }
{
    PacketFault {
        left: fault.left,
        behind: rest.len(),
    }
}

/// A fault with no payload around it.
pub(crate) fn in_packets(fault: Fault) -> PacketFault
    ensures { result ≡ record { left = fault.left; behind = 0 } }
{
    PacketFault {
        left: fault.left,
        behind: 0,
    }
}

/// What stands behind an EOF and its packet.
pub(crate) fn eof_packet_of(due: u8, bytes: &[u8]) -> Result<&[u8], PacketFault>
    ensures { GivesIn (λ x. x.now) result (eof_packet_at due bytes.now) }
{
    match numbered_of(due, bytes) {
        Err(fault) => Err(in_packets(fault)),
        Ok((payload, rest)) => match eof_of(payload) {
            Err(fault) => Err(in_payload(fault, rest)),
            Ok(_) => Ok(rest),
        },
    }
}

/// A column by its packet, and the bytes behind that.
fn column_of(
    alloc: Global,
    due: u8,
    bytes: &[u8],
) -> Result<Result<(WireColumn, &[u8]), PacketFault>, AllocError>
    ensures { IfOk result (λ r. GivesIn (λ x. (x.0, x.1.now)) r (column_packet_at due bytes.now)) }
{
    match numbered_of(due, bytes) {
        Err(fault) => Ok(Err(in_packets(fault))),
        Ok((payload, rest)) => match definition_of(payload) {
            Err(fault) => Ok(Err(in_payload(fault, rest))),
            Ok(definition) => {
                let column = copied(alloc, &definition)?;
                Ok(Ok((column, rest)))
            }
        },
    }
}

/// So many columns, the number behind that of the last, and the bytes behind it.
pub(crate) fn columns_of(
    alloc: Global,
    count: u64,
    first: u8,
    bytes: &[u8],
) -> Result<Result<((Vec<WireColumn>, u8), &[u8]), PacketFault>, AllocError>
    ensures { IfOk result (λ r. GivesIn (λ x. ((x.0.0.items, x.0.1), x.1.now)) r (columns_at count first bytes.now)) }
{
    let mut columns = Vec::new(alloc);
    let mut due = first;
    let mut rest = bytes;
    for _n in 0..count {
        match column_of(alloc, due, rest)? {
            Err(fault) => return Ok(Err(fault)),
            Ok((column, behind)) => {
                columns.push(column)?;
                due = due.wrapping_add(1);
                rest = behind;
            }
        }
    }
    Ok(Ok(((columns, due), rest)))
}

/// A row or the end of rows by its packet, and the bytes behind that.
fn said_of(
    alloc: Global,
    count: u64,
    due: u8,
    bytes: &[u8],
) -> Result<Result<(Said, &[u8]), PacketFault>, AllocError>
    ensures { IfOk result (λ r. GivesIn (λ x. (x.0, x.1.now)) r (said_at count due bytes.now)) }
{
    let (payload, rest) = match numbered_of(due, bytes) {
        Err(fault) => return Ok(Err(in_packets(fault))),
        Ok(found) => found,
    };
    if is_eof(payload) {
        return match eof_of(payload) {
            Err(fault) => Ok(Err(in_payload(fault, rest))),
            Ok((status, warnings)) => Ok(Ok((Said::Eof(status, warnings), rest))),
        };
    }
    match row_of(alloc, count, payload)? {
        Err(fault) => Ok(Err(in_payload(fault, rest))),
        Ok(row) => Ok(Ok((Said::Row(row), rest))),
    }
}

/// Rows of so many values up to an EOF, its status and warnings, and the bytes behind it.
pub(crate) fn rows_of(
    alloc: Global,
    count: u64,
    first: u8,
    bytes: &[u8],
) -> Result<Result<((Vec<Items<Option<Bytes>>>, (u16, u16)), &[u8]), PacketFault>, AllocError>
    ensures { IfOk result (λ r. GivesIn (λ x. ((x.0.0.items, x.0.1), x.1.now)) r (rows_at (length bytes.now) count first bytes.now)) }
{
    let mut rows = Vec::new(alloc);
    let mut due = first;
    let mut rest = bytes;
    for _n in 0..bytes.len() {
        match said_of(alloc, count, due, rest)? {
            Err(fault) => return Ok(Err(fault)),
            Ok((said, behind)) => match said {
                Said::Eof(status, warnings) => {
                    return Ok(Ok(((rows, (status, warnings)), behind)));
                }
                Said::Row(row) => {
                    rows.push(row)?;
                    due = due.wrapping_add(1);
                    rest = behind;
                }
            },
        }
    }
    Ok(Err(PacketFault { left: 0, behind: 0 }))
}
