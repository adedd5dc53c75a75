ghost use Rattle.std.specs.Prelude.{◌≡◌, ◌≤◌, ◌++◌, All, IfOk, OnOk, length};
ghost use Rattle.my_reply.specs.Fields.{length_encoded};
ghost use Rattle.my_reply.specs.Reply.{HasShortTexts, IsEncodable, IsShort, IsShortRow, bytes_for, early_err_payload, framed, reply_bytes};
ghost use Rattle.my_reply.specs.ResultSet.{framed_from, result_set_payloads};

use crate::fields::{encoded_len, status_flags};
use crate::result_set::{push_columns, push_eof, push_rows};
use crate::short_buf::ShortBuf;
use crate::short_reply::{PROTOCOL_41, encode_short};
use crate::text_fields::push_length;
use my_packet::header_of;
use std::alloc::{AllocError, Global};
use vl_values::reply::Reply;
use vl_values::reply_column::ReplyColumn;
use vl_values::row::Row;

/// The packets of a reply, the first of which has this number. Without PROTOCOL_41 among the
/// capabilities an ERR has no SQLSTATE, as before the capabilities of a client are known. After number
/// 255 comes 0.
pub fn encode(alloc: Global, reply: &Reply, caps: u32, seq: u8) -> Result<Vec<u8>, AllocError>
    requires { IsEncodable reply.now }
    ensures { IfOk result (λ bytes. bytes.items ≡ bytes_for reply.now caps seq) }
{
    match reply {
        Reply::Ok { .. } => encode_one(alloc, reply, caps, seq),
        Reply::Rows {
            columns,
            rows,
            tx,
            auto,
        } => {
            let status = status_flags(*tx, *auto);
            encode_rows(alloc, columns.as_slice(), rows.as_slice(), status, seq)
        }
        Reply::Err { code, why, tx: _ } => {
            if caps & PROTOCOL_41 == 0 {
                return encode_early(alloc, *code, why.text().as_slice(), seq);
            }
            encode_one(alloc, reply, caps, seq)
        }
    }
}

fn encode_one(alloc: Global, reply: &Reply, caps: u32, seq: u8) -> Result<Vec<u8>, AllocError>
    requires { IsShort reply.now }
    ensures { IfOk result (λ bytes. bytes.items ≡ reply_bytes reply.now caps seq) }
{
    let mut short = ShortBuf::new(alloc)?;
    encode_short(reply, caps, seq, &mut short);
    Ok(short.into_vec())
}

fn encode_early(alloc: Global, code: u16, text: &[u8], seq: u8) -> Result<Vec<u8>, AllocError>
    requires { length text.now ≤ 512 }
    ensures { IfOk result (λ bytes. bytes.items ≡ framed (early_err_payload code text.now) seq) }
{
    let mut bytes = Vec::with_capacity(alloc, text.len() + 7)?;
    bytes.extend_from_slice(&header_of(text.len() + 3, seq))?;
    bytes.extend_from_slice(&[0xff])?;
    bytes.extend_from_slice(&code.to_le_bytes())?;
    bytes.extend_from_slice(text)?;
    Ok(bytes)
}

fn encode_rows(
    alloc: Global,
    columns: &[ReplyColumn],
    rows: &[Row],
    status: u16,
    seq: u8,
) -> Result<Vec<u8>, AllocError>
    requires few { length columns.now ≤ 1000 }
    requires columns { All HasShortTexts columns.now }
    requires rows { All IsShortRow rows.now }
    ensures { IfOk result (λ bytes. bytes.items ≡ framed_from seq (result_set_payloads columns.now rows.now status)) }
{
    let mut bytes = Vec::new(alloc);
    push_count(&mut bytes, columns.len() as u16, seq)?;
    let behind = push_columns(&mut bytes, columns, seq.wrapping_add(1))?;
    push_eof(&mut bytes, status, behind)?;
    let last = push_rows(&mut bytes, rows, behind.wrapping_add(1))?;
    push_eof(&mut bytes, status, last)?;
    Ok(bytes)
}

/// Adds the packet of a column count.
fn push_count(bytes: &mut Vec<u8>, count: u16, seq: u8) -> Result<(), AllocError>
    ensures { OnOk result (bytes.new.items ≡ bytes.old.items ++ framed (length_encoded count) seq) }
{
    bytes.extend_from_slice(&header_of(encoded_len(u64::from(count)), seq))?;
    push_length(bytes, count)
}
