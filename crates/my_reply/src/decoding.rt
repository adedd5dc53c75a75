ghost use Rattle.std.specs.Prelude.{◌≡◌, ℕ, IfOk, OnErr, Result, length, true};
ghost use Rattle.my_reply.specs.Decoding.{Decodes, Fits, IsRead, alone_at, begins_set, count_at, may_be_set, reply_at, rows_behind_at, set_at, told_at, wire_of};
ghost use Rattle.my_reply.specs.GivesInPackets.{GivesIn};
ghost use Rattle.my_reply.specs.Reading.{Gives, ends_with};
ghost use Rattle.my_reply.specs.Reply.{bytes_for};
ghost use Rattle.my_reply.specs.ResultSetReading.{eof_packet_at};
ghost use Rattle.my_reply.specs.declared.wire.Wire.{Wire as AWire};
ghost use Rattle.vl_values.specs.declared.reply.Reply.{Reply as AReply};

use crate::packet_reading::{
    columns_of, eof_packet_of, heading_of, in_packets, in_payload, rows_of,
};
use crate::reading::{bytes_of, ended, err_of, number_of, ok_of};
use crate::wire::{BadReply, Fault, PacketFault, Wire};
use crate::wire_column::WireColumn;
use std::alloc::{AllocError, Global};
use vl_values::items::Items;

/// A column count.
fn count_of(payload: &[u8]) -> Result<u64, Fault>
    ensures { Gives (λ x. x) result (count_at payload.now) }
{
    let (count, rest) = number_of(payload)?;
    ended(count, rest)
}

/// What stands behind the definitions of a result set: an EOF, and the rows up to another.
fn rows_behind(
    alloc: Global,
    columns: Vec<WireColumn>,
    count: u64,
    due: u8,
    bytes: &[u8],
) -> Result<Result<Wire, PacketFault>, AllocError>
    ensures { IfOk result (λ r. GivesIn (λ x. x) r (rows_behind_at columns.items count due bytes.now)) }
{
    match eof_packet_of(due, bytes) {
        Err(fault) => Ok(Err(fault)),
        Ok(rest) => match rows_of(alloc, count, due.wrapping_add(1), rest)? {
            Err(fault) => Ok(Err(fault)),
            Ok(found) => {
                let ((rows, (status, warnings)), rest) = found;
                let wire = Wire::Rows {
                    columns: Items::from_vec(columns),
                    rows: Items::from_vec(rows),
                    status,
                    warnings,
                };
                match ended(wire, rest) {
                    Err(fault) => Ok(Err(in_packets(fault))),
                    Ok(wire) => Ok(Ok(wire)),
                }
            }
        },
    }
}

/// A result set, whose column count has this number and payload.
#[tactic(auto, unfolding(crate::specs::Decoding::set_at))]
fn set_of(
    alloc: Global,
    number: u8,
    payload: &[u8],
    rest: &[u8],
) -> Result<Result<Wire, PacketFault>, AllocError>
    ensures { IfOk result (λ r. GivesIn (λ x. x) r (set_at number payload.now rest.now)) }
{
    match count_of(payload) {
        Err(fault) => Ok(Err(in_payload(fault, rest))),
        Ok(count) => match columns_of(alloc, count, number.wrapping_add(1), rest)? {
            Err(fault) => Ok(Err(fault)),
            Ok(found) => {
                let ((columns, due), rest) = found;
                rows_behind(alloc, columns, count, due, rest)
            }
        },
    }
}

/// A reply of one packet, behind which nothing may stand.
fn alone(read: Result<Wire, Fault>, rest: &[u8]) -> Result<Wire, PacketFault>
    ensures { (told : Result AWire ℕ) → Gives (λ x. x) read told → GivesIn (λ x. x) result (alone_at told rest.now) }
{
    match read {
        Err(fault) => Err(in_payload(fault, rest)),
        Ok(wire) => match ended(wire, rest) {
            Err(fault) => Err(in_packets(fault)),
            Ok(wire) => Ok(wire),
        },
    }
}

/// The reply whose first packet has this number and payload.
#[tactic(auto, unfolding(crate::specs::Decoding::told_at))]
fn told_of(
    alloc: Global,
    number: u8,
    payload: &[u8],
    rest: &[u8],
) -> Result<Result<Wire, PacketFault>, AllocError>
    ensures told { IfOk result (λ r. GivesIn (λ x. x) r (told_at number payload.now rest.now)) }
    ensures memory { OnErr result (begins_set payload.now ≡ true) }
{
    match payload {
        [] => Ok(Err(in_payload(Fault { left: 0 }, rest))),
        [0x00, more @ ..] => Ok(alone(ok_of(more), rest)),
        [0xff, more @ ..] => Ok(alone(err_of(more), rest)),
        [_, ..] => set_of(alloc, number, payload, rest),
    }
}

#[tactic(auto, unfolding(crate::specs::Decoding::reply_at))]
fn reply_of(alloc: Global, bytes: &[u8]) -> Result<Result<Wire, PacketFault>, AllocError>
    ensures told { IfOk result (λ r. GivesIn (λ x. x) r (reply_at bytes.now)) }
    ensures memory { OnErr result (may_be_set bytes.now ≡ true) }
{
    match heading_of(bytes) {
        Err(fault) => Ok(Err(in_packets(fault))),
        Ok(((len, number), behind)) => match bytes_of(u64::from(len), behind) {
            Err(fault) => Ok(Err(in_packets(fault))),
            Ok((payload, rest)) => told_of(alloc, number, payload, rest),
        },
    }
}

/// What a client reads of a reply, whatever the number of its first packet is. A result set takes
/// memory.
pub fn decode(alloc: Global, bytes: &[u8]) -> Result<Wire, BadReply>
    ensures exact { Decodes bytes.now result }
    // What was written of a reply is read.
    ensures reads { (reply : AReply) (caps seq : ℕ) → Fits reply → bytes.now ≡ bytes_for reply caps seq → IsRead result (wire_of reply caps) }
{
    match reply_of(alloc, bytes) {
        Err(_) => Err(BadReply::Memory),
        Ok(read) => match read {
            Ok(wire) => Ok(wire),
            Err(fault) => Err(BadReply::Wrong {
                at: bytes
                    .len()
                    .saturating_sub(fault.left)
                    .saturating_sub(fault.behind),
            }),
        },
    }
}
