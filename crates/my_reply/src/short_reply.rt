ghost use Rattle.std.specs.Prelude.{◌≡◌, ◌≤◌, length};
ghost use Rattle.my_reply.specs.Fields.{counted};
ghost use Rattle.my_reply.specs.Reply.{framed, ok_payload, err_payload, reply_bytes, IsShort};

use crate::fields::{encoded_len, push_encoded, status_flags};
use crate::short_buf::ShortBuf;
use my_packet::header_of;
use vl_values::reply::Reply;

/// The capability by which an OK counts the rows that a statement found.
pub const FOUND_ROWS: u32 = 0x2;

/// The capability by which an OK has its warnings and an ERR its SQLSTATE.
pub const PROTOCOL_41: u32 = 0x200;

/// Writes an OK or ERR packet with this number into the buffer, in place of what was there, as under
/// PROTOCOL_41. It takes no memory.
pub fn encode_short(reply: &Reply, caps: u32, seq: u8, buf: &mut ShortBuf)
    requires { IsShort reply.now }
    ensures { buf.new ≡ reply_bytes reply.now caps seq }
{
    match reply {
        Reply::Rows { .. } => unreachable!(),
        Reply::Ok {
            affected,
            found,
            warnings,
            tx,
            auto,
        } => {
            let rows = counted(caps, *affected, *found);
            encode_ok(rows, status_flags(*tx, *auto), *warnings, seq, buf);
        }
        Reply::Err { code, why, tx: _ } => {
            encode_err(*code, why.state(), why.text().as_slice(), seq, buf);
        }
    }
}

fn counted(caps: u32, affected: u64, found: u64) -> u64
    ensures { result ≡ counted caps affected found }
{
    if caps & FOUND_ROWS == 0 {
        affected
    } else {
        found
    }
}

fn encode_ok(rows: u64, status: u16, warnings: u16, seq: u8, buf: &mut ShortBuf)
    ensures { buf.new ≡ framed (ok_payload rows status warnings) seq }
{
    buf.clear();
    buf.push(&header_of(encoded_len(rows) + 6, seq));
    buf.push(&[0]);
    push_encoded(buf, rows);
    buf.push(&[0]);
    buf.push(&status.to_le_bytes());
    buf.push(&warnings.to_le_bytes());
}

fn encode_err(code: u16, state: &[u8], text: &[u8], seq: u8, buf: &mut ShortBuf)
    requires state { length state.now ≡ 5 }
    requires text { length text.now ≤ 512 }
    ensures { buf.new ≡ framed (err_payload code state.now text.now) seq }
{
    buf.clear();
    buf.push(&header_of(text.len() + 9, seq));
    buf.push(&[0xff]);
    buf.push(&code.to_le_bytes());
    buf.push(b"#");
    buf.push(state);
    buf.push(text);
}
