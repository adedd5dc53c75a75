//! Replies of the MySQL client/server protocol as bytes: OK, ERR and result sets.
//!
//! `encode` gives the packets of a reply. `encode_short` writes an OK or ERR, as under PROTOCOL_41, into a
//! `ShortBuf`, which has room for each of them from the day that it is made, so that such a reply is never
//! lost to want of memory. `decode` reads the packets as a client does. The layer above relies on this:
//! the bytes are exactly the packets of the reply, and `decode` gives back what was written.
#![tactic(auto)]

mod decoding;
mod definition;
mod fields;
mod fixed_fields;
mod limits;
mod packet_reading;
mod reading;
mod reply_packets;
mod result_set;
mod said;
mod short_buf;
mod short_reply;
mod text_fields;
mod wire;
mod wire_column;

pub use decoding::decode;
pub use fixed_fields::FixedFields;
pub use limits::is_encodable;
pub use reply_packets::encode;
pub use short_buf::ShortBuf;
pub use short_reply::{FOUND_ROWS, PROTOCOL_41, encode_short};
pub use wire::{BadReply, Wire};
pub use wire_column::WireColumn;

#[cfg(test)]
mod encode_tests;
#[cfg(test)]
mod tests;
