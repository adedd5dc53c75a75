//! Packets of the MySQL client/server protocol: framing, and nothing of what the payloads mean.
//!
//! A packet is three bytes that give the length of its payload, low byte first, one byte that is its
//! sequence number, and the payload. `Framer` reads a stream of packets that comes in pieces of any
//! size, and `frame` writes one packet.
//!
//! The layer above relies on this: the packets that a framer gives are exactly those that the bytes fed
//! so far spell, wherever they are cut; a payload over the limit is refused when its header has come,
//! and so is a number other than the due one; `need` never asks past the end of the header or payload
//! in hand, so that the due number can be set between two packets.
#![tactic(auto)]

mod fault;
mod framer;
mod framing;
mod header;
mod packet;
mod packets;
mod payload;

pub use fault::{FaultCause, FrameFault};
pub use framer::Framer;
pub use framing::{frame, header_of};
pub use packet::{LONGEST_PAYLOAD, Packet};
pub use packets::Packets;
pub use payload::Payload;

#[cfg(test)]
mod tests;
