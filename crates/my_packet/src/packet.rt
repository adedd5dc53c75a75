use crate::payload::Payload;

/// The most bytes that the payload of a received packet may have.
pub const LONGEST_PAYLOAD: usize = 1_048_576;

/// A packet: its sequence number and its payload.
#[derive(Drop)]
pub struct Packet {
    pub seq: u8,
    pub payload: Payload,
}
