use crate::packets::Packets;

/// Why no packet can be read any more.
#[derive(Clone, Copy, Debug, PartialEq, Eq)]
pub enum FaultCause {
    /// A header announces a payload of `len` bytes, which is over the limit.
    TooLong { len: u32 },
    /// A header has the number `got`, and `due` was the next one.
    Order { got: u8, due: u8 },
    /// Memory ran out.
    Memory,
}

/// What ended a stream of packets, and the packets of the same call that were whole before it.
#[derive(Drop)]
pub struct FrameFault {
    pub before: Packets,
    pub cause: FaultCause,
}
