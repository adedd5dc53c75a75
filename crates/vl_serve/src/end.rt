/// How a connection ended. The session has left the gate.
#[derive(Clone, Copy, Debug, PartialEq, Eq)]
pub enum ConnEnd {
    /// A QUIT came.
    Quit,
    /// The input ended before a QUIT.
    Ended,
    /// A packet was refused, with the ERR of this code.
    Refused { code: u16 },
    /// A read failed.
    ReadFault,
    /// A write failed.
    WriteFault,
    /// The core told that the session's pass is good for no event.
    Strayed,
    /// As many reads as a connection may have gave bytes.
    Spent,
    /// Memory ran out.
    Memory,
}
