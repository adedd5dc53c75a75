/// Why a journal wasn't opened. Each fault gives the disk back.
#[derive(Debug, Drop)]
pub enum JournalFault<D> {
    /// Memory was refused.
    Memory(D),
    /// A device call failed. The disk's count of faults rose.
    Device(D),
    /// The file gate is open, and the field at this offset, in bytes, breaks a rule of the format.
    NotOurs(D, u64),
}
