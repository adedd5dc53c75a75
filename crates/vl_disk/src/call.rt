use crate::Pick;

/// A call that a disk in memory met.
#[derive(Clone, Copy, Debug)]
pub(crate) enum Call {
    /// A write at this offset of so many bytes.
    Wrote(usize, usize),
    /// A write or a sync that failed.
    Missed,
    /// A sync.
    Synced,
    /// A revival.
    Revived(Pick),
}
