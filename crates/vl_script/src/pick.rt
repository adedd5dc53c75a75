/// What the written but unsynced ranges of a disk hold after a crash.
#[derive(Clone, Copy, Debug, PartialEq, Eq)]
pub enum Pick {
    /// The old bytes and the old length.
    None_,
    /// The new bytes.
    All,
    /// The first half (rounded down) of the new bytes, then 0x00.
    Half,
    /// 0xA7 in every byte.
    Gates,
}
