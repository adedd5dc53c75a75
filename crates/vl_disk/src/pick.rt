/// What a revival leaves of the writes that aren't synced.
#[derive(Clone, Copy, Debug, PartialEq, Eq)]
pub enum Pick {
    /// None of them.
    None,
    /// All of them.
    All,
    /// The first half of each, rounded down, and 0x00 in place of the other half.
    Half,
    /// 0xA7, the open gate of a journal, in place of each of their bytes.
    Gates,
}
