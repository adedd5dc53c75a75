/// How an armed stop meets the device call that it comes at.
#[derive(Clone, Copy, Debug, PartialEq, Eq)]
pub enum Stop {
    /// The call answers `Failed` and does nothing.
    Fail,
    /// The call answers `Failed`, a write is among those that aren't synced, and the disk is stopped until it
    /// is revived.
    Crash,
}
