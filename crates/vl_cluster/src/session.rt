/// A joined session: its number, and the number of its last event.
#[derive(Clone, Copy, Debug, PartialEq, Eq)]
pub struct Session {
    pub number: u32,
    pub at: u64,
}
