/// Why a users file is refused.
#[derive(Clone, Copy, Debug, PartialEq, Eq)]
pub enum UsersFault {
    /// Memory ran out.
    Memory,
    /// The first entry that is wrong, counted from 1; 0 where the file has no list of users.
    Refused { user: usize },
}
