use crate::status::Status;

/// Why a script stops before its end.
#[derive(Clone, Copy, Debug, PartialEq, Eq)]
pub enum Stop {
    /// A line is outside the grammar; its number is printed.
    NotScript,
    /// The source failed.
    Read,
    /// The sink failed.
    Write,
    /// Memory was wanted outside a statement.
    Memory,
}

impl Stop {
    ghost use Rattle.std.specs.Prelude.{◌≡◌};
    ghost use Rattle.vtgate_cl.specs.Status.{status_of};

    /// The program's status at this stop.
    pub fn status(self) -> Status
        ensures { result ≡ status_of self }
    {
        match self {
            Stop::NotScript => Status::NotScriptLine,
            Stop::Read => Status::ReadFailed,
            Stop::Write => Status::WriteFailed,
            Stop::Memory => Status::OutOfMemory,
        }
    }
}
