use crate::status::Status;

/// Why words aren't read.
#[derive(Debug, Drop)]
pub enum WordsFault {
    /// They aren't accepted.
    Refused,
    /// They aren't accepted, and ask for the help of a command, which is this text.
    Help { text: String },
    /// Memory was refused.
    Memory,
}

impl WordsFault {
    ghost use Rattle.std.specs.Prelude.{◌≡◌};
    ghost use Rattle.vtgate_cl.specs.Status.{status_of_words};

    /// The program's status where words aren't read.
    pub fn status(&self) -> Status
        ensures { result ≡ status_of_words self.now }
    {
        match self {
            WordsFault::Refused | WordsFault::Help { .. } => Status::InvalidArguments,
            WordsFault::Memory => Status::OutOfMemory,
        }
    }
}
