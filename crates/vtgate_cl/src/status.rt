/// How a run of the program ended.
#[derive(Clone, Copy, Debug, PartialEq, Eq)]
pub enum Status {
    /// The input was read to its end, and all was printed. The exit status is 0.
    Done,
    /// The words aren't accepted. The exit status is 1.
    InvalidArguments,
    /// A line is no script line; its number is printed last. The exit status is 2.
    NotScriptLine,
    /// The source failed. The exit status is 3.
    ReadFailed,
    /// The sink failed. The exit status is 4.
    WriteFailed,
    /// Memory was wanted outside a statement. The exit status is 6.
    OutOfMemory,
    /// A file of a catalog couldn't be loaded, or is too long. The exit status is 8.
    FileNotLoaded,
    /// The catalog is refused. The exit status is 10.
    CatalogRefused,
}

impl Status {
    ghost use Rattle.std.specs.Prelude.{◌≡◌};
    ghost use Rattle.vtgate_cl.specs.Status.{number_of};

    /// The exit status.
    pub fn number(self) -> u8
        ensures { result ≡ number_of self }
    {
        match self {
            Status::Done => 0,
            Status::InvalidArguments => 1,
            Status::NotScriptLine => 2,
            Status::ReadFailed => 3,
            Status::WriteFailed => 4,
            Status::OutOfMemory => 6,
            Status::FileNotLoaded => 8,
            Status::CatalogRefused => 10,
        }
    }
}
