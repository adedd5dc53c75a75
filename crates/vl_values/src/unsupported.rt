ghost use Rattle.std.specs.Prelude.{◌≡◌};
ghost use Rattle.vl_values.specs.Unsupported.{unsupported_name};

/// A statement that is in the grammar and refused as not supported.
#[derive(Clone, Copy, Debug, PartialEq, Eq)]
pub enum Unsupported {
    /// INSERT, UPDATE or DELETE of a table that serves a lookup.
    WriteToLookupTable,
    /// FOR UPDATE of a table that serves a lookup.
    LockOnLookupTable,
    /// UPDATE that sets a primary key column.
    ChangeOfKeyColumn,
    /// COUNT(*) with ORDER BY, LIMIT or FOR UPDATE.
    CountWithMore,
    /// UPDATE or DELETE of a table that owns a lookup.
    Lookups,
    /// An execution that asks for a cursor.
    Cursor,
    /// INSERT, UPDATE or DELETE of a sequence table.
    WriteToSequenceTable,
    /// FOR UPDATE of a sequence table.
    LockOnSequenceTable,
}

impl Unsupported {
    /// What isn't supported, as the error text has it.
    pub fn name(self) -> &'static [u8]
        ensures { result.now ≡ unsupported_name self }
    {
        match self {
            Unsupported::WriteToLookupTable => b"write to a lookup table",
            Unsupported::LockOnLookupTable => b"lock on a lookup table",
            Unsupported::ChangeOfKeyColumn => b"change of a key column",
            Unsupported::CountWithMore => b"COUNT(*) with more",
            Unsupported::Lookups => b"lookups",
            Unsupported::Cursor => b"cursor",
            Unsupported::WriteToSequenceTable => b"write to a sequence table",
            Unsupported::LockOnSequenceTable => b"lock on a sequence table",
        }
    }
}
