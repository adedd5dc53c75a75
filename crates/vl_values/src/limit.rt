ghost use Rattle.std.specs.Prelude.{◌≡◌};
ghost use Rattle.vl_values.specs.Limit.{limit_name};

/// A quantity that has a limit while a statement runs.
#[derive(Clone, Copy, Debug, PartialEq, Eq)]
pub enum Limit {
    /// Writes of a transaction.
    Changes,
    /// Bytes of one shard session's record.
    RecordBytes,
    /// Bytes of a shard's file with all pending records.
    JournalBytes,
    /// Rows that the reads of a statement gave.
    ResultRows,
    /// Bytes of the values of these rows.
    ResultBytes,
    /// Transaction numbers.
    Transactions,
    /// Event numbers.
    Events,
    /// Marks of a prepared statement.
    Parameters,
    /// Prepared statements that a session has open.
    PreparedStatements,
    /// Numbers of a sequence.
    SequenceNumbers,
}

impl Limit {
    /// The name of the quantity, as the error text has it.
    pub fn name(self) -> &'static [u8]
        ensures { result.now ≡ limit_name self }
    {
        match self {
            Limit::Changes => b"changes",
            Limit::RecordBytes => b"record bytes",
            Limit::JournalBytes => b"journal bytes",
            Limit::ResultRows => b"result rows",
            Limit::ResultBytes => b"result bytes",
            Limit::Transactions => b"transactions",
            Limit::Events => b"events",
            Limit::Parameters => b"parameters",
            Limit::PreparedStatements => b"prepared statements",
            Limit::SequenceNumbers => b"sequence numbers",
        }
    }
}
