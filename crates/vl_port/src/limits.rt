/// What bounds a statement and a transaction.
#[derive(Clone, Copy, Debug, PartialEq, Eq)]
pub struct Limits {
    /// How often an action may be answered `Held` before the statement is refused.
    pub tries: u32,
    /// Writes of a transaction.
    pub changes: u32,
    /// Rows that the reads of a statement may give.
    pub result_rows: u32,
    /// Bytes of their values.
    pub result_bytes: u64,
    /// Bytes of records above which the opening of a shard writes a checkpoint.
    pub tail: u64,
    /// Whether the events are kept in a trace.
    pub trace: bool,
}
