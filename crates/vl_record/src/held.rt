use vl_catalog::Part;
use vl_values::items::Items;
use vl_values::key::Key;
use vl_values::row::Row;

/// What a file with an open file gate holds: what its header says, its rows, and the parts of its records up to the first
/// closed gate.
#[derive(Drop)]
pub struct Held {
    pub epoch: u64,
    /// The greatest transaction number of what its rows come from.
    pub last_tx: u64,
    pub rows: Items<(Key, Row)>,
    /// The offset of the first gate behind the rows.
    pub first: usize,
    pub parts: Items<Part>,
    /// The offset of the closed gate.
    pub end: usize,
}
