use crate::journal::Journal;
use vl_catalog::Part;
use vl_values::items::Items;
use vl_values::key::Key;
use vl_values::row::Row;

/// A journal that was opened, and what its file holds.
#[derive(Drop)]
pub struct Opened<D> {
    pub journal: Journal<D>,
    /// The rows that the side begins with.
    pub rows: Items<(Key, Row)>,
    /// The parts of its records up to the first closed gate.
    pub parts: Items<Part>,
    pub epoch: u64,
    /// The greatest transaction number of what its rows come from.
    pub last_tx: u64,
    /// The offset of the first gate behind the rows.
    pub first: u64,
}
