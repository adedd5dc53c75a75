use crate::who::Who;
use vl_values::row::Row;

/// A pending version of a key: who made it, and its row, none where the key was removed.
#[derive(Drop)]
pub struct Change {
    pub who: Who,
    pub row: Option<Row>,
}
