use vl_values::key::Key;
use vl_values::row::Row;

/// A change of a part: the key has this row, or is removed.
#[derive(Drop)]
pub struct Change {
    pub key: Key,
    pub row: Option<Row>,
}
