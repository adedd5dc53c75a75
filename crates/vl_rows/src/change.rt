use vl_values::ConnNo;
use vl_values::row::Row;

/// A pending version of a key: the connection that wrote it, and its row, or none for a removal.
#[derive(Debug, Drop)]
pub struct Change {
    pub conn: ConnNo,
    pub row: Option<Row>,
}
