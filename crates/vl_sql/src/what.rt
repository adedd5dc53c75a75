use crate::sequence::Sequence;
use vl_values::bytes::Bytes;

/// What a SELECT gives.
#[derive(Debug, Drop)]
pub enum What {
    /// `*`: each column.
    All,
    /// `COUNT(*)`: how many rows.
    Count,
    /// These columns, 1 to 1,000 of them.
    Columns(Sequence<Bytes>),
}
