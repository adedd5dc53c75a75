use vl_values::bytes::Bytes;

/// The direction of an ORDER BY column.
#[derive(Clone, Copy, Debug, PartialEq, Eq)]
pub enum Direction {
    Ascending,
    Descending,
}

/// A column that ORDER BY names. With no direction said the order is ascending.
#[derive(Debug, Drop)]
pub struct Order {
    pub column: Bytes,
    pub direction: Option<Direction>,
}
