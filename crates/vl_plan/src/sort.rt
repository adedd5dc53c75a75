use vl_values::ColumnNo;

/// A column that ORDER BY names. NULL stands first where the order is ascending.
#[derive(Clone, Copy, Debug, PartialEq, Eq)]
pub struct Sort {
    pub column: ColumnNo,
    pub descending: bool,
}
