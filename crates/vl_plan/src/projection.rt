use vl_values::ColumnNo;
use vl_values::items::Items;

/// What a SELECT gives of the rows that match.
#[derive(Debug, Drop)]
pub enum Projection {
    /// Each column.
    All,
    /// How many rows there are.
    Count,
    /// These columns.
    Columns(Items<ColumnNo>),
}
