use crate::vindex::Vindex;
use vl_values::ColumnNo;

/// A table's primary vindex, with the place of its column in the table.
#[derive(Clone, Copy, Debug, PartialEq, Eq)]
pub struct Primary {
    pub column: ColumnNo,
    pub vindex: Vindex,
}
