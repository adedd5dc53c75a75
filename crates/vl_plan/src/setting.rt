use vl_values::ColumnNo;
use vl_values::value::Value;

/// A column that UPDATE sets, and its new value.
#[derive(Debug, Drop)]
pub struct Setting {
    pub column: ColumnNo,
    pub value: Value,
}
