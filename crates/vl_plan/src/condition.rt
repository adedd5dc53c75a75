use vl_catalog::Column;
use vl_values::value::Value;

/// A test of a statement, with its column and that column's number.
#[derive(Clone, Copy)]
pub(crate) struct Condition<'a> {
    pub number: u16,
    pub column: &'a Column,
    pub literals: &'a [Value],
}
