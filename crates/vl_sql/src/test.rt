use vl_values::bytes::Bytes;
use vl_values::row::Row;
use vl_values::value::Value;

/// A test of a column, as WHERE has it.
#[derive(Debug, Drop)]
pub enum Test {
    /// `column = literal`
    Equals(Bytes, Value),
    /// `column IN (literal, ..)`
    Among(Bytes, Row),
}
