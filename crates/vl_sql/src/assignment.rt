use vl_values::bytes::Bytes;
use vl_values::value::Value;

/// `column = literal`, as SET has it.
#[derive(Debug, Drop)]
pub struct Assignment {
    pub column: Bytes,
    pub value: Value,
}
