use crate::part::Part;
use vl_values::bytes::Bytes;
use vl_values::items::Items;

/// A CREATE TABLE statement, as far as it means something.
#[derive(Drop)]
pub struct Statement {
    pub name: Bytes,
    pub parts: Items<Part>,
    /// Whether the table has options.
    pub options: bool,
}
