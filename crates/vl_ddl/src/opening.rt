use vl_values::bytes::Bytes;

/// The first token of a part.
#[derive(Drop)]
pub enum Opening {
    Index,
    Primary,
    OtherKey,
    /// A column's name.
    Column(Bytes),
}
