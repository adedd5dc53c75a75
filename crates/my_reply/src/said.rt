use vl_values::bytes::Bytes;
use vl_values::items::Items;

/// What a packet behind the definitions of columns says.
#[derive(Drop)]
pub enum Said {
    /// A row: the text of each value, or none for NULL.
    Row(Items<Option<Bytes>>),
    /// The end of the rows, with the status and the warnings.
    Eof(u16, u16),
}
