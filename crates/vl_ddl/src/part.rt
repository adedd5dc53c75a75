use crate::column_part::ColumnPart;
use vl_values::bytes::Bytes;
use vl_values::items::Items;

/// What a table is made of.
#[derive(Drop)]
pub enum Part {
    Column(ColumnPart),
    /// `PRIMARY KEY` and the names of its columns.
    PrimaryKey(Items<Bytes>),
    /// `KEY` or `INDEX`, its name and the names of its columns.
    Index(Bytes, Items<Bytes>),
    /// `UNIQUE` or `FOREIGN`, which begin a key in the wider language alone.
    OtherKey,
}
