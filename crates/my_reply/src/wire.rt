use crate::wire_column::WireColumn;
use vl_values::bytes::Bytes;
use vl_values::error_text::ErrorText;
use vl_values::items::Items;

/// A reply as a client reads it.
#[derive(Drop)]
pub enum Wire {
    /// The rows counted, the last insert id, the status flags and the warnings.
    Ok {
        affected: u64,
        insert_id: u64,
        status: u16,
        warnings: u16,
    },
    /// The columns and rows of a result set, with the status flags and the warnings of its last EOF. A
    /// value is its text, or none for NULL.
    Rows {
        columns: Items<WireColumn>,
        rows: Items<Items<Option<Bytes>>>,
        status: u16,
        warnings: u16,
    },
    /// The error code, the SQLSTATE where there is one, and the text.
    Err {
        code: u16,
        state: Option<[u8; 5]>,
        text: ErrorText,
    },
}

/// Why no reply was read.
#[derive(Clone, Copy, Debug, PartialEq, Eq)]
pub enum BadReply {
    /// Memory ran out for a result set.
    Memory,
    /// The bytes are no reply. The place is that of the first byte which is wrong, counted from 0, or how
    /// many bytes there are where they end too early.
    Wrong { at: usize },
}

/// How many bytes are left at the first byte that is wrong.
#[derive(Clone, Copy, Debug)]
pub struct Fault {
    pub left: usize,
}

/// The same of a payload, and how many bytes stand behind that.
#[derive(Clone, Copy, Debug)]
pub struct PacketFault {
    pub left: usize,
    pub behind: usize,
}
