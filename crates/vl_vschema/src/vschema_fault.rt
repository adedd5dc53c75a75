use crate::vschema_rule::VschemaRule;
use vl_values::bytes::Bytes;

/// Why a VSchema file or a catalog file is refused.
#[derive(Debug, Drop)]
pub enum VschemaFault {
    NotJson,
    /// The least rule that is broken, and of it the least path: the names of members and the positions
    /// in lists, joined by `/`. The file's object has the empty path.
    Broken { path: Bytes, rule: VschemaRule },
    Memory,
}
