/// The fields of fixed length in the definition of a column: the character set, the greatest length, the
/// code of the type, and MySQL's column flags.
#[derive(Clone, Copy, Debug, PartialEq, Eq)]
pub struct FixedFields {
    pub charset: u16,
    pub greatest_length: u32,
    pub code: u8,
    pub flags: u16,
}
