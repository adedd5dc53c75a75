use crate::number_type::NumberType;
use crate::text_type::TextType;

/// The type of a column as it is written.
#[derive(Clone, Copy, Debug)]
pub enum DeclaredType {
    /// The word, whether a display width stands behind it, and whether UNSIGNED does.
    Number(NumberType, bool, bool),
    /// The word and the greatest length, 65,535 where the number is larger.
    Text(TextType, u16),
}
