/// The word of a type that may have a display width, and that UNSIGNED may stand behind.
#[derive(Clone, Copy, Debug)]
pub enum NumberType {
    BigInt,
    Int,
    /// Another word, which is a type in the wider language alone.
    Other,
}
