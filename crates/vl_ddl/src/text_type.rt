/// The word of a type that has a greatest length.
#[derive(Clone, Copy, Debug)]
pub enum TextType {
    VarChar,
    VarBinary,
}
