/// A token of a statement's text. Its slices are parts of the text.
#[derive(Clone, Copy, Debug)]
pub enum Token<'a> {
    /// A letter or `_`, then letters, digits, `_` and `$`.
    Word(&'a [u8]),
    /// The bytes between two backquotes.
    Quoted(&'a [u8]),
    /// A quote, and the bytes up to the closing one, with their escapes.
    Text(u8, &'a [u8]),
    /// The hexadecimal digits of `x'..'`, an even number of them.
    Hex(&'a [u8]),
    /// Whether `-` stands before, and the digits.
    Number(bool, &'a [u8]),
    /// The word behind `@@`.
    Variable(&'a [u8]),
    /// One of `( ) , . ; = * +`, or a `-` that begins no number and no comment.
    Mark(u8),
    /// No token begins here.
    Bad,
}

/// Tokens that stand one behind the other.
pub type Tokens<'a> = &'a [Token<'a>];
