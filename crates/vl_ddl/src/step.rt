use vl_token::Tokens;

/// What a token does behind a table's brackets.
#[derive(Clone, Copy)]
pub enum Step<'a> {
    /// Another token of the options, with so many brackets open behind it.
    Goes(usize, Tokens<'a>),
    /// The `;`.
    Ends(Tokens<'a>),
    /// Nothing goes on with it.
    Wrong,
}
