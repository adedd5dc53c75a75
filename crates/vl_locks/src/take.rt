use vl_values::ConnNo;

/// The answer to a connection that would take a key.
#[derive(Clone, Copy, Debug, PartialEq, Eq)]
pub enum Take {
    /// Another connection holds the key.
    Held { by: ConnNo },
    /// The connection holds the key; `fresh` where it didn't before.
    Taken { fresh: bool },
}
