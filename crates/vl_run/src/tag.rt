use vl_values::SessionNo;

/// What was told of an event, without its rows and texts.
#[derive(Clone, Copy, Debug, PartialEq, Eq)]
pub enum Tag {
    /// No statement was answered.
    Nothing,
    /// The statement goes on.
    More,
    /// A key is held by this client session, and was met so for the so-manieth time.
    Held {
        by: SessionNo,
        tries: u32,
    },
    /// The statement was done.
    Ok {
        affected: u64,
        found: u64,
        warnings: u16,
        tx: bool,
        auto: bool,
    },
    /// The statement was answered by a result set.
    Rows {
        tx: bool,
        auto: bool,
    },
    /// The statement was refused.
    Err {
        code: u16,
        tx: bool,
    },
}
