use vl_values::reply::Reply;

/// What an event told.
#[derive(Drop)]
pub enum What {
    /// The statement's reply.
    Reply(Reply),
    /// The pass is good for no event here, or the last event number is reached. Nothing has changed.
    Stray,
}
