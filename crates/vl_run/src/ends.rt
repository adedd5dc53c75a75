use vl_port::who::Who;
use vl_values::{ShardNo, TxNo};

/// Which shard sessions ended otherwise than by a commit that was done: they were closed, or they died.
#[derive(Clone, Copy, Debug, PartialEq, Eq)]
pub enum Ends {
    /// None.
    Nobody,
    /// This one.
    One { who: Who, shard: ShardNo },
    /// All of a transaction, which is over.
    Whole { tx: TxNo },
}
