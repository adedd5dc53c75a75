use vl_port::who::Who;
use vl_sql::stmt::Stmt;
use vl_values::ShardNo;

/// What an event was asked for.
#[derive(Drop)]
pub enum Request {
    /// A client session joins.
    Join,
    /// It says a statement.
    Say(Stmt),
    /// It is set back to its beginning.
    Reset,
    /// Its statement in progress goes on.
    Step,
    /// It leaves.
    Leave,
    /// A shard session of it is killed.
    Kill { who: Who, shard: ShardNo },
}
