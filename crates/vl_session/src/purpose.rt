/// Why a transaction is committed, which says what its reply tells and what follows.
#[derive(Clone, Copy, Debug, PartialEq, Eq)]
pub enum Purpose {
    /// It is that of a single statement, which has come to its end.
    Statement,
    /// COMMIT was said.
    Commit,
    /// BEGIN was said: another transaction opens with the reply.
    Begin,
    /// SET autocommit=1 was said.
    Autocommit,
}
