use vl_sql::stmt::Stmt;

/// What comes next.
#[derive(Debug, Drop)]
pub enum Turn {
    /// The session, counted from 0, makes a step of its statement in progress.
    Step(u8),
    /// The session, counted from 0, asks this statement.
    Ask(u8, Stmt),
    /// Nothing: all was asked and answered, and no transaction is open.
    End,
}
