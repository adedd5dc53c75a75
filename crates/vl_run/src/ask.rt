use vl_sql::stmt::Stmt;

/// What a joined client session asks of the core.
#[derive(Drop)]
pub enum Ask {
    /// To run a statement.
    Say(Stmt),
    /// To roll back, and to set autocommit on.
    Reset,
    /// To go on with the statement in progress.
    Step,
}
