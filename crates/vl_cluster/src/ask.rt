use vl_sql::stmt::Stmt;

/// What a session asks of the core.
#[derive(Debug, Drop)]
pub enum Ask {
    /// To run a statement.
    Say(Stmt),
}
