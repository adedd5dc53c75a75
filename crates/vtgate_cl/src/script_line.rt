use vl_sql::stmt::Stmt;

/// A line of a script.
#[derive(Debug, Drop)]
pub enum ScriptLine {
    /// Empty, or a comment: a line that begins with `#`.
    Skipped,
    /// `run s1` and a statement.
    Run(Stmt),
}
