ghost use Rattle.std.specs.Prelude.{◌≡◌, ℕ, List};
ghost use Rattle.vl_token.specs.Lexical.{tokens_in};
ghost use Rattle.vl_sql.specs.Grammar.{IsStatement};
ghost use Rattle.vl_sql.specs.declared.stmt.Stmt.{Stmt as AStmt};

/// A text is one statement at most.
pub fn one_statement()
    ensures { (text : List ℕ) (s q : AStmt) → IsStatement 0 s (tokens_in text) → IsStatement 0 q (tokens_in text) → s ≡ q }
{}
