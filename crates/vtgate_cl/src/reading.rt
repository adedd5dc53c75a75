ghost use Rattle.std.specs.Prelude.{◌≡◌, ℕ, List, ◌++◌, IsTrue, ◌↔◌, IfOk, IfSome, IfNone};
ghost use Rattle.vl_model.specs.ScriptLine.{Asks, IsSkipped};
ghost use Rattle.vl_sql.specs.declared.stmt.Stmt.{Stmt as AStmt};
ghost use Rattle.vtgate_cl.specs.Line.{IsLine};
ghost use Rattle.vtgate_cl.specs.declared.script_line.ScriptLine.{ScriptLine as ALine};

use crate::script_line::ScriptLine;
use std::alloc::{AllocError, Global};
use vl_insert_text::statement_of;
use vl_sql::stmt::Stmt;

/// The line that a text says, or none where it is outside the grammar.
pub fn line_of(alloc: Global, text: &[u8]) -> Result<Option<ScriptLine>, AllocError>
    ensures some { IfOk result (λ found. IfSome found (λ line. IsLine text.now line)) }
    ensures none { IfOk result (λ found. IfNone found ((line : ALine) → IsLine text.now line → ⊥)) }
{
    if is_skipped(text) {
        return Ok(Some(ScriptLine::Skipped));
    }
    match asked(alloc, text) {
        Ok(Some(stmt)) => Ok(Some(ScriptLine::Run(stmt))),
        Ok(None) => Ok(None),
        Err(error) => Err(error),
    }
}

fn is_skipped(text: &[u8]) -> bool
    ensures { IsTrue result ↔ IsSkipped text.now }
{
    match text {
        [] => true,
        [first, ..] => *first == b'#',
    }
}

// The statement of a `run` line.
fn asked(alloc: Global, text: &[u8]) -> Result<Option<Stmt>, AllocError>
    ensures some { IfOk result (λ found. IfSome found (λ stmt. Asks text.now stmt)) }
    ensures none { IfOk result (λ found. IfNone found ((stmt : AStmt) → Asks text.now stmt → ⊥)) }
{
    let Some(said) = without_front(text, b"run s1 ") else {
        return Ok(None);
    };
    statement_of(alloc, said)
}

// What follows a front of the text.
fn without_front<'a>(text: &'a [u8], front: &[u8]) -> Option<&'a [u8]>
    ensures some { IfSome result (λ rest. text.now ≡ front.now ++ rest.now) }
    ensures none { IfNone result ((rest : List ℕ) → text.now ≡ front.now ++ rest → ⊥) }
{
    text.strip_prefix(front)
}
