ghost use Rattle.std.specs.Prelude.{◌≡◌, ℕ, List, ◌∷◌, ◌++◌, All, ◌==◌, false, IfOk, IfSome, IfNone, OnErr};
ghost use Rattle.vl_insert_text.specs.Insert.{Spells, Says};
ghost use Rattle.vl_sql.specs.declared.stmt.Stmt.{Stmt as AStmt};

use crate::insert::insert_into_t1;
use crate::number::number_of;
use std::alloc::{AllocError, Global};
use vl_sql::stmt::Stmt;

/// The statement that a text says, if it says one. Only for that it takes memory.
pub fn statement_of(alloc: Global, text: &[u8]) -> Result<Option<Stmt>, AllocError>
    ensures some { IfOk result (λ found. IfSome found (λ stmt. Says text.now stmt)) }
    ensures none { IfOk result (λ found. IfNone found ((stmt : AStmt) → Says text.now stmt → ⊥)) }
    ensures memory { OnErr result ((id : ℕ) × (u : ℕ) × Spells text.now id u) }
{
    let Some((id, u)) = values_of(text) else {
        return Ok(None);
    };
    match insert_into_t1(alloc, id, u) {
        Ok(stmt) => Ok(Some(stmt)),
        Err(error) => Err(error),
    }
}

// The values of id and u in a text that is a statement.
fn values_of(text: &[u8]) -> Option<(u64, u64)>
    ensures some { IfSome result (λ values. Spells text.now values.0 values.1) }
    ensures none { IfNone result ((id u : ℕ) → Spells text.now id u → ⊥) }
{
    let Some(rest) = without_front(text, b"INSERT INTO t1(id,u) VALUES(") else {
        return None;
    };
    let Some(values) = without_end(rest, b")") else {
        return None;
    };
    let Some((first, second)) = cut_at_comma(values) else {
        return None;
    };
    let Some(id) = number_of(first) else {
        return None;
    };
    let Some(u) = number_of(second) else {
        return None;
    };
    Some((id, u))
}

// What follows a front of the text.
fn without_front<'a>(text: &'a [u8], front: &[u8]) -> Option<&'a [u8]>
    ensures some { IfSome result (λ rest. text.now ≡ front.now ++ rest.now) }
    ensures none { IfNone result ((rest : List ℕ) → text.now ≡ front.now ++ rest → ⊥) }
{
    text.strip_prefix(front)
}

// What stands before an end of the text.
fn without_end<'a>(text: &'a [u8], end: &[u8]) -> Option<&'a [u8]>
    ensures some { IfSome result (λ rest. text.now ≡ rest.now ++ end.now) }
    ensures none { IfNone result ((rest : List ℕ) → text.now ≡ rest ++ end.now → ⊥) }
{
    text.strip_suffix(end)
}

// The parts before and behind the first comma.
fn cut_at_comma(text: &[u8]) -> Option<(&[u8], &[u8])>
    ensures some { IfSome result (λ parts. text.now ≡ parts.0.now ++ 44 ∷ parts.1.now) }
    ensures first { IfSome result (λ parts. All (λ b. (b == 44) ≡ false) parts.0.now) }
    ensures none { IfNone result ((front back : List ℕ) → text.now ≡ front ++ 44 ∷ back → ⊥) }
{
    for (at, byte) in text.iter().enumerate() {
        if *byte == b',' {
            return Some((&text[..at], &text[at + 1..]));
        }
    }
    None
}
