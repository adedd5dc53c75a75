ghost use Rattle.std.specs.Prelude.{◌≡◌, ◌<◌, ℕ, suc, IfSome, IfNone, Contains, length, slice_index_or, IsTrue, ◌↔◌};
ghost use Rattle.vl_cluster.specs.Numbers.{next_number, number_behind, IsFree, IsNextFree, last_number};

use crate::session::Session;

/// The place of a session in the list, by its number and its last event number.
pub fn find(joined: &[Session], session: Session) -> Option<usize>
    ensures some { IfSome result (λ i. (i < length joined.now) × (slice_index_or joined.now i session ≡ session)) }
    ensures none { IfNone result (Contains joined.now session → ⊥) }
{
    joined.iter().position(|one| *one == session)
}

fn is_free(joined: &[Session], number: u32) -> bool
    ensures { IsTrue result ↔ IsFree joined.now number }
{
    joined.iter().all(|session| session.number != number)
}

fn next_number(number: u32) -> u32
    ensures { result ≡ next_number number }
{
    if number == u32::MAX { 1 } else { number + 1 }
}

/// The first number behind `named` that no session of the list has; none where the list has them all.
pub fn fresh_number(joined: &[Session], named: u32) -> Option<u32>
    ensures some { IfSome result (λ number. IsNextFree joined.now named number) }
    ensures none { IfNone result ((k : ℕ) → k < last_number → IsFree joined.now (number_behind (suc k) named) → ⊥) }
{
    let mut number = named;
    for _ in 0..u32::MAX {
        number = next_number(number);
        if is_free(joined, number) {
            return Some(number);
        }
    }
    None
}
