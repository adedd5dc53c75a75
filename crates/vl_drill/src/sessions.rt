ghost use Rattle.std.specs.Prelude.{◌≡◌, ◌<◌, ◌≤◌, IfSome, length, position};
ghost use Rattle.vl_drill.specs.Turns.{first_from, next_busy};

use crate::seen::Seen;

fn busy_place(seen: &[Seen]) -> Option<usize>
    ensures place { result ≡ position (λ s. s.busy) seen.now }
    ensures within { IfSome result (λ i. i < length seen.now) }
{
    seen.iter().position(|one| one.busy)
}

fn tx_place(seen: &[Seen]) -> Option<usize>
    ensures place { result ≡ position (λ s. s.tx) seen.now }
    ensures within { IfSome result (λ i. i < length seen.now) }
{
    seen.iter().position(|one| one.tx)
}

fn first_busy(seen: &[Seen; 8], from: u8) -> Option<u8>
    requires { from ≤ 8 }
    ensures session { result ≡ first_from (λ s. s.busy) from seen.now }
    ensures within { IfSome result (λ session. session < 8) }
{
    let (_, rest) = seen.split_at(usize::from(from));
    match busy_place(rest) {
        Some(place) => Some(from + place as u8),
        None => None,
    }
}

/// The first session, from this number on, that has an open transaction.
pub fn first_open(seen: &[Seen; 8], from: u8) -> Option<u8>
    requires { from ≤ 8 }
    ensures session { result ≡ first_from (λ s. s.tx) from seen.now }
    ensures within { IfSome result (λ session. session < 8) }
{
    let (_, rest) = seen.split_at(usize::from(from));
    match tx_place(rest) {
        Some(place) => Some(from + place as u8),
        None => None,
    }
}

/// The next session with a statement in progress: behind the last come the first again.
pub fn next_busy(seen: &[Seen; 8], from: u8) -> Option<u8>
    requires { from ≤ 8 }
    ensures session { result ≡ next_busy from seen.now }
    ensures within { IfSome result (λ session. session < 8) }
{
    match first_busy(seen, from) {
        Some(session) => Some(session),
        None => first_busy(seen, 0),
    }
}
