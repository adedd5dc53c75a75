ghost use Rattle.std.specs.Prelude.{◌≡◌, Some};
ghost use Rattle.vl_port.specs.View.{is_who, is_group};
ghost use Rattle.vl_port.specs.Life.{lives_in};
ghost use Rattle.vl_shard.specs.Seats.{is_of, is_live_of};

use crate::seat::Seat;
use vl_port::fate::Fate;
use vl_port::opened::Opened;
use vl_port::who::Who;
use vl_values::SessionNo;
use vl_values::group::Group;

fn is_same_group(group: Option<Group>, other: Option<Group>) -> bool
    ensures { result ≡ is_group group other }
{
    match (group, other) {
        (None, None) => true,
        (Some(Group::Pre), Some(Group::Pre)) => true,
        (Some(Group::Main), Some(Group::Main)) => true,
        (Some(Group::Post), Some(Group::Post)) => true,
        _ => false,
    }
}

/// Whether these are one shard session.
pub fn is_same(who: &Who, other: &Who) -> bool
    ensures { result ≡ is_who who.now other.now }
{
    who.session == other.session && who.tx == other.tx && is_same_group(who.group, other.group)
}

/// Whether the seat is taken by this shard session.
pub fn is_seat_of(seat: &Option<Seat>, who: &Who) -> bool
    ensures { result ≡ is_of who.now seat.now }
{
    match seat {
        Some(seat) => is_same(&seat.who, who),
        None => false,
    }
}

fn lives_in(incarnation: u64, opened: Opened) -> bool
    ensures { result ≡ lives_in incarnation (Some opened) }
{
    match opened.fate {
        Fate::Live => opened.incarnation == incarnation,
        Fate::Dropped | Fate::Cut => false,
    }
}

/// Whether the seat is that of a live session of this client session and group, on a shard of this
/// incarnation.
pub fn is_live_of(seat: &Option<Seat>, session: SessionNo, group: Group, incarnation: u64) -> bool
    ensures { result ≡ is_live_of session group incarnation seat.now }
{
    match seat {
        Some(seat) => {
            seat.who.session == session
                && is_same_group(seat.who.group, Some(group))
                && lives_in(incarnation, seat.opened)
        }
        None => false,
    }
}
