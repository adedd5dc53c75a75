ghost use Rattle.std.specs.Prelude.{◌≡◌, ℕ, List, [], IsTrue, IfOk, OnErr, IfSome, IfNone, map, position, length, Some, None, ◌<◌, true, false};
ghost use Rattle.std.specs.Option.{is_some};
ghost use Rattle.vl_port.specs.declared.who.Who.{Who as AWho};
ghost use Rattle.vl_port.specs.Life.{lives_in, loss_in, why_lost};
ghost use Rattle.vl_shard.specs.declared.seat.Seat.{Seat as ASeat};
ghost use Rattle.vl_shard.specs.Seats.{seat_at, session_of, IsAbsent, IsPlaceFor, SameSeats, HasSat, left_by, lost_by, is_live_of, is_of, IsNumbered, IsOnce};

use crate::naming::{is_live_of, is_same, is_seat_of};
use crate::seat::Seat;
use std::alloc::{AllocError, Global};
use std::marker::Model;
use vl_port::fate::Fate;
use vl_port::opened::Opened;
use vl_port::who::Who;
use vl_values::group::Group;
use vl_values::lost_why::LostWhy;
use vl_values::{ConnNo, SessionNo};

/// The shard sessions that were opened and haven't ended, lost or not, each in a seat whose place is its
/// number.
#[derive(Debug, Drop)]
pub struct Seats {
    seats: Vec<Option<Seat>>,
}

impl Model for Seats {
    ghost use Rattle.std.specs.Prelude.{List};
    ghost use Rattle.std.specs.declared.option.Option.{Option};
    ghost use Rattle.vl_shard.specs.declared.seat.Seat.{Seat as ASeat};

    ghost Value = { List (Option ASeat) };

    ghost use Rattle.vl_shard.specs.Seats.{IsNumbered, IsOnce};

    ghost view = { λ s. s.seats.items };

    ghost invariant = { λ s. IsOnce s.seats.items × IsNumbered s.seats.items };
}

impl Seats {
    /// No session is open.
    pub fn new(alloc: Global) -> Seats
        ensures { result ≡ [] }
    {
        Seats {
            seats: Vec::new(alloc),
        }
    }

    // The place of a session's seat.
    fn place_of(&self, who: &Who) -> Option<usize>
        ensures seated { IfSome result (λ place. (place < length self.now) × (is_of who.now (seat_at self.now place) ≡ true)) }
        ensures absent { IfNone result (IsAbsent self.now who.now) }
        ensures once { IsOnce self.now }
        ensures numbered { IsNumbered self.now }
    {
        self.seats.iter().position(|seat| is_seat_of(seat, who))
    }

    /// The number of an open session.
    pub fn find(&self, who: &Who) -> Option<ConnNo>
        ensures seated { IfSome result (IsPlaceFor self.now who.now) }
        ensures taken { IfSome result (λ conn. IsTrue (is_some (seat_at self.now conn))) }
        ensures absent { IfNone result (IsAbsent self.now who.now) }
    {
        match self.place_of(who) {
            Some(place) => Some(place as ConnNo),
            None => None,
        }
    }

    // The place of a free seat.
    fn free_place(&self) -> Option<usize>
        ensures numbered { IsNumbered self.now }
        ensures free { IfSome result (λ place. (place < length self.now) × (seat_at self.now place ≡ None)) }
    {
        self.seats.iter().position(|seat| seat.is_none())
    }

    /// The number of a session: its own where it is open, else that of a free seat. Nobody sits down.
    pub fn reserve(&mut self, who: &Who) -> Result<ConnNo, AllocError>
        ensures place { IfOk result (IsPlaceFor self.new who.now) }
        ensures absent { OnErr result (session_of self.old who.now ≡ None) }
        ensures same { SameSeats self.old self.new }
    {
        if let Some(conn) = self.find(who) {
            return Ok(conn);
        }
        if let Some(place) = self.free_place() {
            return Ok(place as ConnNo);
        }
        // There is no memory for more sessions than 32 bits can number.
        let Ok(conn) = ConnNo::try_from(self.seats.len()) else {
            return Err(AllocError);
        };
        self.seats.push(None)?;
        Ok(conn)
    }

    /// Gives the session this seat, unless it has it.
    pub fn sit(&mut self, who: Who, conn: ConnNo, incarnation: u64)
        requires { IsPlaceFor self.old who conn }
        ensures { HasSat self.old who incarnation conn self.new }
    {
        let place = conn as usize;
        if self.seats[place].is_none() {
            let opened = Opened {
                incarnation,
                fate: Fate::Live,
            };
            self.seats[place] = Some(Seat { who, opened });
        }
    }

    /// The client session of an open session.
    pub fn session(&self, conn: ConnNo) -> SessionNo
        ensures { (seat : ASeat) → seat_at self.now conn ≡ Some seat → result ≡ seat.who.session }
    {
        match self.seats.get(conn as usize) {
            Some(Some(seat)) => seat.who.session,
            _ => 0,
        }
    }

    /// Why a session is lost on a shard of this incarnation; none where it isn't, or isn't open.
    pub fn loss(&self, who: &Who, incarnation: u64) -> Option<LostWhy>
        ensures { result ≡ loss_in incarnation (session_of self.now who.now) }
    {
        let place = self.place_of(who);
        match place {
            Some(place) => match &self.seats[place] {
                Some(seat) => why_lost(seat.opened, incarnation),
                None => None,
            },
            None => None,
        }
    }

    /// The first live shard session of a client session and group, on a shard of this incarnation.
    pub fn live(&self, session: SessionNo, group: Group, incarnation: u64) -> Option<Who>
        ensures session { IfSome result (λ who. who.session ≡ session) }
        ensures group { IfSome result (λ who. who.group ≡ Some group) }
        ensures live { IfSome result (λ who. lives_in incarnation (session_of self.now who) ≡ true) }
        ensures none { IfNone result ((who : AWho) → who.session ≡ session → who.group ≡ Some group → lives_in incarnation (session_of self.now who) ≡ false) }
    {
        let place = self.live_place(session, group, incarnation);
        match place {
            Some(place) => match &self.seats[place] {
                Some(seat) => Some(seat.who),
                None => None,
            },
            None => None,
        }
    }

    // The place of that session's seat.
    fn live_place(&self, session: SessionNo, group: Group, incarnation: u64) -> Option<usize>
        ensures live { IfSome result (λ place. (place < length self.now) × (is_live_of session group incarnation (seat_at self.now place) ≡ true)) }
        ensures none { IfNone result ((place : ℕ) → is_live_of session group incarnation (seat_at self.now place) ≡ false) }
        ensures once { IsOnce self.now }
    {
        self.seats
            .iter()
            .position(|seat| is_live_of(seat, session, group, incarnation))
    }

    /// The session is lost from now on, and keeps its seat.
    pub fn lose(&mut self, who: &Who, fate: Fate)
        ensures { self.new ≡ map (lost_by fate who.now) self.old }
    {
        lose_all(self.seats.as_mut_slice(), who, fate);
    }

    /// The session's seat is free from now on.
    pub fn leave(&mut self, who: &Who)
        ensures { self.new ≡ map (left_by who.now) self.old }
    {
        leave_all(self.seats.as_mut_slice(), who);
    }
}

fn leave_seat(seat: &mut Option<Seat>, who: &Who)
    ensures { seat.new ≡ left_by who.now seat.old }
{
    if is_seat_of(seat, who) {
        *seat = None;
    }
}

fn leave_all(seats: &mut [Option<Seat>], who: &Who)
    ensures { seats.new ≡ map (left_by who.now) seats.old }
{
    for seat in seats.iter_mut() {
        leave_seat(seat, who);
    }
}

fn lose_seat(seat: &mut Option<Seat>, who: &Who, fate: Fate)
    ensures { seat.new ≡ lost_by fate who.now seat.old }
{
    if let Some(seat) = seat
        && is_same(&seat.who, who)
    {
        seat.opened.fate = fate;
    }
}

fn lose_all(seats: &mut [Option<Seat>], who: &Who, fate: Fate)
    ensures { seats.new ≡ map (lost_by fate who.now) seats.old }
{
    for seat in seats.iter_mut() {
        lose_seat(seat, who, fate);
    }
}

// Why a session is lost that was opened so; a Drop comes before a restart.
fn why_lost(opened: Opened, current: u64) -> Option<LostWhy>
    ensures { result ≡ why_lost opened.fate opened.incarnation current }
{
    match opened.fate {
        Fate::Live => {
            if opened.incarnation == current {
                None
            } else {
                Some(LostWhy::Restarted {
                    had: opened.incarnation,
                    current,
                })
            }
        }
        Fate::Dropped => Some(LostWhy::Dropped),
        Fate::Cut => Some(LostWhy::Link),
    }
}
