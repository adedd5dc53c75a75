ghost use Rattle.std.specs.Prelude.{◌≡◌, ◌≤◌};
ghost use Rattle.vl_cluster.specs.Numbers.{last_event};

use crate::session::Session;
use std::marker::Model;

/// The leave for a session's next event. It isn't copied and can't be dropped: `act` gives the next
/// one, and `leave` takes it back.
pub struct Pass {
    session: Session,
}

impl Model for Pass {
    ghost use Rattle.std.specs.Prelude.{◌≤◌};
    ghost use Rattle.vl_cluster.specs.Numbers.{last_event};
    ghost use Rattle.vl_cluster.specs.declared.session.Session.{Session as ASession};

    ghost Value = { ASession };

    ghost view = { λ p. p.session };

    ghost invariant = { λ p. p.session.at ≤ last_event };
}

impl Pass {
    /// The session's number.
    pub fn session(&self) -> u32
        ensures { result ≡ self.now.number }
    {
        self.session.number
    }

    /// The number of the last event that this session saw.
    pub fn at(&self) -> u64
        ensures value { result ≡ self.now.at }
        ensures within { result ≤ last_event }
    {
        self.session.at
    }

    pub(crate) fn new(session: Session) -> Pass
        requires { session.at ≤ last_event }
        ensures { result ≡ session }
    {
        Pass { session }
    }

    pub(crate) fn into_session(self) -> Session
        ensures value { result ≡ self }
        ensures within { result.at ≤ last_event }
    {
        let Pass { session } = self;
        session
    }
}
