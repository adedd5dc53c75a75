ghost use Rattle.std.specs.Prelude.{◌≡◌};

use crate::session::Session;
use crate::what::What;
use std::marker::Model;

/// What an event told its session: the event's number, the session and the answer.
#[derive(Drop)]
pub struct Told {
    session: Session,
    what: What,
}

impl Model for Told {
    ghost use Rattle.vl_cluster.specs.declared.session.Session.{Session as ASession};
    ghost use Rattle.vl_cluster.specs.declared.what.What.{What as AWhat};

    ghost Value = { ASession × AWhat };

    ghost view = { λ t. (t.session, t.what) };
}

impl Told {
    /// The event's number; where nothing happened, that of the session's last event.
    pub fn at(&self) -> u64
        ensures { result ≡ self.now.0.at }
    {
        self.session.at
    }

    /// The session that was answered.
    pub fn session(&self) -> u32
        ensures { result ≡ self.now.0.number }
    {
        self.session.number
    }

    /// What it was answered.
    pub fn what(&self) -> &What
        ensures { result.now ≡ self.now.1 }
    {
        &self.what
    }

    pub(crate) fn new(session: Session, what: What) -> Told
        ensures { result ≡ (session, what) }
    {
        Told { session, what }
    }
}
