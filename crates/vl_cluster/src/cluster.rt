ghost use Rattle.std.specs.Prelude.{◌≡◌, ◌≤◌, [], ◌∷◌, IfOk, Some};
ghost use Rattle.vl_cluster.specs.Lists.{nothing};
ghost use Rattle.vl_cluster.specs.View.{next_event, last_event, stmt_of};
ghost use Rattle.vl_model.specs.Taken.{insert_of, IsTaken};

use crate::ask::Ask;
use crate::pass::Pass;
use crate::session::Session;
use crate::shard::Shard;
use crate::taken::insert_of;
use crate::told::Told;
use crate::what::What;
use crate::{insert, sessions};
use std::alloc::{AllocError, Global};
use std::marker::Model;

/// The last number that an event can have.
const LAST_EVENT: u64 = 4611686018427387903;

/// The shards and the joined sessions. Contracts see the tables that the shards hold, the sessions
/// with their last event numbers, the number of the last event, and the session number given last.
#[derive(Drop)]
pub struct Cluster {
    alloc: Global,
    shards: Vec<Shard>,
    joined: Vec<Session>,
    at: u64,
    named: u32,
}

impl Model for Cluster {
    ghost use Rattle.vl_cluster.specs.View.{View};
    ghost use Rattle.vl_cluster.specs.Numbers.{AreLawful};
    ghost use Rattle.vl_cluster.specs.Lists.{tables_of};
    ghost use Rattle.vl_cluster.specs.Kept.{IsKept};

    ghost Value = { View };

    ghost view = { λ c. record { tables = tables_of c.shards.items; joined = c.joined.items; at = c.at; named = c.named } };

    ghost invariant = { λ c. IsKept c.shards.items × AreLawful c.joined.items c.at };
}

fn next_event(at: u64) -> u64
    requires { at ≤ last_event }
    ensures value { result ≡ next_event at }
    ensures within { result ≤ last_event }
    ensures later { at ≤ result }
{
    if at == LAST_EVENT { LAST_EVENT } else { at + 1 }
}

fn two_shards(alloc: Global) -> Result<Vec<Shard>, AllocError>
    ensures { IfOk result (λ shards. shards.items ≡ nothing ∷ nothing ∷ []) }
{
    let mut shards = Vec::with_capacity(alloc, 2)?;
    shards.push(Shard::new(alloc))?;
    shards.push(Shard::new(alloc))?;
    Ok(shards)
}

fn values_of(ask: Ask) -> (u64, u64)
    requires { IsTaken (stmt_of ask) }
    ensures { insert_of (stmt_of ask) ≡ Some (result.0, result.1) }
{
    match ask {
        Ask::Say(stmt) => match insert_of(&stmt) {
            Some(values) => values,
            None => unreachable!(),
        },
    }
}

impl Cluster {
    ghost use Rattle.std.specs.Prelude.{◌≡◌, ◌≤◌, [], ◌∷◌, IfOk, OnErr};
    ghost use Rattle.vl_model.specs.Tables.{HasKeysOnce};
    ghost use Rattle.vl_catalog.specs.CatalogA.{catalog_a};
    ghost use Rattle.vl_model.specs.Sound.{Sound};
    ghost use Rattle.vl_model.specs.Taken.{IsTaken};
    ghost use Rattle.vl_cluster.specs.Numbers.{AreLawful};
    ghost use Rattle.vl_cluster.specs.View.{Acted, Joins, Leaves, last_event, stmt_of};

    /// Empty shards with no session.
    pub fn open(alloc: Global) -> Result<Cluster, AllocError>
        ensures tables { IfOk result (λ c. c.tables ≡ [] ∷ [] ∷ []) }
        ensures joined { IfOk result (λ c. c.joined ≡ []) }
        ensures at { IfOk result (λ c. c.at ≡ 0) }
        ensures named { IfOk result (λ c. c.named ≡ 0) }
        ensures lawful { IfOk result (λ c. AreLawful c.joined c.at) }
        ensures keys { IfOk result (λ c. HasKeysOnce c.tables) }
        ensures sound { IfOk result (λ c. Sound catalog_a c.tables) }
    {
        let shards = two_shards(alloc)?;
        Ok(Cluster {
            alloc,
            shards,
            joined: Vec::new(alloc),
            at: 0,
            named: 0,
        })
    }

    /// Joins a session, in one event. It has the next number that no joined session has.
    pub fn join(&mut self) -> Result<Pass, AllocError>
        ensures ok { IfOk result (λ pass. Joins self.old pass self.new) }
        ensures err { OnErr result (self.new ≡ self.old) }
        ensures lawful { AreLawful self.new.joined self.new.at }
        ensures keys { HasKeysOnce self.new.tables }
        ensures sound { Sound catalog_a self.new.tables }
    {
        let Some(number) = sessions::fresh_number(self.joined.as_slice(), self.named) else {
            return Err(AllocError);
        };
        let session = Session {
            number,
            at: next_event(self.at),
        };
        self.joined.push(session)?;
        self.at = session.at;
        self.named = number;
        Ok(Pass::new(session))
    }

    /// Runs a statement that the core takes, which `insert_of` tests, in one event. `Stray` is none: no
    /// joined session has the pass's numbers, or the last event number is reached.
    pub fn act(&mut self, pass: Pass, ask: Ask) -> (Pass, Told)
        requires { IsTaken (stmt_of ask) }
        ensures acted { Acted self.old pass (stmt_of ask) result.0 result.1.1 self.new }
        ensures told { result.1.0 ≡ result.0 }
        ensures within { result.0.at ≤ last_event }
        ensures lawful { AreLawful self.new.joined self.new.at }
        ensures keys { HasKeysOnce self.new.tables }
        ensures sound { Sound catalog_a self.new.tables }
    {
        let session = pass.into_session();
        let Some(place) = sessions::find(self.joined.as_slice(), session) else {
            return (Pass::new(session), Told::new(session, What::Stray));
        };
        if self.at == LAST_EVENT {
            return (Pass::new(session), Told::new(session, What::Stray));
        }
        let (id, u) = values_of(ask);
        let reply = insert::insert(self.alloc, self.shards.as_mut_slice(), id, u);
        self.at += 1;
        let next = Session {
            number: session.number,
            at: self.at,
        };
        self.joined[place] = next;
        (Pass::new(next), Told::new(next, What::Reply(reply)))
    }

    /// Takes a session out, in one event. It does nothing for a pass that no joined session has.
    pub fn leave(&mut self, pass: Pass)
        ensures left { Leaves self.old pass self.new }
        ensures lawful { AreLawful self.new.joined self.new.at }
        ensures keys { HasKeysOnce self.new.tables }
        ensures sound { Sound catalog_a self.new.tables }
    {
        let session = pass.into_session();
        if let Some(place) = sessions::find(self.joined.as_slice(), session) {
            self.joined.remove(place);
            self.at = next_event(self.at);
        }
    }
}
