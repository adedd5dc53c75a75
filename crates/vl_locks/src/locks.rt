ghost use Rattle.std.specs.Prelude.{◌≡◌, ℕ, List, [], Some, None, All, OnOk, OnErr, IfOk, IfSome, IfNone};
ghost use Rattle.vl_values.specs.declared.key.Key.{Key};
ghost use Rattle.vl_values.specs.Keyed.{InKeyOrder};
ghost use Rattle.vl_locks.specs.Locks.{holder_of, other_than, without, with_holder};
ghost use Rattle.vl_locks.specs.Take.{IsFirstHeld, IsFreeFor, Takes, with_all};
ghost use Rattle.vl_locks.specs.Taking.{IsOldBut, Noted, WereFree};

use crate::place::place_of;
use crate::take::Take;
use std::alloc::{AllocError, Global};
use std::marker::Model;
use vl_values::ConnNo;
use vl_values::key::Key;

/// The held keys of a shard, each with the connection that holds it, in key order.
#[derive(Debug, Drop)]
pub struct Locks {
    alloc: Global,
    holds: Vec<(Key, ConnNo)>,
}

impl Model for Locks {
    ghost use Rattle.std.specs.Prelude.{ℕ, List};
    ghost use Rattle.vl_values.specs.declared.key.Key.{Key as AKey};
    ghost use Rattle.vl_values.specs.Keyed.{InKeyOrder};

    ghost Value = { List (AKey × ℕ) };

    ghost view = { λ l. l.holds.items };

    ghost invariant = { λ l. InKeyOrder l.holds.items };
}

impl Locks {
    /// No key is held.
    pub fn new(alloc: Global) -> Locks
        ensures { result ≡ [] }
    {
        Locks {
            alloc,
            holds: Vec::new(alloc),
        }
    }

    /// The connection that holds a key.
    pub fn holder(&self, key: &Key) -> Option<ConnNo>
        ensures holder { result ≡ holder_of self.now key.now }
        ensures order { InKeyOrder self.now }
    {
        match place_of(self.holds.as_slice(), key) {
            Ok(place) => Some(self.holds[place].1),
            Err(_) => None,
        }
    }

    /// Takes a key for a connection, unless another one holds it.
    pub fn take(&mut self, key: &Key, conn: ConnNo) -> Result<Take, AllocError>
        ensures ok { IfOk result (λ take. Takes self.old key.now conn take self.new) }
        ensures err { OnErr result (self.new ≡ self.old) }
        ensures order { InKeyOrder self.new }
    {
        match place_of(self.holds.as_slice(), key) {
            Ok(place) => {
                let by = self.holds[place].1;
                if by != conn {
                    return Ok(Take::Held { by });
                }
                Ok(Take::Taken { fresh: false })
            }
            Err(place) => {
                let key = key.copy(self.alloc)?;
                self.holds.insert(place, (key, conn))?;
                Ok(Take::Taken { fresh: true })
            }
        }
    }

    /// Lets go of all keys that a connection holds.
    pub fn release(&mut self, conn: ConnNo)
        ensures holds { self.new ≡ without conn self.old }
        ensures holders { (key : Key) → holder_of self.new key ≡ other_than conn (holder_of self.old key) }
        ensures order { InKeyOrder self.new }
    {
        self.holds.retain(|hold| hold.1 != conn);
    }

    /// Lets go of one key that a connection holds.
    pub fn untake(&mut self, key: &Key, conn: ConnNo)
        requires { holder_of self.old key.now ≡ Some conn }
        ensures holders { (other : Key) → holder_of self.new other ≡ with_holder (holder_of self.old) key.now None other }
        ensures order { InKeyOrder self.new }
    {
        if let Ok(place) = place_of(self.holds.as_slice(), key) {
            self.holds.remove(place);
        }
    }

    /// The first of these keys that another connection holds: its place, and the holder.
    pub fn first_held(&self, keys: &[Key], conn: ConnNo) -> Option<(usize, ConnNo)>
        ensures held { IfSome result (λ held. IsFirstHeld self.now keys.now conn held.0 held.1) }
        ensures free { IfNone result (All (IsFreeFor self.now conn) keys.now) }
    {
        for (place, key) in keys.iter().enumerate() {
            if let Some(by) = self.holder(key)
                && by != conn
            {
                return Some((place, by));
            }
        }
        None
    }

    // Takes one of several keys, none of which another connection holds, and notes it if it is fresh.
    fn take_noted(
        &mut self,
        key: &Key,
        conn: ConnNo,
        fresh: &mut Vec<Key>,
    ) -> Result<(), AllocError>
        requires { IsFreeFor self.old conn key.now }
        ensures ok { OnOk result (Noted self.old fresh.old.items key.now conn self.new fresh.new.items) }
        ensures err { OnErr result (self.new ≡ self.old) }
        ensures err_fresh { OnErr result (fresh.new.items ≡ fresh.old.items) }
        ensures order { InKeyOrder self.new }
    {
        if self.holder(key).is_some() {
            return Ok(());
        }
        let copy = key.copy(self.alloc)?;
        fresh.push(copy)?;
        if let Err(error) = self.take(key, conn) {
            let _ = fresh.pop();
            return Err(error);
        }
        Ok(())
    }

    // Lets go of the fresh keys.
    fn untake_all(&mut self, fresh: &[Key], conn: ConnNo)
        requires { InKeyOrder self.old }
        ensures holders { (before : List (Key × ℕ)) → WereFree before fresh.now → IsOldBut before fresh.now conn self.old → (key : Key) → holder_of self.new key ≡ holder_of before key }
        ensures order { InKeyOrder self.new }
    {
        for key in fresh {
            if self.holder(key) == Some(conn) {
                self.untake(key, conn);
            }
        }
    }

    /// Takes all these keys for a connection, or none where memory is wanting.
    pub fn take_all(&mut self, keys: &[Key], conn: ConnNo) -> Result<(), AllocError>
        requires { All (IsFreeFor self.old conn) keys.now }
        ensures ok { OnOk result ((other : Key) → holder_of self.new other ≡ with_all (holder_of self.old) keys.now conn other) }
        ensures err { OnErr result (self.new ≡ self.old) }
        ensures order { InKeyOrder self.new }
    {
        let mut fresh = Vec::new(self.alloc);
        for key in keys {
            if let Err(error) = self.take_noted(key, conn, &mut fresh) {
                self.untake_all(fresh.as_slice(), conn);
                return Err(error);
            }
        }
        Ok(())
    }
}
