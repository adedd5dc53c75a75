ghost use Rattle.std.specs.Prelude.{◌≡◌, ◌↔◌, ℕ, List, [], Some, None, OnOk, OnErr, IfOk, IsTrue, Contains};
ghost use Rattle.std.specs.Option.{option_copied};
ghost use Rattle.vl_values.specs.declared.key.Key.{Key};
ghost use Rattle.vl_values.specs.declared.value.Value.{Value};
ghost use Rattle.vl_values.specs.Keyed.{AreInOrder, InKeyOrder};
ghost use Rattle.vl_rows.specs.Versions.{committed_at, pending_at, standing_at, version_for, without, other_than, IsFreeFor, changed_to, with_change, has_room, SameVersions, IsInOrder};
ghost use Rattle.vl_rows.specs.Matching.{IsFound, has_match};

use crate::entry::{abandon_all, settle_all, write_entry};
use crate::find;
use crate::place::place_of;
use crate::slot::Slot;
use std::alloc::{AllocError, Global};
use std::marker::Model;
use vl_values::ConnNo;
use vl_values::key::Key;
use vl_values::pred::Pred;
use vl_values::row::Row;

/// The rows of a shard: for each key a committed and a pending version, or either, or none.
#[derive(Debug, Drop)]
pub struct Rows {
    alloc: Global,
    slots: Vec<(Key, Slot)>,
}

impl Model for Rows {
    ghost use Rattle.vl_values.specs.Keyed.{InKeyOrder};
    ghost use Rattle.vl_rows.specs.Versions.{Versions};

    ghost Value = { Versions };

    ghost use Rattle.vl_rows.specs.Slots.{versions_of};

    ghost view = { λ r. versions_of r.slots.items };

    ghost invariant = { λ r. InKeyOrder r.slots.items };
}

fn copy_of(alloc: Global, row: Option<&Row>) -> Result<Option<Row>, AllocError>
    ensures { IfOk result (λ copy. copy ≡ option_copied row.entry) }
{
    match row {
        None => Ok(None),
        Some(row) => {
            let row = row.copy(alloc)?;
            Ok(Some(row))
        }
    }
}

impl Rows {
    /// No key has a version.
    pub fn new(alloc: Global) -> Rows
        ensures committed { result.committed ≡ [] }
        ensures pending { result.pending ≡ [] }
    {
        Rows {
            alloc,
            slots: Vec::new(alloc),
        }
    }

    /// The version that a connection sees, or, with no connection, the committed one.
    pub fn get(&self, key: &Key, reader: Option<ConnNo>) -> Result<Option<Row>, AllocError>
        ensures { IfOk result (λ row. row ≡ standing_at self.now reader key.now) }
    {
        match place_of(self.slots.as_slice(), key) {
            Ok(place) => copy_of(self.alloc, self.slots[place].1.standing(reader)),
            Err(_) => Ok(None),
        }
    }

    /// The rows that the reader sees and the predicate matches, in key order.
    pub fn find(&self, pred: &Pred, reader: Option<ConnNo>) -> Result<Vec<(Key, Row)>, AllocError>
        ensures order { IfOk result (λ rows. InKeyOrder rows.items) }
        ensures exact { IfOk result (λ rows. (entry : Key × List Value) → Contains rows.items entry ↔ IsFound self.now reader pred.now entry) }
    {
        find::found(self.alloc, self.slots.as_slice(), pred, reader)
    }

    /// The keys of which the committed or the pending version matches, in key order.
    pub fn matching(&self, pred: &Pred) -> Result<Vec<Key>, AllocError>
        ensures order { IfOk result (λ keys. AreInOrder keys.items) }
        ensures exact { IfOk result (λ keys. (key : Key) → Contains keys.items key ↔ IsTrue (has_match self.now pred.now key)) }
    {
        find::matching(self.alloc, self.slots.as_slice(), pred)
    }

    /// Whether no other connection has a pending version of the key.
    pub fn is_free_for(&self, key: &Key, conn: ConnNo) -> bool
        ensures { IsTrue result ↔ IsFreeFor self.now conn key.now }
    {
        match place_of(self.slots.as_slice(), key) {
            Ok(place) => self.slots[place].1.is_free_for(conn),
            Err(_) => true,
        }
    }

    /// Makes room for a write of this key, which then takes no memory. Room that there was stays.
    pub fn reserve(&mut self, key: &Key) -> Result<(), AllocError>
        ensures room { OnOk result (IsTrue (has_room self.new key.now)) }
        ensures stays { (other : Key) → IsTrue (has_room self.old other) → IsTrue (has_room self.new other) }
        ensures same { SameVersions self.old self.new }
        ensures order { IsInOrder self.new }
    {
        if let Err(place) = place_of(self.slots.as_slice(), key) {
            let key = key.copy(self.alloc)?;
            self.slots.insert(place, (key, Slot::empty()))?;
        }
        Ok(())
    }

    /// Sets the pending version of a key for which there is room. `None` removes the row.
    pub fn write(&mut self, key: &Key, row: Option<Row>, conn: ConnNo)
        requires room { IsTrue (has_room self.old key.now) }
        requires free { IsFreeFor self.old conn key.now }
        ensures committed { self.new.committed ≡ self.old.committed }
        ensures pending { (other : Key) → pending_at self.new other ≡ with_change (pending_at self.old) key.now (changed_to conn row) other }
        ensures room { self.new.room ≡ self.old.room }
        ensures order { IsInOrder self.new }
    {
        if let Ok(place) = place_of(self.slots.as_slice(), key) {
            write_entry(&mut self.slots[place], row, conn);
        }
    }

    /// Sets the pending version of a key. `None` removes the row.
    pub fn put(&mut self, key: &Key, row: Option<&Row>, conn: ConnNo) -> Result<(), AllocError>
        requires { IsFreeFor self.old conn key.now }
        ensures committed { self.new.committed ≡ self.old.committed }
        ensures pending { OnOk result ((other : Key) → pending_at self.new other ≡ with_change (pending_at self.old) key.now (changed_to conn (option_copied row.entry)) other) }
        ensures err { OnErr result (self.new.pending ≡ self.old.pending) }
        ensures order { IsInOrder self.new }
    {
        let row = copy_of(self.alloc, row)?;
        self.reserve(key)?;
        self.write(key, row, conn);
        Ok(())
    }

    /// Makes the pending versions of a connection the committed ones.
    pub fn settle(&mut self, conn: ConnNo)
        ensures committed { (key : Key) → committed_at self.new key ≡ version_for (Some conn) (pending_at self.old key) (committed_at self.old key) }
        ensures pending { self.new.pending ≡ without conn self.old.pending }
        ensures changes { (key : Key) → pending_at self.new key ≡ other_than conn (pending_at self.old key) }
        ensures order { IsInOrder self.new }
    {
        settle_all(self.slots.as_mut_slice(), conn);
        self.slots.retain(|entry| !entry.1.is_empty());
    }

    /// Drops the pending versions of a connection.
    pub fn abandon(&mut self, conn: ConnNo)
        ensures committed { self.new.committed ≡ self.old.committed }
        ensures pending { self.new.pending ≡ without conn self.old.pending }
        ensures changes { (key : Key) → pending_at self.new key ≡ other_than conn (pending_at self.old key) }
        ensures order { IsInOrder self.new }
    {
        abandon_all(self.slots.as_mut_slice(), conn);
        self.slots.retain(|entry| !entry.1.is_empty());
    }
}
