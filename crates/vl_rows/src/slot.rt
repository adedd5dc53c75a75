ghost use Rattle.std.specs.Prelude.{◌≡◌, ◌↔◌, IsTrue, None};
ghost use Rattle.std.specs.Option.{option_copied};
ghost use Rattle.vl_rows.specs.Versions.{other_than, version_for};
ghost use Rattle.vl_rows.specs.Slots.{empty_slot, is_empty_slot, settled_slot, abandoned_slot, written_slot};

use crate::change::Change;
use vl_values::ConnNo;
use vl_values::row::Row;

/// The versions of one key.
#[derive(Debug, Drop)]
pub struct Slot {
    pub committed: Option<Row>,
    pub pending: Option<Change>,
}

impl Slot {
    /// A slot with neither version.
    pub fn empty() -> Slot
        ensures { result ≡ empty_slot }
    {
        Slot {
            committed: None,
            pending: None,
        }
    }

    /// Whether it has neither version.
    pub fn is_empty(&self) -> bool
        ensures { result ≡ is_empty_slot self.now }
    {
        self.committed.is_none() && self.pending.is_none()
    }

    /// The version that a connection sees, or that all see who are no connection.
    pub fn standing(&self, reader: Option<ConnNo>) -> Option<&Row>
        ensures { option_copied result ≡ version_for reader self.now.pending self.now.committed }
    {
        match (reader, &self.pending) {
            (Some(conn), Some(change)) if change.conn == conn => change.row.as_ref(),
            _ => self.committed.as_ref(),
        }
    }

    /// Whether no other connection has the pending version.
    pub fn is_free_for(&self, conn: ConnNo) -> bool
        ensures { IsTrue result ↔ (other_than conn self.now.pending ≡ None) }
    {
        match &self.pending {
            Some(change) => change.conn == conn,
            None => true,
        }
    }

    /// Makes the connection's pending version the committed one.
    pub fn settle(&mut self, conn: ConnNo)
        ensures { self.new ≡ settled_slot conn self.old }
    {
        match self.pending.take() {
            Some(change) if change.conn == conn => self.committed = change.row,
            other => self.pending = other,
        }
    }

    /// Drops the connection's pending version.
    pub fn abandon(&mut self, conn: ConnNo)
        ensures { self.new ≡ abandoned_slot conn self.old }
    {
        match &self.pending {
            Some(change) if change.conn == conn => self.pending = None,
            _ => {}
        }
    }

    /// Sets the pending version.
    pub fn write(&mut self, row: Option<Row>, conn: ConnNo)
        ensures { self.new ≡ written_slot conn row self.old }
    {
        self.pending = Some(Change { conn, row });
    }
}
