ghost use Rattle.std.specs.Prelude.{◌≡◌, ◌≢◌, [], ◌∷◌, ◌++◌, OnOk, OnErr, IfSome, IfNone, Contains, ℕ};

use crate::entry::Entry;
use crate::line::Line;
use std::alloc::{AllocError, Global};
use std::marker::Model;

/// One shard: its rows of t1 and its rows of t1_u_idx.
#[derive(Drop)]
pub struct Shard {
    rows: Vec<Line>,
    entries: Vec<Entry>,
}

impl Model for Shard {
    ghost use Rattle.vl_cluster.specs.Lists.{Lists};

    ghost Value = { Lists };

    ghost view = { λ s. record { rows = s.rows.items; entries = s.entries.items } };
}

impl Shard {
    ghost use Rattle.vl_cluster.specs.Lists.{Lists};

    /// A shard with no row and no entry.
    pub fn new(alloc: Global) -> Shard
        ensures rows { result.rows ≡ [] }
        ensures entries { result.entries ≡ [] }
    {
        Shard {
            rows: Vec::new(alloc),
            entries: Vec::new(alloc),
        }
    }

    /// Adds a row behind the others.
    pub fn push_row(&mut self, row: Line) -> Result<(), AllocError>
        ensures ok { OnOk result (self.new ≡ record self.old { rows = self.old.rows ++ row ∷ [] }) }
        ensures err { OnErr result (self.new ≡ self.old) }
    {
        self.rows.push(row)?;
        Ok(())
    }

    /// Adds an entry of the lookup behind the others.
    pub fn push_entry(&mut self, entry: Entry) -> Result<(), AllocError>
        ensures ok { OnOk result (self.new ≡ record self.old { entries = self.old.entries ++ entry ∷ [] }) }
        ensures err { OnErr result (self.new ≡ self.old) }
    {
        self.entries.push(entry)?;
        Ok(())
    }

    /// Takes the last entry back.
    pub fn pop_entry(&mut self)
        ensures { (before : _) (entry : _) → self.old.entries ≡ before ++ entry ∷ [] → self.new ≡ record self.old { entries = before } }
    {
        let _ = self.entries.pop();
    }

    /// The entry of a value of u.
    pub fn entry_of(&self, u: u64) -> Option<Entry>
        ensures some { IfSome result (λ e. Contains self.now.entries e × (e.u ≡ u)) }
        ensures none { IfNone result ((e : _) → Contains self.now.entries e → e.u ≢ u) }
    {
        self.entries.iter().find(|entry| entry.u == u).copied()
    }

    /// The row that has a value of u.
    pub fn row_with(&self, u: u64) -> Option<Line>
        ensures some { IfSome result (λ r. Contains self.now.rows r × (r.u ≡ u)) }
        ensures none { IfNone result ((r : _) → Contains self.now.rows r → r.u ≢ u) }
    {
        self.rows.iter().find(|row| row.u == u).copied()
    }

    /// The row of a primary key.
    pub fn row_of(&self, id: u64) -> Option<Line>
        ensures some { IfSome result (λ r. Contains self.now.rows r × (r.id ≡ id)) }
        ensures none { IfNone result ((r : _) → Contains self.now.rows r → r.id ≢ id) }
    {
        self.rows.iter().find(|row| row.id == id).copied()
    }
}
