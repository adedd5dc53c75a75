ghost use Rattle.std.specs.Prelude.{All, ◌≡◌, ◌<◌, ◌≤◌, ◌+◌, ◌^◌, ◌-◌, ◌++◌, ◌∷◌, [], List, ℕ, length, vec_len, vec_capacity, OnOk, OnErr};
ghost use Rattle.std.specs.Option.{option_copied, option_map, unwrap_or};
ghost use Rattle.std.specs.BTreeMap.{values};
ghost use Rattle.std.specs.List.{flat_map};
ghost use Rattle.vl_values.specs.Keyed.{InKeyOrder};
ghost use Rattle.vl_catalog.specs.declared.catalog.Catalog.{Catalog};
ghost use Rattle.vl_record.specs.Spelling.{change_bytes, last_transaction, record_bytes};
ghost use Rattle.vl_record.specs.Grammar.{IsRecord};
ghost use Rattle.vl_record.specs.Collected.{Entry, Holds, IsAllowed, change_of, changes_bytes, collected_bytes, one_part, part_of, record_len, with_entry};
ghost use Rattle.vl_record.specs.Writing.{IsWritable};

use crate::size::change_len;
use crate::writing::{group_byte, put_change, put_u8, put_u16, put_u32, put_u64};
use std::alloc::{AllocError, Global};
use std::collections::BTreeMap;
use std::marker::Model;
use vl_values::TxNo;
use vl_values::bytes::Bytes;
use vl_values::group::Group;
use vl_values::key::Key;
use vl_values::row::Row;

// The body of a record of one part has 15 bytes beside its changes, and its length is below 2 ^ 32; so is their number.
const MOST_BYTES: usize = 4_294_967_275;

const MOST_CHANGES: usize = 4_294_967_295;

/// A record of one part, collected change by change. Each change is encoded as it comes and kept in the order of keys, where
/// it stands instead of an earlier one of its key; so the record's bytes are only copied out at the end.
#[derive(Drop)]
pub struct Rec {
    alloc: Global,
    tx: TxNo,
    group: Group,
    changes: BTreeMap<Key, Bytes>,
    // The bytes of all changes.
    size: usize,
}

impl Model for Rec {
    ghost use Rattle.std.specs.Prelude.{◌≡◌, ◌<◌, ◌+◌, ◌^◌, ℕ, List, length};
    ghost use Rattle.std.specs.List.{flat_map};
    ghost use Rattle.std.specs.Map.{values_of};
    ghost use Rattle.vl_record.specs.Collected.{Collected};

    ghost Value = { Collected };

    ghost view = { λ r. record { tx = r.tx; group = r.group; changes = r.changes.entries } };

    ghost invariant = { λ r. (r.size ≡ length (flat_map (λ (bytes : List ℕ). bytes) (values_of r.changes.entries))) × (length r.changes.entries < 2 ^ 32) × (20 + r.size < 2 ^ 32) };
}

// Adds the bytes of all changes.
fn put_changes(out: &mut Vec<u8>, changes: &BTreeMap<Key, Bytes>) -> Result<(), AllocError>
    ensures items { OnOk result (out.new.items ≡ out.old.items ++ flat_map (λ (bytes : List ℕ). bytes) (values changes.now)) }
    ensures capacity { vec_capacity out.old ≤ vec_capacity out.new }
    ensures full { OnErr result (vec_capacity out.old < vec_len out.old + length (flat_map (λ (bytes : List ℕ). bytes) (values changes.now))) }
{
    for bytes in changes.values() {
        out.extend_from_slice(bytes.as_slice())?;
    }
    Ok(())
}

// How many bytes there are.
fn len_of(bytes: &Option<Bytes>) -> usize
    ensures { result ≡ unwrap_or (option_map (λ (text : List ℕ). length text) bytes.now) 0 }
{
    match bytes {
        Some(bytes) => bytes.len(),
        None => 0,
    }
}

impl Rec {
    /// A record without changes.
    pub fn new(alloc: Global, tx: TxNo, group: Group) -> Rec
        ensures { result ≡ record { tx = tx; group = group; changes = [] } }
    {
        Rec {
            alloc,
            tx,
            group,
            changes: BTreeMap::new(alloc),
            size: 0,
        }
    }

    /// Sets the change of a key: its row, or none where it is removed. An earlier change of the key is gone then. Where
    /// memory was refused, nothing has changed; it counts as refused, too, where the record would pass what its length and
    /// its count can say, which is 4 GiB.
    pub fn push(&mut self, key: &Key, row: Option<&Row>) -> Result<(), AllocError>
        requires writable { IsWritable (change_of (key.now, option_copied row)) }
        ensures tx { self.new.tx ≡ self.old.tx }
        ensures group { self.new.group ≡ self.old.group }
        ensures changes { OnOk result (self.new.changes ≡ with_entry self.old.changes key.now (change_bytes (change_of (key.now, option_copied row.entry)))) }
        ensures holds { OnOk result ((entries : List Entry) → Holds entries self.old → Holds (with_entry entries key.now (option_copied row.entry)) self.new) }
        ensures kept { OnErr result (self.new ≡ self.old) }
    {
        let mut bytes = Vec::with_capacity(self.alloc, change_len(key, row))?;
        put_change(&mut bytes, key, row)?;
        let key = key.copy(self.alloc)?;
        let size = self.size + bytes.len();
        if size > MOST_BYTES || self.changes.len() >= MOST_CHANGES {
            return Err(AllocError);
        }
        let Ok(before) = self.changes.insert(key, Bytes::from_vec(bytes)) else {
            return Err(AllocError);
        };
        self.size = size - len_of(&before);
        Ok(())
    }

    /// How many bytes the record has, with its gate. `put_into` writes as many: the record behind its gate, and a closed
    /// gate.
    pub fn len(&self) -> usize
        ensures len { result ≡ record_len self.now }
        ensures short { result < 2 ^ 32 }
    {
        20 + self.size
    }

    // Adds the bytes of its part.
    fn put_part(&self, out: &mut Vec<u8>) -> Result<(), AllocError>
        ensures order { InKeyOrder self.now.changes }
        ensures few { length self.now.changes < 2 ^ 32 }
        ensures items { OnOk result (out.new.items ≡ out.old.items ++ collected_bytes self.now) }
        ensures capacity { vec_capacity out.old ≤ vec_capacity out.new }
        ensures full { OnErr result (vec_capacity out.old < vec_len out.old + length (collected_bytes self.now)) }
    {
        let count = self.changes.len();
        put_u64(out, self.tx)?;
        put_u8(out, group_byte(self.group))?;
        put_u32(out, count as u32)?;
        put_changes(out, &self.changes)
    }

    /// Adds the record's bytes behind its gate and a closed gate. It fails only where the capacity had no room for them.
    pub fn put_into(&self, out: &mut Vec<u8>) -> Result<(), AllocError>
        ensures items { OnOk result (out.new.items ≡ out.old.items ++ (one_part (collected_bytes self.now) ++ 0 ∷ [])) }
        // They are those of the changes that were collected.
        ensures holds { OnOk result ((entries : List Entry) → Holds entries self.now → one_part (collected_bytes self.now) ≡ record_bytes (part_of self.now entries ∷ [])) }
        // Where the catalog allows each change, the format allows the record.
        ensures allowed { OnOk result ((catalog : Catalog) (shard : ℕ) (entries : List Entry) → Holds entries self.now → self.now.tx ≤ last_transaction → All (IsAllowed catalog shard) entries → IsRecord catalog shard (part_of self.now entries ∷ [])) }
        ensures capacity { vec_capacity out.old ≤ vec_capacity out.new }
        ensures full { OnErr result (vec_capacity out.old < vec_len out.old + record_len self.now) }
    {
        put_u32(out, (15 + self.size) as u32)?;
        put_u16(out, 1)?;
        self.put_part(out)?;
        put_u8(out, 0)
    }
}
