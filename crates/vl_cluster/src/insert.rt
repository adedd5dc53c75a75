ghost use Rattle.std.specs.Prelude.{◌≡◌, ◌≢◌, ◌<◌, ℕ, IfSome, IfNone, IfOk, OnOk, OnErr, length, ◌⊎◌, false};
ghost use Rattle.std.specs.Fmt.{decimal};
ghost use Rattle.vl_values.specs.Reply.{refusal};
ghost use Rattle.vl_values.specs.declared.cause.Cause.TheVariants.{OutOfMemory};
ghost use Rattle.vl_model.specs.CatalogA.{shard_name};
ghost use Rattle.vl_model.specs.Steps.{Inserts, IsFreeU, IsFreeId, duplicate};
ghost use Rattle.vl_cluster.specs.Kept.{IsKept};
ghost use Rattle.vl_cluster.specs.View.{IfRefused};
ghost use Rattle.vl_cluster.specs.Lists.{HasRow, place_of, all_rows, with_row, with_entry, entry_for};

use crate::entry::Entry;
use crate::line::Line;
use crate::place::{numeric, place_of, shard_of};
use crate::shard::Shard;
use std::alloc::{AllocError, Global};
use vl_values::bytes::Bytes;
use vl_values::cause::Cause;
use vl_values::reply::Reply;
use vl_values::shard_name::ShardName;

// The row that has a value of u, by the entry that the lookup table has for it.
fn row_with_u(shards: &[Shard], u: u64) -> Option<Line>
    requires { IsKept shards.now }
    ensures some { IfSome result (λ row. HasRow shards.now (place_of row.id) row × (row.u ≡ u)) }
    ensures none { IfNone result ((s : ℕ) (row : _) → HasRow shards.now s row → row.u ≢ u) }
{
    let Some(entry) = shards[place_of(u)].entry_of(u) else {
        return None;
    };
    shards[shard_of(entry.ksid)].row_with(u)
}

fn row_with_id(shards: &[Shard], id: u64) -> Option<Line>
    requires { IsKept shards.now }
    ensures some { IfSome result (λ row. HasRow shards.now (place_of row.id) row × (row.id ≡ id)) }
    ensures none { IfNone result ((s : ℕ) (row : _) → HasRow shards.now s row → row.id ≢ id) }
{
    shards[place_of(id)].row_of(id)
}

// The entry first, and then the row; both or neither.
fn write(shards: &mut [Shard], row: Line) -> Result<(), AllocError>
    requires { length shards.old ≡ 2 }
    ensures ok { OnOk result (shards.new ≡ with_row (with_entry shards.old (place_of row.u) (entry_for row)) (place_of row.id) row) }
    ensures err { OnErr result (shards.new ≡ shards.old) }
{
    let entry_shard = place_of(row.u);
    let entry = Entry {
        u: row.u,
        ksid: numeric(row.id),
    };
    shards[entry_shard].push_entry(entry)?;
    match shards[place_of(row.id)].push_row(row) {
        Ok(()) => Ok(()),
        Err(error) => {
            shards[entry_shard].pop_entry();
            Err(error)
        }
    }
}

fn shard_name(id: u64) -> ShardName
    ensures { result ≡ shard_name (place_of id) }
{
    if place_of(id) == 0 {
        ShardName::new(b"commerce/-80")
    } else {
        ShardName::new(b"commerce/80-")
    }
}

fn decimal_text(alloc: Global, n: u64) -> Result<Bytes, AllocError>
    ensures { IfOk result (λ text. text ≡ decimal n) }
{
    let text = format!(in alloc; "{n}")?;
    Ok(Bytes::from_vec(text.into_bytes()))
}

fn duplicate_cause(alloc: Global, value: u64, key: &[u8], id: u64) -> Result<Cause, AllocError>
    ensures { IfOk result (λ cause. refusal cause false ≡ duplicate value key.now id) }
{
    let value = decimal_text(alloc, value)?;
    let key = Bytes::from_slice(alloc, key)?;
    let row = decimal_text(alloc, id)?;
    let shard = shard_name(id);
    Ok(Cause::Duplicate {
        value,
        key,
        row,
        shard,
    })
}

// The refusal of a value that a key has already.
fn duplicate(alloc: Global, value: u64, key: &[u8], id: u64) -> Reply
    ensures { (result ≡ duplicate value key.now id) ⊎ (result ≡ refusal OutOfMemory false) }
{
    match duplicate_cause(alloc, value, key, id) {
        Ok(cause) => Reply::refusal(cause, false),
        Err(_) => Reply::refusal(Cause::OutOfMemory, false),
    }
}

/// Runs `INSERT INTO t1(id,u) VALUES(id,u)`.
pub fn insert(alloc: Global, shards: &mut [Shard], id: u64, u: u64) -> Reply
    requires { IsKept shards.old }
    ensures kept { IsKept shards.new }
    ensures step { Inserts (all_rows shards.old) id u (all_rows shards.new) result }
    ensures refused { IfRefused result (shards.new ≡ shards.old) }
{
    if let Some(row) = row_with_u(shards, u) {
        return duplicate(alloc, u, b"t1_u", row.id);
    }
    if row_with_id(shards, id).is_some() {
        return duplicate(alloc, id, b"PRIMARY", id);
    }
    match write(shards, Line { id, u }) {
        Ok(()) => Reply::done(1, false, true),
        Err(_) => Reply::refusal(Cause::OutOfMemory, false),
    }
}
