ghost use Rattle.std.specs.Prelude.{◌≡◌, IfOk, map, slice_index_or};
ghost use Rattle.vl_values.specs.declared.value.Value.TheVariants.{Null};
ghost use Rattle.vl_rules.specs.Order.{Checked};
ghost use Rattle.vl_statement.specs.Refusing.{device_failed, duplicate_entry, duplicate_row, entry_text, found_by, limit_of_changes, lock_wait, lookup_name, read_lost, removed_and_claimed, session_lost, table_name};

use std::alloc::{AllocError, Global};
use vl_catalog::{Catalog, LookupNo};
use vl_port::tx_state::TxState;
use vl_text::{joined_text, key_text, shard_name};
use vl_values::bytes::Bytes;
use vl_values::cause::Cause;
use vl_values::group::Group;
use vl_values::key::Key;
use vl_values::limit::Limit;
use vl_values::lost_why::LostWhy;
use vl_values::value::Value;
use vl_values::{SessionNo, ShardNo, TableNo};

fn table_name(alloc: Global, catalog: &Catalog, number: TableNo) -> Result<Bytes, AllocError>
    ensures { IfOk result (λ name. name ≡ table_name catalog.now number) }
{
    match catalog.tables.as_slice().get(number as usize) {
        Some(table) => table.name.copy(alloc),
        None => Ok(Bytes::from_vec(Vec::new(alloc))),
    }
}

/// The refusal of a statement whose action was answered `Held` as often as the limit says.
pub fn lock_wait(
    alloc: Global,
    catalog: &Catalog,
    limit: u32,
    by: SessionNo,
    key: &Key,
) -> Result<Cause, AllocError>
    ensures { IfOk result (λ cause. cause ≡ lock_wait catalog.now limit by key.now) }
{
    let table = table_name(alloc, catalog, key.table)?;
    let text = key_text(alloc, catalog, key)?;
    Ok(Cause::LockWait {
        limit,
        table,
        key: text,
        holder: by,
    })
}

/// The refusal of a row whose key has one already on this shard.
pub fn duplicate_row(
    alloc: Global,
    catalog: &Catalog,
    shard: ShardNo,
    key: &Key,
) -> Result<Cause, AllocError>
    requires { Checked catalog.now }
    ensures { IfOk result (λ cause. cause ≡ duplicate_row catalog.now shard key.now) }
{
    let value = joined_text(alloc, key.pk.as_slice())?;
    let name = Bytes::from_slice(alloc, b"PRIMARY")?;
    let row = key_text(alloc, catalog, key)?;
    Ok(Cause::Duplicate {
        value,
        key: name,
        row,
        shard: shard_name(catalog, shard),
    })
}

fn lookup_name(alloc: Global, catalog: &Catalog, number: LookupNo) -> Result<Bytes, AllocError>
    ensures { IfOk result (λ name. name ≡ lookup_name catalog.now number) }
{
    match catalog.lookups.as_slice().get(number as usize) {
        Some(lookup) => lookup.name.copy(alloc),
        None => Ok(Bytes::from_vec(Vec::new(alloc))),
    }
}

// The values of an entry's columns; one that it lacks is NULL.
fn values_at(alloc: Global, entry: &[Value], columns: &[usize]) -> Result<Vec<Value>, AllocError>
    ensures { IfOk result (λ values. values.items ≡ map (λ column. slice_index_or entry.now column Null) columns.now) }
{
    let mut values = Vec::with_capacity(alloc, columns.len())?;
    for column in columns {
        let value = match entry.get(*column) {
            Some(value) => value.copy(alloc)?,
            None => Value::Null,
        };
        values.push(value)?;
    }
    Ok(values)
}

fn found_by(
    alloc: Global,
    catalog: &Catalog,
    number: LookupNo,
    entry: &[Value],
) -> Result<Vec<Value>, AllocError>
    ensures { IfOk result (λ values. values.items ≡ found_by catalog.now number entry.now) }
{
    match catalog.lookups.as_slice().get(number as usize) {
        Some(lookup) => values_at(alloc, entry, lookup.from.as_slice()),
        None => Ok(Vec::new(alloc)),
    }
}

fn entry_text(
    alloc: Global,
    catalog: &Catalog,
    number: LookupNo,
    entry: &[Value],
) -> Result<Bytes, AllocError>
    ensures { IfOk result (λ text. text ≡ entry_text catalog.now number entry.now) }
{
    let values = found_by(alloc, catalog, number, entry)?;
    joined_text(alloc, &values)
}

/// The refusal of a row whose entry in a lookup is needed by the row of this key already, on this shard.
pub fn duplicate_entry(
    alloc: Global,
    catalog: &Catalog,
    number: LookupNo,
    entry: &[Value],
    shard: ShardNo,
    key: &Key,
) -> Result<Cause, AllocError>
    requires { Checked catalog.now }
    ensures { IfOk result (λ cause. cause ≡ duplicate_entry catalog.now number entry.now shard key.now) }
{
    let value = entry_text(alloc, catalog, number, entry)?;
    let name = lookup_name(alloc, catalog, number)?;
    let row = key_text(alloc, catalog, key)?;
    Ok(Cause::Duplicate {
        value,
        key: name,
        row,
        shard: shard_name(catalog, shard),
    })
}

/// The refusal of a claim of an entry that the transaction removes.
pub fn removed_and_claimed(
    alloc: Global,
    catalog: &Catalog,
    number: LookupNo,
    entry: &[Value],
) -> Result<Cause, AllocError>
    ensures { IfOk result (λ cause. cause ≡ removed_and_claimed catalog.now number entry.now) }
{
    let value = entry_text(alloc, catalog, number, entry)?;
    let lookup = lookup_name(alloc, catalog, number)?;
    Ok(Cause::RemovedAndClaimed { value, lookup })
}

/// The refusal of a statement whose session of a group on a shard was lost.
pub fn session_lost(catalog: &Catalog, group: Group, shard: ShardNo, why: LostWhy) -> Cause
    requires { Checked catalog.now }
    ensures { result ≡ session_lost catalog.now group shard why }
{
    Cause::LostSession {
        shard: shard_name(catalog, shard),
        group,
        why,
    }
}

/// The refusal of a statement whose read without a session was lost.
pub fn read_lost(catalog: &Catalog, shard: ShardNo) -> Cause
    requires { Checked catalog.now }
    ensures { result ≡ read_lost catalog.now shard }
{
    Cause::LostRead {
        shard: shard_name(catalog, shard),
    }
}

/// The refusal of a statement that met a device that failed.
pub fn device_failed(catalog: &Catalog, shard: ShardNo) -> Cause
    requires { Checked catalog.now }
    ensures { result ≡ device_failed catalog.now shard }
{
    Cause::DeviceFailed {
        shard: shard_name(catalog, shard),
    }
}

/// The refusal of a write that would pass the limit of changes.
pub fn limit_of_changes(tx: &TxState) -> Cause
    ensures { result ≡ limit_of_changes tx.now }
{
    Cause::Limit {
        what: Limit::Changes,
        count: u64::from(tx.limits.changes),
    }
}
