ghost use Rattle.std.specs.Prelude.{◌≡◌, ◌∷◌, [], ◌++◌, Some, IfOk, OnOk, filter};
ghost use Rattle.std.specs.Map.{keys_of};
ghost use Rattle.vl_values.specs.Keyed.{select};
ghost use Rattle.vl_rows.specs.Matching.{matches_at, row_of};
ghost use Rattle.vl_rows.specs.Slots.{found_in, is_match_in};

use crate::change::Change;
use crate::slot::Slot;
use std::alloc::{AllocError, Global};
use vl_values::ConnNo;
use vl_values::key::Key;
use vl_values::pred::Pred;
use vl_values::row::Row;

fn is_match(pred: &Pred, key: &Key, row: &Row) -> bool
    ensures { result ≡ matches_at pred.now key.now (Some row.now) }
{
    key.table == pred.table && pred.matches(row.as_slice())
}

fn is_match_committed(pred: &Pred, key: &Key, version: &Option<Row>) -> bool
    ensures { result ≡ matches_at pred.now key.now version.now }
{
    match version {
        Some(row) => is_match(pred, key, row),
        None => false,
    }
}

fn is_match_pending(pred: &Pred, key: &Key, version: &Option<Change>) -> bool
    ensures { result ≡ matches_at pred.now key.now (row_of version.now) }
{
    match version {
        Some(change) => is_match_committed(pred, key, &change.row),
        None => false,
    }
}

fn has_match(pred: &Pred, entry: &(Key, Slot)) -> bool
    ensures { result ≡ is_match_in pred.now entry.now }
{
    is_match_committed(pred, &entry.0, &entry.1.committed)
        || is_match_pending(pred, &entry.0, &entry.1.pending)
}

fn push_found(
    alloc: Global,
    rows: &mut Vec<(Key, Row)>,
    entry: &(Key, Slot),
    pred: &Pred,
    reader: Option<ConnNo>,
) -> Result<(), AllocError>
    ensures { OnOk result (rows.new.items ≡ rows.old.items ++ select (found_in pred.now reader) (entry.now ∷ [])) }
{
    match entry.1.standing(reader) {
        Some(row) if is_match(pred, &entry.0, row) => {
            let key = entry.0.copy(alloc)?;
            let row = row.copy(alloc)?;
            rows.push((key, row))?;
            Ok(())
        }
        _ => Ok(()),
    }
}

fn push_matching(
    alloc: Global,
    keys: &mut Vec<Key>,
    entry: &(Key, Slot),
    pred: &Pred,
) -> Result<(), AllocError>
    ensures { OnOk result (keys.new.items ≡ keys.old.items ++ keys_of (filter (is_match_in pred.now) (entry.now ∷ []))) }
{
    if has_match(pred, entry) {
        let key = entry.0.copy(alloc)?;
        keys.push(key)?;
    }
    Ok(())
}

/// The rows that a reader sees and the predicate matches, in the order of the slots.
pub fn found(
    alloc: Global,
    slots: &[(Key, Slot)],
    pred: &Pred,
    reader: Option<ConnNo>,
) -> Result<Vec<(Key, Row)>, AllocError>
    ensures { IfOk result (λ rows. rows.items ≡ select (found_in pred.now reader) slots.now) }
{
    let mut rows = Vec::new(alloc);
    for entry in slots {
        push_found(alloc, &mut rows, entry, pred, reader)?;
    }
    Ok(rows)
}

/// The keys of which a version matches, in the order of the slots.
pub fn matching(alloc: Global, slots: &[(Key, Slot)], pred: &Pred) -> Result<Vec<Key>, AllocError>
    ensures { IfOk result (λ keys. keys.items ≡ keys_of (filter (is_match_in pred.now) slots.now)) }
{
    let mut keys = Vec::new(alloc);
    for entry in slots {
        push_matching(alloc, &mut keys, entry, pred)?;
    }
    Ok(keys)
}
