ghost use Rattle.std.specs.Prelude.{◌≡◌, ◌<◌, length, IfOk, Contains};
ghost use Rattle.std.specs.Ordering.{is_eq};
ghost use Rattle.vl_values.specs.Row.{row_cmp};
ghost use Rattle.vl_plan.specs.declared.setting.Setting.{Setting as ASetting};
ghost use Rattle.vl_change.specs.Changes.{put_of, with_settings, write_of, writes_of};

use crate::action::Action;
use crate::row_change::RowChange;
use std::alloc::{AllocError, Global};
use vl_plan::setting::Setting;
use vl_port::act::Act;
use vl_values::ShardNo;
use vl_values::group::Group;
use vl_values::key::Key;
use vl_values::row::Row;
use vl_values::value::Value;

// The row with the settings made.
fn with_settings(alloc: Global, settings: &[Setting], row: &[Value]) -> Result<Row, AllocError>
    ensures { IfOk result (λ new. new ≡ with_settings settings.now row.now) }
{
    let mut values = Vec::with_capacity(alloc, row.len())?;
    for value in row {
        values.push(value.copy(alloc)?)?;
    }
    for setting in settings {
        if setting.column < values.len() {
            values[setting.column] = setting.value.copy(alloc)?;
        }
    }
    Ok(Row::from_vec(values))
}

// The write of a row whose columns are set, if it changes.
fn put_of(
    alloc: Global,
    shard: ShardNo,
    key: Key,
    old: Row,
    settings: &[Setting],
) -> Result<Option<Action>, AllocError>
    ensures { IfOk result (λ action. action ≡ put_of shard key old (with_settings settings.now old)) }
{
    let new = with_settings(alloc, settings, old.as_slice())?;
    if new == old {
        return Ok(None);
    }
    Ok(Some(Action {
        group: Group::Main,
        shard,
        act: Act::Put { key, row: new },
        old: Some(old),
    }))
}

fn write_of(
    alloc: Global,
    change: &RowChange,
    shard: ShardNo,
    found: (Key, Row),
) -> Result<Option<Action>, AllocError>
    ensures { IfOk result (λ action. action ≡ write_of change.now shard found) }
{
    let (key, row) = found;
    match change {
        RowChange::Remove => Ok(Some(Action {
            group: Group::Main,
            shard,
            act: Act::Remove { key },
            old: Some(row),
        })),
        RowChange::Set(settings) => put_of(alloc, shard, key, row, settings.as_slice()),
    }
}

/// The writes of the rows that were found on a shard, in their order.
pub(crate) fn writes_of(
    alloc: Global,
    change: &RowChange,
    shard: ShardNo,
    rows: Vec<(Key, Row)>,
) -> Result<Vec<Action>, AllocError>
    ensures { IfOk result (λ actions. actions.items ≡ writes_of change.now shard rows.items) }
{
    let mut actions = Vec::with_capacity(alloc, rows.len())?;
    for found in rows {
        if let Some(action) = write_of(alloc, change, shard, found)? {
            actions.push(action)?;
        }
    }
    Ok(actions)
}
