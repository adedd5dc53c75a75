use crate::action::Action;
use crate::changes::writes_of;
use crate::row_change::RowChange;
use std::alloc::{AllocError, Global};
use std::process::Abort;
use std::test::Fail;
use vl_plan::setting::Setting;
use vl_port::act::Act;
use vl_values::items::Items;
use vl_values::key::Key;
use vl_values::row::Row;
use vl_values::value::Value;

/// A row: its key, which is its column 0 too, and what its columns 1 and 2 have, or NULL.
type Given = (u64, Option<u64>, Option<u64>);

static ROWS: [Given; 4] = [
    (1, Some(5), Some(7)),
    (2, None, Some(7)),
    (4, Some(6), None),
    (9, None, None),
];

/// What an UPDATE sets, column by column, and the rows that are written for it, as they stand then.
type Set = (&'static [(usize, Option<u64>)], &'static [Given]);

static SETS: [Set; 6] = [
    (&[], &[]),
    (
        &[(1, Some(5))],
        &[
            (2, Some(5), Some(7)),
            (4, Some(5), None),
            (9, Some(5), None),
        ],
    ),
    (&[(2, None)], &[(1, Some(5), None), (2, None, None)]),
    (
        &[(1, None), (2, None)],
        &[(1, None, None), (2, None, None), (4, None, None)],
    ),
    (
        &[(1, Some(8)), (1, None)],
        &[(1, None, Some(7)), (4, None, None)],
    ),
    (&[(3, Some(8))], &[]),
];

fn value_of(given: Option<u64>) -> Value {
    match given {
        Some(n) => Value::Uint(n),
        None => Value::Null,
    }
}

fn row_of(alloc: Global, given: &Given) -> Result<(Key, Row), AllocError> {
    let mut pk = Vec::new(alloc);
    pk.push(Value::Uint(given.0))?;
    let mut values = Vec::new(alloc);
    values.push(Value::Uint(given.0))?;
    values.push(value_of(given.1))?;
    values.push(value_of(given.2))?;
    let key = Key {
        table: 0,
        pk: Row::from_vec(pk),
    };
    Ok((key, Row::from_vec(values)))
}

fn rows_of(alloc: Global, given: &[Given]) -> Result<Vec<(Key, Row)>, AllocError> {
    let mut rows = Vec::new(alloc);
    for row in given {
        rows.push(row_of(alloc, row)?)?;
    }
    Ok(rows)
}

fn settings_of(alloc: Global, given: &[(usize, Option<u64>)]) -> Result<RowChange, AllocError> {
    let mut settings = Vec::new(alloc);
    for (column, value) in given {
        settings.push(Setting {
            column: *column,
            value: value_of(*value),
        })?;
    }
    Ok(RowChange::Set(Items::from_vec(settings)))
}

// Whether the action leaves this row of the key on shard 3, or none there.
fn leaves(action: &Action, key: &Key, row: Option<&Row>) -> bool {
    let left = match &action.act {
        Act::Put { key: its, row: new } => its == key && row == Some(new),
        Act::Remove { key: its } => its == key && row.is_none(),
        _ => false,
    };
    left && action.shard == 3
}

#[test]
fn rows_that_change_are_written(rt: HostRuntime) -> Result<(), Fail> {
    let alloc = rt.alloc();
    for (settings, expected) in &SETS {
        let change = settings_of(alloc, settings)?;
        let actions = writes_of(alloc, &change, 3, rows_of(alloc, &ROWS)?)?;
        let rows = rows_of(alloc, expected)?;
        assert_eq!(&rt; actions.len(), rows.len());
        for (action, (key, row)) in actions.iter().zip(&rows) {
            assert!(&rt; leaves(action, key, Some(row)));
        }
    }
    Ok(())
}

#[test]
fn each_row_is_removed(rt: HostRuntime) -> Result<(), Fail> {
    let alloc = rt.alloc();
    let actions = writes_of(alloc, &RowChange::Remove, 3, rows_of(alloc, &ROWS)?)?;
    let rows = rows_of(alloc, &ROWS)?;
    assert_eq!(&rt; actions.len(), rows.len());
    for (action, (key, row)) in actions.iter().zip(&rows) {
        assert!(&rt; leaves(action, key, None) && action.old.as_ref() == Some(row));
    }
    Ok(())
}
