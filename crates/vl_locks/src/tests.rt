use crate::locks::Locks;
use crate::take::Take;
use std::alloc::{AllocError, Global};
use std::test::Fail;
use vl_values::ConnNo;
use vl_values::key::Key;
use vl_values::row::Row;
use vl_values::value::Value;

#[derive(Clone, Copy, Debug)]
enum Call {
    Take(u64, ConnNo),
    TakeAll(u64, u64, ConnNo),
    Untake(u64, ConnNo),
    Release(ConnNo),
}

#[derive(Clone, Copy, Debug, PartialEq, Eq)]
enum Answer {
    Took(Take),
    FirstHeld(usize, ConnNo),
    Done,
}

fn key(alloc: Global, number: u64) -> Result<Key, AllocError> {
    let mut values = Vec::new(alloc);
    values.push(Value::Uint(number))?;
    Ok(Key {
        table: 0,
        pk: Row::from_vec(values),
    })
}

// The first held key and its holder, or the keys were taken.
fn take_all(
    alloc: Global,
    locks: &mut Locks,
    first: u64,
    second: u64,
    conn: ConnNo,
) -> Result<Answer, AllocError> {
    let mut keys = Vec::new(alloc);
    keys.push(key(alloc, first)?)?;
    keys.push(key(alloc, second)?)?;
    match locks.first_held(keys.as_slice(), conn) {
        Some((place, by)) => Ok(Answer::FirstHeld(place, by)),
        None => {
            locks.take_all(keys.as_slice(), conn)?;
            Ok(Answer::Done)
        }
    }
}

fn answer_to(alloc: Global, locks: &mut Locks, call: Call) -> Result<Answer, AllocError> {
    match call {
        Call::Take(number, conn) => {
            let take = locks.take(&key(alloc, number)?, conn)?;
            Ok(Answer::Took(take))
        }
        Call::TakeAll(first, second, conn) => take_all(alloc, locks, first, second, conn),
        Call::Untake(number, conn) => {
            let key = key(alloc, number)?;
            if locks.holder(&key) == Some(conn) {
                locks.untake(&key, conn);
            }
            Ok(Answer::Done)
        }
        Call::Release(conn) => {
            locks.release(conn);
            Ok(Answer::Done)
        }
    }
}

fn holders(alloc: Global, locks: &Locks) -> Result<[Option<ConnNo>; 3], AllocError> {
    let first = key(alloc, 1)?;
    let second = key(alloc, 2)?;
    let third = key(alloc, 3)?;
    Ok([
        locks.holder(&first),
        locks.holder(&second),
        locks.holder(&third),
    ])
}

const FRESH: Answer = Answer::Took(Take::Taken { fresh: true });

const AGAIN: Answer = Answer::Took(Take::Taken { fresh: false });

const HELD: Answer = Answer::Took(Take::Held { by: 7 });

#[test]
fn a_key_has_one_holder_until_it_lets_go(rt: HostRuntime) -> Result<(), Fail> {
    let alloc = rt.alloc();
    let mut locks = Locks::new(alloc);
    let steps = [
        (Call::Take(2, 7), FRESH, [None, Some(7), None]),
        (Call::Take(2, 7), AGAIN, [None, Some(7), None]),
        (Call::Take(2, 8), HELD, [None, Some(7), None]),
        (Call::Take(3, 8), FRESH, [None, Some(7), Some(8)]),
        (
            Call::TakeAll(2, 3, 7),
            Answer::FirstHeld(1, 8),
            [None, Some(7), Some(8)],
        ),
        (
            Call::TakeAll(1, 2, 7),
            Answer::Done,
            [Some(7), Some(7), Some(8)],
        ),
        (
            Call::TakeAll(1, 2, 8),
            Answer::FirstHeld(0, 7),
            [Some(7), Some(7), Some(8)],
        ),
        (Call::Untake(2, 7), Answer::Done, [Some(7), None, Some(8)]),
        (Call::Take(2, 8), FRESH, [Some(7), Some(8), Some(8)]),
        (Call::Release(8), Answer::Done, [Some(7), None, None]),
        (Call::Release(9), Answer::Done, [Some(7), None, None]),
        (Call::Release(7), Answer::Done, [None, None, None]),
    ];
    for (call, expected, held) in steps {
        assert_eq!(rt; answer_to(alloc, &mut locks, call)?, expected, "{call:?}");
        assert_eq!(rt; holders(alloc, &locks)?, held, "{call:?}");
    }
    Ok(())
}
