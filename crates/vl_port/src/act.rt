ghost use Rattle.std.specs.Prelude.{◌≡◌, IfOk};

use std::alloc::{AllocError, Global};
use vl_values::key::Key;
use vl_values::pred::Pred;
use vl_values::row::Row;
use vl_values::test::Test;
use vl_values::tests::Tests;
use vl_values::value::Value;

/// One action on a shard.
#[derive(Drop)]
pub enum Act {
    /// Writes the row where the key has no standing version.
    Insert { key: Key, row: Row },
    /// Writes the row.
    Put { key: Key, row: Row },
    /// Removes the key's row.
    Remove { key: Key },
    /// Removes the key's row where its standing version has this value in the column.
    RemoveIf { key: Key, column: u16, value: Value },
    /// Reads the rows that match; a locking read takes their keys.
    Find { pred: Pred, locking: bool },
}

fn test_of(alloc: Global, test: &Test) -> Result<Test, AllocError>
    ensures { IfOk result (λ copy. copy ≡ test.now) }
{
    let values = test.values.copy(alloc)?;
    Ok(Test {
        column: test.column,
        values,
    })
}

fn tests_of(alloc: Global, tests: &[Test]) -> Result<Vec<Test>, AllocError>
    ensures { IfOk result (λ copy. copy.items ≡ tests.now) }
{
    let mut copy = Vec::with_capacity(alloc, tests.len())?;
    for test in tests {
        copy.push(test_of(alloc, test)?)?;
    }
    Ok(copy)
}

fn pred_of(alloc: Global, pred: &Pred) -> Result<Pred, AllocError>
    ensures { IfOk result (λ copy. copy ≡ pred.now) }
{
    let tests = tests_of(alloc, pred.tests.as_slice())?;
    Ok(Pred {
        table: pred.table,
        tests: Tests::from_vec(tests),
    })
}

impl Act {
    /// A copy. `AllocError` where memory was refused.
    pub fn copy(&self, alloc: Global) -> Result<Act, AllocError>
        ensures { IfOk result (λ act. act ≡ self.now) }
    {
        match self {
            Act::Insert { key, row } => {
                let key = key.copy(alloc)?;
                let row = row.copy(alloc)?;
                Ok(Act::Insert { key, row })
            }
            Act::Put { key, row } => {
                let key = key.copy(alloc)?;
                let row = row.copy(alloc)?;
                Ok(Act::Put { key, row })
            }
            Act::Remove { key } => {
                let key = key.copy(alloc)?;
                Ok(Act::Remove { key })
            }
            Act::RemoveIf { key, column, value } => {
                let key = key.copy(alloc)?;
                let value = value.copy(alloc)?;
                Ok(Act::RemoveIf {
                    key,
                    column: *column,
                    value,
                })
            }
            Act::Find { pred, locking } => {
                let pred = pred_of(alloc, pred)?;
                Ok(Act::Find {
                    pred,
                    locking: *locking,
                })
            }
        }
    }
}
