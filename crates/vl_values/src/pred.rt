use crate::TableNo;
use crate::tests::Tests;
use crate::value::Value;

/// A predicate on the rows of a table: a row matches where it meets each test.
#[derive(Debug, Drop)]
pub struct Pred {
    pub table: TableNo,
    pub tests: Tests,
}

impl Pred {
    ghost use Rattle.std.specs.Prelude.{◌≡◌};
    ghost use Rattle.vl_values.specs.Pred.{matches};

    /// Whether a row of this table matches.
    pub fn matches(&self, row: &[Value]) -> bool
        ensures { result ≡ matches self.now row.now }
    {
        self.tests.as_slice().iter().all(|test| test.is_met(row))
    }
}
