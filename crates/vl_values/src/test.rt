ghost use Rattle.std.specs.Prelude.{◌≡◌};
ghost use Rattle.std.specs.List.{list_any};
ghost use Rattle.vl_values.specs.Among.{is_among};
ghost use Rattle.vl_values.specs.Value.{is_same_value};

use crate::row::Row;
use crate::value::Value;

/// A test of one column: the row's value there isn't NULL and is among these values.
#[derive(Debug, Drop)]
pub struct Test {
    pub column: u16,
    pub values: Row,
}

fn is_one_of(value: &Value, values: &[Value]) -> bool
    ensures { result ≡ list_any (is_same_value value.now) values.now }
{
    values.iter().any(|one| value == one)
}

fn is_among(value: &Value, values: &[Value]) -> bool
    ensures { result ≡ is_among value.now values.now }
{
    !value.is_null() && is_one_of(value, values)
}

impl Test {
    ghost use Rattle.std.specs.Prelude.{◌≡◌};
    ghost use Rattle.vl_values.specs.Pred.{is_met};

    /// Whether a row meets this test; a column past its end meets none.
    pub fn is_met(&self, row: &[Value]) -> bool
        ensures { result ≡ is_met self.now row.now }
    {
        match row.get(usize::from(self.column)) {
            None => false,
            Some(value) => is_among(value, self.values.as_slice()),
        }
    }
}
