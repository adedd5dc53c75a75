ghost use Rattle.std.specs.Prelude.{◌≡◌, filter, not};
ghost use Rattle.vl_values.specs.Value.{is_null};
ghost use Rattle.vl_plan.specs.Planned.{in_order};

use vl_values::row::Row;
use vl_values::value::Value;

fn without_null(values: &mut Vec<Value>)
    ensures { values.new.items ≡ filter (λ value. not (is_null value)) values.old.items }
{
    values.retain(|value| !value.is_null());
}

/// The values without NULL, each once and in ascending order.
pub(crate) fn in_order(mut values: Vec<Value>) -> Row
    ensures { result ≡ in_order values.items }
{
    without_null(&mut values);
    values.sort_unstable();
    values.dedup();
    Row::from_vec(values)
}
