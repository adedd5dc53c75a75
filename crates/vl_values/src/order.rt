ghost use Rattle.std.specs.Prelude.{◌≡◌, pos, refl};
ghost use Rattle.std.specs.Ordering.{int_cmp, eq_by_cmp, as_partial_cmp};
ghost use Rattle.std.specs.Cmp.{partial_order_from_agreeing_total, partial_equiv_from_equiv};
ghost use Rattle.std.proofs.lemmas.Cmp.{eq_by_cmp_equiv};
ghost use Rattle.vl_values.specs.Value.{value_cmp, class};
ghost use Rattle.vl_values.specs.Order.{value_cmp_total};

use crate::value::Value;
use std::cmp::Ordering;

// Two numbers of different signs of type, by value.
fn cmp_mixed(a: i64, b: u64) -> Ordering
    ensures { result ≡ int_cmp a (pos b) }
{
    match u64::try_from(a) {
        Ok(a) => a.cmp(&b),
        Err(_) => Ordering::Less,
    }
}

fn class_of(value: &Value) -> u8
    ensures { result ≡ class value.now }
{
    match value {
        Value::Null => 0,
        Value::Int(_) | Value::Uint(_) => 1,
        Value::Bytes(_) => 2,
    }
}

/// The order of values: NULL is least, then come numbers by value, then bytes by their first
/// difference, the shorter first. A signed number stands before the unsigned one of its value, so
/// that only equal values compare as equal.
pub fn cmp(a: &Value, b: &Value) -> Ordering
    ensures { result ≡ value_cmp a.now b.now }
{
    match (a, b) {
        (Value::Int(m), Value::Int(n)) => m.cmp(n),
        (Value::Int(m), Value::Uint(n)) => cmp_mixed(*m, *n).then(Ordering::Less),
        (Value::Uint(m), Value::Int(n)) => cmp_mixed(*n, *m).reverse().then(Ordering::Greater),
        (Value::Uint(m), Value::Uint(n)) => m.cmp(n),
        (Value::Bytes(s), Value::Bytes(t)) => s.as_slice().cmp(t.as_slice()),
        _ => class_of(a).cmp(&class_of(b)),
    }
}

impl PartialEq for Value {
    ghost eq = { eq_by_cmp value_cmp };

    ghost laws = { partial_equiv_from_equiv (eq_by_cmp_equiv value_cmp_total) };

    fn eq(&self, other: &Value) -> bool {
        cmp(self, other) == Ordering::Equal
    }
}

impl Eq for Value {
    ghost laws = { eq_by_cmp_equiv value_cmp_total };
}

impl Ord for Value {
    ghost cmp = { value_cmp };

    ghost total = { value_cmp_total };

    ghost matches_partial_cmp = { λ x y. refl };

    ghost matches_eq = { λ x y. refl };

    fn cmp(&self, other: &Value) -> Ordering {
        cmp(self, other)
    }
}

impl PartialOrd for Value {
    ghost partial_cmp = { as_partial_cmp value_cmp };

    ghost laws = { partial_order_from_agreeing_total value_cmp value_cmp_total (λ x y. refl) (λ x y. refl) };

    fn partial_cmp(&self, other: &Value) -> Option<Ordering> {
        Some(cmp(self, other))
    }
}
