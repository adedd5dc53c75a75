ghost use Rattle.std.specs.Prelude.{◌≡◌, OnOk, drop};
ghost use Rattle.vl_values.specs.declared.value.Value.TheVariants.{Null};
ghost use Rattle.vl_select.specs.Sorting.{AreInOrder, AreSorted, directed, rows_cmp, sort_cmp, sorts_cmp};

use std::alloc::AllocError;
use std::cmp::Ordering;
use vl_plan::sort::Sort;
use vl_values::key::Key;
use vl_values::row::Row;
use vl_values::value::Value;

fn directed(descending: bool, a: &Value, b: &Value) -> Ordering
    ensures { result ≡ directed descending a.now b.now }
{
    if descending { b.cmp(a) } else { a.cmp(b) }
}

// By one column; a row that ends before it is NULL there.
fn by_sort(sort: Sort, a: &[Value], b: &[Value]) -> Ordering
    ensures { result ≡ sort_cmp sort a.now b.now }
{
    let null = Value::Null;
    let a = a.get(sort.column).unwrap_or(&null);
    let b = b.get(sort.column).unwrap_or(&null);
    directed(sort.descending, a, b)
}

// By each column in turn.
fn by_sorts(sorts: &[Sort], a: &[Value], b: &[Value]) -> Ordering
    ensures { result ≡ sorts_cmp sorts.now a.now b.now }
{
    for sort in sorts {
        let order = by_sort(*sort, a, b);
        if order != Ordering::Equal {
            return order;
        }
    }
    Ordering::Equal
}

fn by_rows(sorts: &[Sort], a: &(Key, Row), b: &(Key, Row)) -> Ordering
    ensures { result ≡ rows_cmp sorts.now a.now b.now }
{
    match by_sorts(sorts, a.1.as_slice(), b.1.as_slice()) {
        Ordering::Equal => a.0.cmp(&b.0),
        order => order,
    }
}

// Sorts them. Rows that tie keep their order.
fn sort_by_rows(rows: &mut Vec<(Key, Row)>, sorts: &[Sort]) -> Result<(), AllocError>
    ensures { OnOk result (AreSorted sorts.now rows.old.items rows.new.items) }
{
    rows.sort_by(|a, b| by_rows(sorts, a, b))
}

/// Puts rows, which stand as they were read, in the order of ORDER BY.
pub(crate) fn put_in_order(rows: &mut Vec<(Key, Row)>, sorts: &[Sort]) -> Result<(), AllocError>
    ensures { OnOk result (AreInOrder sorts.now rows.old.items rows.new.items) }
{
    if sorts.is_empty() {
        return Ok(());
    }
    sort_by_rows(rows, sorts)
}
