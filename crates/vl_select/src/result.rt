ghost use Rattle.std.specs.Prelude.{◌≡◌, IfOk};
ghost use Rattle.vl_select.specs.Results.{IsResultOf, limited};

use crate::projecting::projected;
use crate::sorting::put_in_order;
use std::alloc::{AllocError, Global};
use vl_plan::projection::Projection;
use vl_plan::sort::Sort;
use vl_values::key::Key;
use vl_values::row::Row;

// The first of the rows, as many as LIMIT says.
fn limited(rows: Vec<(Key, Row)>, limit: Option<u64>) -> Vec<(Key, Row)>
    ensures { result.items ≡ limited limit rows.items }
{
    let mut rows = rows;
    if let Some(limit) = limit {
        if limit < rows.len() as u64 {
            rows.truncate(limit as usize);
        }
    }
    rows
}

/// The rows of a result set, made of those that were found, as they were read. For a COUNT(*) their number
/// alone counts. Sorting takes O(n log n) comparisons.
pub fn result_of(
    alloc: Global,
    what: &Projection,
    sorts: &[Sort],
    limit: Option<u64>,
    found: u64,
    rows: Vec<(Key, Row)>,
) -> Result<Vec<Row>, AllocError>
    ensures { IfOk result (λ answer. IsResultOf what.now sorts.now limit found rows.items answer.items) }
{
    let mut rows = rows;
    put_in_order(&mut rows, sorts)?;
    projected(alloc, what, found, limited(rows, limit))
}
