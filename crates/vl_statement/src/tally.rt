ghost use Rattle.std.specs.Prelude.{◌≡◌, ◌<◌, ◌≤◌, Some, None, IfErr, IfOk, IfSome, IfNone};
ghost use Rattle.vl_statement.specs.Tallies.{Tallied, over, row_bytes, with_row};

use crate::text_length::text_length;
use vl_port::limits::Limits;
use vl_values::key::Key;
use vl_values::limit::Limit;
use vl_values::row::Row;
use vl_values::value::Value;

/// How many rows the reads of a statement gave, and how many bytes the texts of their values have.
#[derive(Clone, Copy, Debug, PartialEq, Eq)]
pub struct Tally {
    pub rows: u64,
    pub bytes: u64,
}

// The bytes of a row, or that they are more than this many.
fn bytes_within(row: &[Value], most: u64) -> Option<u64>
    ensures some { IfSome result (λ bytes. (bytes ≡ row_bytes row.now) × (bytes ≤ most)) }
    ensures none { IfNone result (most < row_bytes row.now) }
{
    let mut left = most;
    for value in row {
        let length = text_length(value) as u64;
        if length > left {
            return None;
        }
        left -= length;
    }
    Some(most - left)
}

impl Tally {
    /// No rows.
    pub fn new() -> Tally
        ensures { result ≡ record { rows = 0; bytes = 0 } }
    {
        Tally { rows: 0, bytes: 0 }
    }

    // The tally with one row more, or the limit that this would pass, with its height.
    fn with_row(self, limits: &Limits, row: &[Value]) -> Result<Tally, (Limit, u64)>
        ensures ok { IfOk result (λ new. (over limits.now self row.now ≡ None) × (new ≡ with_row self row.now)) }
        ensures err { IfErr result (λ passed. over limits.now self row.now ≡ Some passed) }
    {
        let most_rows = u64::from(limits.result_rows);
        if self.rows >= most_rows {
            return Err((Limit::ResultRows, most_rows));
        }
        let most = limits.result_bytes;
        if self.bytes > most {
            return Err((Limit::ResultBytes, most));
        }
        match bytes_within(row, most - self.bytes) {
            Some(bytes) => Ok(Tally {
                rows: self.rows + 1,
                bytes: self.bytes + bytes,
            }),
            None => Err((Limit::ResultBytes, most)),
        }
    }

    /// The tally with these rows, or the limit that the first of them passes which passes one, with its
    /// height.
    pub fn with_rows(self, limits: &Limits, rows: &[(Key, Row)]) -> Result<Tally, (Limit, u64)>
        ensures { Tallied limits.now self rows.now result }
    {
        let mut tally = self;
        for row in rows {
            match tally.with_row(limits, row.1.as_slice()) {
                Ok(new) => tally = new,
                Err(passed) => return Err(passed),
            }
        }
        Ok(tally)
    }
}
