ghost use Rattle.std.specs.Prelude.{◌≡◌, [], length, IfErr, OnOk};
ghost use Rattle.vl_model.specs.Refusals.{IsFirst, miscounted_from};

use vl_values::bytes::Bytes;
use vl_values::cause::Cause;
use vl_values::row::Row;

fn counted_by(columns: usize, rows: &[Row]) -> Result<(), Cause>
    ensures refused { IfErr result (λ cause. IsFirst cause (miscounted_from columns 1 rows.now)) }
    ensures whole { OnOk result (miscounted_from columns 1 rows.now ≡ []) }
{
    for (index, row) in rows.iter().enumerate() {
        if row.len() != columns {
            return Err(Cause::RowCount {
                row: index as u64 + 1,
                values: row.len() as u64,
                columns: columns as u64,
            });
        }
    }
    Ok(())
}

/// Looks whether each row of INSERT has as many values as there are columns named.
pub(crate) fn counted(names: &[Bytes], rows: &[Row]) -> Result<(), Cause>
    ensures refused { IfErr result (λ cause. IsFirst cause (miscounted_from (length names.now) 1 rows.now)) }
    ensures whole { OnOk result (miscounted_from (length names.now) 1 rows.now ≡ []) }
{
    counted_by(names.len(), rows)
}
