ghost use Rattle.std.specs.Prelude.{◌≡◌, ◌∷◌, ◌++◌, [], List, map, IfOk, IfErr, OnOk};
ghost use Rattle.std.specs.List.{cons_option};
ghost use Rattle.vl_values.specs.declared.cause.Cause.{Cause as ACause};
ghost use Rattle.std.specs.Option.{option_copied, option_map_or};
ghost use Rattle.vl_model.specs.Columns.{assigned, set_stored, stored};
ghost use Rattle.vl_model.specs.Refusals.{IsFirst, faults};
ghost use Rattle.vl_plan.specs.Planned.{settings_of};
ghost use Rattle.vl_plan.specs.Sets.{set_at, set_of};

use crate::asks::asks_of;
use crate::setting::Setting;
use crate::stored::stored;
use std::alloc::Global;
use vl_catalog::{Catalog, Column, Table};
use vl_sql::assignment::Assignment;
use vl_values::cause::Cause;

fn assigned<'a>(assignments: &'a [Assignment], name: &[u8]) -> Option<&'a Assignment>
    ensures { option_copied result ≡ assigned assignments.now name.now }
{
    assignments
        .iter()
        .find(|assignment| assignment.column.as_slice() == name)
}

// The setting of a column, if SET names it.
fn setting(
    alloc: Global,
    catalog: &Catalog,
    table: &Table,
    assignments: &[Assignment],
    number: usize,
    column: &Column,
) -> Result<Option<Setting>, Cause>
    ensures refused { IfErr result (λ cause. IsFirst cause (faults (map (λ set. set.1) (set_at catalog.now table.now assignments.now number column.now)))) }
    ensures setting { IfOk result (λ setting. set_at catalog.now table.now assignments.now number column.now ≡ option_map_or (λ one. set_of one ∷ []) setting []) }
{
    match assigned(assignments, column.name.as_slice()) {
        None => Ok(None),
        Some(assignment) => {
            let asks = asks_of(catalog, table, number);
            match stored(alloc, asks, column, &assignment.value) {
                Ok(value) => Ok(Some(Setting {
                    column: number,
                    value,
                })),
                Err(cause) => Err(cause),
            }
        }
    }
}

fn push_some(settings: &mut Vec<Setting>, setting: Option<Setting>) -> Result<(), Cause>
    ensures memory { IfErr result (λ cause. (causes : List ACause) → IsFirst cause causes) }
    ensures pushed { OnOk result (settings.new.items ≡ settings.old.items ++ cons_option setting []) }
{
    match setting {
        Some(setting) => match settings.push(setting) {
            Ok(()) => Ok(()),
            Err(_) => Err(Cause::OutOfMemory),
        },
        None => Ok(()),
    }
}

// Each column that SET names, in the order of the table's columns.
fn settings_in(
    alloc: Global,
    catalog: &Catalog,
    table: &Table,
    columns: &[Column],
    assignments: &[Assignment],
) -> Result<Vec<Setting>, Cause>
    ensures refused { IfErr result (λ cause. IsFirst cause (faults (map (λ set. set.1) (set_stored catalog.now table.now assignments.now 0 columns.now)))) }
    ensures settings { IfOk result (λ settings. set_stored catalog.now table.now assignments.now 0 columns.now ≡ map set_of settings.items) }
{
    let Ok(mut settings) = Vec::with_capacity(alloc, assignments.len()) else {
        return Err(Cause::OutOfMemory);
    };
    for (number, column) in columns.iter().enumerate() {
        let one = setting(alloc, catalog, table, assignments, number, column)?;
        push_some(&mut settings, one)?;
    }
    Ok(settings)
}

/// What SET says, in the order of the table's columns.
pub(crate) fn settings_of(
    alloc: Global,
    catalog: &Catalog,
    table: &Table,
    assignments: &[Assignment],
) -> Result<Vec<Setting>, Cause>
    ensures refused { IfErr result (λ cause. IsFirst cause (faults (map (λ set. set.1) (set_stored catalog.now table.now assignments.now 0 table.now.columns)))) }
    ensures fit { OnOk result (faults (map (λ set. set.1) (set_stored catalog.now table.now assignments.now 0 table.now.columns)) ≡ []) }
    ensures settings { IfOk result (λ settings. settings.items ≡ settings_of catalog.now table.now assignments.now) }
{
    settings_in(alloc, catalog, table, table.columns.as_slice(), assignments)
}
