ghost use Rattle.std.specs.Prelude.{◌≡◌, ◌+◌, ◌<◌, ◌≤◌, ◌++◌, ◌∷◌, ◌^◌, ℕ, true, List, [], Contains, IfOk, Some, filter, length, slice_get, slice_index_or, vec_capacity, vec_len};
ghost use Rattle.std.specs.Option.{option_to_list};
ghost use Rattle.std.specs.Vec.Iter.{into_iter_items};
ghost use Rattle.vl_values.specs.declared.value.Value.TheVariants.{Null};
ghost use Rattle.vl_values.specs.Value.{is_null};
ghost use Rattle.vl_catalog.specs.Place.{shard_count};
ghost use Rattle.vl_lookup.specs.Making.{IsIndexedRow};
ghost use Rattle.vl_plan.specs.Fits.{FitsInsert};
ghost use Rattle.vl_rules.specs.Order.{Checked};
ghost use Rattle.vl_insert.specs.declared.outline.Outline.{Outline as AnOutline};
ghost use Rattle.vl_insert.specs.Begun.{is_indexed_by, key_in, lookups_of};
ghost use Rattle.vl_insert.specs.Laying.{AreOutlines, HasWholeKey, IsLaidFor, LaysClaims, LaysRow, lacks_one, target_of, with_rows};

use crate::groundwork::Groundwork;
use crate::insertion::Insertion;
use crate::outline::Outline;
use crate::target::Target;
use crate::task::Task;
use std::alloc::{AllocError, Global};
use std::vec;
use vl_catalog::{Catalog, LookupNo};
use vl_lookup::claim::Claim;
use vl_plan::insert_plan::InsertPlan;
use vl_port::act::Act;
use vl_values::TableNo;
use vl_values::key::Key;
use vl_values::row::Row;
use vl_values::value::Value;

// The key of a row of the table of this number.
fn key_in(
    alloc: Global,
    catalog: &Catalog,
    number: TableNo,
    row: &[Value],
) -> Result<Key, AllocError>
    ensures { IfOk result (λ key. key ≡ key_in catalog.now number row.now) }
{
    match catalog.tables.as_slice().get(number as usize) {
        Some(table) => table.key_of(alloc, number, row),
        None => Ok(Key {
            table: number,
            pk: Row::from_vec(Vec::new(alloc)),
        }),
    }
}

fn target_of(
    alloc: Global,
    catalog: &Catalog,
    number: TableNo,
    row: &[Value],
) -> Result<Target, AllocError>
    requires { shard_count catalog.now.rings < 2 ^ 32 }
    ensures { IfOk result (λ target. target ≡ target_of catalog.now number row.now) }
{
    let key = key_in(alloc, catalog, number, row)?;
    let shard = match catalog.place_of(number, row) {
        Some(shard) => shard,
        None => 0,
    };
    Ok(Target { shard, key })
}

// Whether a row isn't NULL in the column of the lookup of this number.
fn is_indexed_by(catalog: &Catalog, row: &[Value], number: LookupNo) -> bool
    ensures { result ≡ is_indexed_by catalog.now row.now number }
{
    let Some(lookup) = catalog.lookups.as_slice().get(number as usize) else {
        return false;
    };
    let Some(column) = lookup.column else {
        return false;
    };
    match row.get(column) {
        Some(value) => !value.is_null(),
        None => false,
    }
}

// Whether a row is NULL in a column.
fn is_null_at(row: &[Value], column: usize) -> bool
    ensures { result ≡ is_null (slice_index_or row.now column Null) }
{
    match row.get(column) {
        Some(value) => value.is_null(),
        None => true,
    }
}

// Whether a row is NULL in one of these columns.
fn lacks_one(row: &[Value], columns: &[usize]) -> bool
    ensures { result ≡ lacks_one row.now columns.now }
{
    columns.iter().any(|column| is_null_at(row, *column))
}

// The outline of the claim that a row needs in this lookup, if it needs one, behind the others.
fn add_claim(
    alloc: Global,
    catalog: &Catalog,
    list: &mut Vec<Outline>,
    number: LookupNo,
    row: &[Value],
) -> Result<(), AllocError>
    requires checked { Checked catalog.now }
    requires indexed { is_indexed_by catalog.now row.now number ≡ true → IsIndexedRow catalog.now number row.now }
    ensures { IfOk result (λ _. LaysClaims catalog.now row.now (filter (is_indexed_by catalog.now row.now) (number ∷ [])) list.old.items list.new.items) }
{
    if !is_indexed_by(catalog, row, number) {
        return Ok(());
    }
    let claim = Claim::new(alloc, catalog, number, row)?;
    list.push(Outline::Claim(claim))?;
    Ok(())
}

// The outlines of the claims that a row needs in these lookups, behind the others.
fn add_claims(
    alloc: Global,
    catalog: &Catalog,
    list: &mut Vec<Outline>,
    lookups: &[LookupNo],
    row: &[Value],
) -> Result<(), AllocError>
    requires checked { Checked catalog.now }
    requires indexed { (l : ℕ) → Contains lookups.now l → is_indexed_by catalog.now row.now l ≡ true → IsIndexedRow catalog.now l row.now }
    ensures { IfOk result (λ _. LaysClaims catalog.now row.now (filter (is_indexed_by catalog.now row.now) lookups.now) list.old.items list.new.items) }
{
    for number in lookups {
        add_claim(alloc, catalog, list, *number, row)?;
    }
    Ok(())
}

// The outlines of a row of the table of this number, behind the others.
fn add_row(
    alloc: Global,
    catalog: &Catalog,
    list: &mut Vec<Outline>,
    number: TableNo,
    row: &[Value],
) -> Result<(), AllocError>
    requires checked { Checked catalog.now }
    requires shards { shard_count catalog.now.rings < 2 ^ 32 }
    requires indexed { HasWholeKey catalog.now number row.now → (l : ℕ) → Contains (lookups_of catalog.now number) l → is_indexed_by catalog.now row.now l ≡ true → IsIndexedRow catalog.now l row.now }
    ensures { IfOk result (λ _. LaysRow catalog.now number row.now list.old.items list.new.items) }
{
    // What a plan names exists.
    let Some(table) = catalog.tables.as_slice().get(number as usize) else {
        return Err(AllocError);
    };
    // Nor has a plan a row that is NULL in its primary key.
    if lacks_one(row, table.pk.as_slice()) {
        return Err(AllocError);
    }
    let target = target_of(alloc, catalog, number, row)?;
    add_claims(alloc, catalog, list, table.lookups.as_slice(), row)?;
    list.push(Outline::Row(target))?;
    Ok(())
}

fn outlines_of(
    alloc: Global,
    catalog: &Catalog,
    plan: &InsertPlan,
) -> Result<Vec<Outline>, AllocError>
    requires checked { Checked catalog.now }
    requires shards { shard_count catalog.now.rings < 2 ^ 32 }
    requires fits { FitsInsert catalog.now plan.now }
    ensures { IfOk result (λ list. AreOutlines catalog.now plan.now.table plan.now.rows list.items) }
{
    let mut list = Vec::new(alloc);
    for row in plan.rows.as_slice() {
        add_row(alloc, catalog, &mut list, plan.table, row.as_slice())?;
    }
    Ok(list)
}

/// All of a plan's program that takes memory.
pub(crate) fn lay(
    alloc: Global,
    catalog: &Catalog,
    plan: &InsertPlan,
) -> Result<Groundwork, AllocError>
    requires checked { Checked catalog.now }
    requires shards { shard_count catalog.now.rings < 2 ^ 32 }
    requires fits { FitsInsert catalog.now plan.now }
    ensures { IfOk result (IsLaidFor catalog.now plan.now) }
{
    let outlines = outlines_of(alloc, catalog, plan)?;
    let tasks = Vec::with_capacity(alloc, outlines.len())?;
    Ok(Groundwork { outlines, tasks })
}

// The task of an outline, which takes the first of the rows where it is one of a row.
fn task_of(outline: Outline, rows: &mut vec::IntoIter<Row>) -> Option<Task>
    ensures { (rest : List AnOutline) → with_rows (outline ∷ rest) (into_iter_items rows.old) ≡ option_to_list result ++ with_rows rest (into_iter_items rows.new) }
{
    match outline {
        Outline::Claim(claim) => Some(Task::Claim(claim)),
        Outline::Row(Target { shard, key }) => match rows.next() {
            Some(row) => Some(Task::Row(Insertion {
                shard,
                act: Act::Insert { key, row },
            })),
            None => None,
        },
    }
}

/// The tasks of the outlines, which take the rows in order. They take no memory.
pub(crate) fn filled(outlines: Vec<Outline>, rows: Vec<Row>, tasks: Vec<Task>) -> Vec<Task>
    requires { vec_len tasks + length outlines.items ≤ vec_capacity tasks }
    ensures { result.items ≡ tasks.items ++ with_rows outlines.items rows.items }
{
    let mut tasks = tasks;
    let mut left = rows.into_iter();
    for outline in outlines {
        if let Some(task) = task_of(outline, &mut left) {
            let Ok(()) = tasks.push(task) else {
                return tasks;
            };
        }
    }
    tasks
}
