ghost use Rattle.std.specs.Prelude.{◌≡◌, ◌<◌, ◌^◌, [], length, Some};
ghost use Rattle.std.specs.Option.{option_copied};
ghost use Rattle.vl_catalog.specs.Place.{shard_count};
ghost use Rattle.vl_record.specs.Reading.{change_at, group_at, group_of, many_at, new_row_at, new_row_of, next_part, part_at};
ghost use Rattle.vl_record.specs.Readers.{Gives, rest_of};

use crate::allowed::last_changed;
use crate::key::{key_at, row_at};
use crate::number::{u8_at, u32_at, u64_within};
use crate::read_error::ReadError;
use crate::reader::Reader;
use std::alloc::Global;
use vl_catalog::{Catalog, Change, Part, ShardNo};
use vl_values::group::Group;
use vl_values::items::Items;
use vl_values::key::Key;
use vl_values::row::Row;

#[tactic(auto, unfolding(crate::specs::Reading::new_row_of))]
fn new_row_of<'a>(
    alloc: Global,
    catalog: &Catalog,
    key: &Key,
    kind: u8,
    first: usize,
    r: Reader<'a>,
) -> Result<(Option<Row>, Reader<'a>), ReadError>
    ensures { Gives (λ x. (x.0, rest_of x.1)) result (new_row_of catalog.now key.now kind first (rest_of r.entry)) }
{
    match kind {
        0 => Ok((None, r)),
        1 => {
            let (row, rest) = row_at(alloc, catalog, key, r)?;
            Ok((Some(row), rest))
        }
        _ => Err(ReadError::NotOurs(first)),
    }
}

#[tactic(auto, unfolding(crate::specs::Reading::new_row_at))]
fn new_row_at<'a>(
    alloc: Global,
    catalog: &Catalog,
    key: &Key,
    r: Reader<'a>,
) -> Result<(Option<Row>, Reader<'a>), ReadError>
    ensures { Gives (λ x. (x.0, rest_of x.1)) result (new_row_at catalog.now key.now (rest_of r.entry)) }
{
    let (kind, rest) = u8_at(r.offset, r)?;
    new_row_of(alloc, catalog, key, kind, r.offset, rest)
}

// A change behind these of its part.
#[tactic(auto, unfolding(crate::specs::Reading::change_at))]
fn change_at<'a>(
    alloc: Global,
    catalog: &Catalog,
    shard: ShardNo,
    front: &[Change],
    r: Reader<'a>,
) -> Result<(Change, Reader<'a>), ReadError>
    requires { shard_count catalog.now.rings < 2 ^ 32 }
    ensures { Gives (λ x. (x.0, rest_of x.1)) result (change_at catalog.now shard front.now (rest_of r.entry)) }
{
    let (key, rest) = key_at(alloc, catalog, shard, last_changed(front), r)?;
    let (row, rest) = new_row_at(alloc, catalog, &key, rest)?;
    Ok((Change { key, row }, rest))
}

fn changes_of<'a>(
    alloc: Global,
    catalog: &Catalog,
    shard: ShardNo,
    count: u32,
    r: Reader<'a>,
) -> Result<(Vec<Change>, Reader<'a>), ReadError>
    requires { shard_count catalog.now.rings < 2 ^ 32 }
    ensures { Gives (λ x. (x.0.items, rest_of x.1)) result (many_at (change_at catalog.now shard) count [] (rest_of r.entry)) }
{
    let mut changes = Vec::new(alloc);
    let mut rest = r;
    for _ in 0..count {
        let (change, next) = change_at(alloc, catalog, shard, changes.as_slice(), rest)?;
        changes.push(change)?;
        rest = next;
    }
    Ok((changes, rest))
}

#[tactic(auto, unfolding(crate::specs::Reading::group_of, crate::specs::Reading::group_at))]
fn group_at(r: Reader<'_>) -> Result<(Group, Reader<'_>), ReadError>
    ensures { Gives (λ x. (x.0, rest_of x.1)) result (group_at (rest_of r.entry)) }
{
    let (kind, rest) = u8_at(r.offset, r)?;
    match kind {
        0 => Ok((Group::Pre, rest)),
        1 => Ok((Group::Main, rest)),
        2 => Ok((Group::Post, rest)),
        _ => Err(ReadError::NotOurs(r.offset)),
    }
}

#[tactic(auto, unfolding(crate::specs::Reading::part_at))]
fn part_at<'a>(
    alloc: Global,
    catalog: &Catalog,
    shard: ShardNo,
    r: Reader<'a>,
) -> Result<(Part, Reader<'a>), ReadError>
    requires { shard_count catalog.now.rings < 2 ^ 32 }
    ensures { Gives (λ x. (x.0, rest_of x.1)) result (part_at catalog.now shard (rest_of r.entry)) }
{
    let (tx, rest) = u64_within(0, 4_611_686_018_427_387_903, r)?;
    let (group, rest) = group_at(rest)?;
    let (count, rest) = u32_at(rest.offset, rest)?;
    let (changes, rest) = changes_of(alloc, catalog, shard, count, rest)?;
    let changes = Items::from_vec(changes);
    Ok((Part { tx, group, changes }, rest))
}

/// So many parts more.
pub(crate) fn parts_of<'a>(
    alloc: Global,
    catalog: &Catalog,
    shard: ShardNo,
    count: u16,
    front: Vec<Part>,
    r: Reader<'a>,
) -> Result<(Vec<Part>, Reader<'a>), ReadError>
    requires { shard_count catalog.now.rings < 2 ^ 32 }
    ensures { Gives (λ x. (x.0.items, rest_of x.1)) result (many_at (next_part catalog.now shard) count front.items (rest_of r.entry)) }
{
    let mut parts = front;
    let mut rest = r;
    for _ in 0..count {
        let (part, next) = part_at(alloc, catalog, shard, rest)?;
        parts.push(part)?;
        rest = next;
    }
    Ok((parts, rest))
}
