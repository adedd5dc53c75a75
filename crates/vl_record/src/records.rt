ghost use Rattle.std.specs.Prelude.{◌≡◌, ◌<◌, ◌≤◌, ◌^◌, [], length};
ghost use Rattle.vl_catalog.specs.Place.{shard_count};
ghost use Rattle.vl_record.specs.Reading.{behind, body_at, body_of, record_at, records_at};
ghost use Rattle.vl_record.specs.Readers.{Gives, rest_of};

use crate::number::{u8_at, u16_within, u32_at};
use crate::part::parts_of;
use crate::read_error::ReadError;
use crate::reader::Reader;
use std::alloc::Global;
use vl_catalog::{Catalog, Part, ShardNo};

#[tactic(auto, unfolding(crate::specs::Reading::body_at))]
fn body_at<'a>(
    alloc: Global,
    catalog: &Catalog,
    shard: ShardNo,
    front: Vec<Part>,
    r: Reader<'a>,
) -> Result<(Vec<Part>, Reader<'a>), ReadError>
    requires { shard_count catalog.now.rings < 2 ^ 32 }
    ensures { Gives (λ x. (x.0.items, rest_of x.1)) result (body_at catalog.now shard front.items (rest_of r.entry)) }
{
    let (count, rest) = u16_within(1, 65535, r)?;
    parts_of(alloc, catalog, shard, count, front, rest)
}

// A body of this length, or what there is of it.
fn body_of(len: u32, r: Reader<'_>) -> Reader<'_>
    ensures { rest_of result ≡ body_of len (rest_of r.entry) }
{
    let len = len as usize;
    if len <= r.bytes.len() {
        Reader {
            bytes: &r.bytes[..len],
            offset: r.offset,
            is_body: true,
        }
    } else {
        Reader {
            bytes: r.bytes,
            offset: r.offset,
            is_body: false,
        }
    }
}

// What stands behind a whole body of this length.
fn behind(len: u32, r: Reader<'_>) -> Reader<'_>
    requires { len ≤ length r.bytes.now }
    ensures { rest_of result ≡ behind len (rest_of r.entry) }
{
    let len = len as usize;
    Reader {
        bytes: &r.bytes[len..],
        offset: r.offset + len,
        is_body: r.is_body,
    }
}

// A record behind its gate: the body ends with its last part.
#[tactic(auto, unfolding(crate::specs::Reading::record_at))]
fn record_at<'a>(
    alloc: Global,
    catalog: &Catalog,
    shard: ShardNo,
    front: Vec<Part>,
    r: Reader<'a>,
) -> Result<(Vec<Part>, Reader<'a>), ReadError>
    requires { shard_count catalog.now.rings < 2 ^ 32 }
    ensures { Gives (λ x. (x.0.items, rest_of x.1)) result (record_at catalog.now shard front.items (rest_of r.entry)) }
{
    let (len, rest) = u32_at(r.offset, r)?;
    let (parts, left) = body_at(alloc, catalog, shard, front, body_of(len, rest))?;
    if left.bytes.is_empty() && len as usize <= rest.bytes.len() {
        Ok((parts, behind(len, rest)))
    } else {
        Err(ReadError::NotOurs(left.offset))
    }
}

/// The parts of all records up to the first closed gate, and what begins with that gate.
pub(crate) fn records_at<'a>(
    alloc: Global,
    catalog: &Catalog,
    shard: ShardNo,
    r: Reader<'a>,
) -> Result<(Vec<Part>, Reader<'a>), ReadError>
    requires { shard_count catalog.now.rings < 2 ^ 32 }
    ensures { Gives (λ x. (x.0.items, rest_of x.1)) result (records_at catalog.now shard (length r.entry.bytes.now) [] (rest_of r.entry)) }
{
    let mut parts = Vec::new(alloc);
    let mut rest = r;
    let most = r.bytes.len();
    for _ in 0..most {
        let (gate, body) = u8_at(rest.offset, rest)?;
        if gate != 167 {
            return Ok((parts, rest));
        }
        let (more, next) = record_at(alloc, catalog, shard, parts, body)?;
        parts = more;
        rest = next;
    }
    Err(ReadError::NotOurs(rest.offset))
}
