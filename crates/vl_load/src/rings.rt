ghost use Rattle.std.specs.Prelude.{◌≡◌, List, IfOk, IfErr};
ghost use Rattle.std.specs.List.{AllZip};
ghost use Rattle.vl_vindex.specs.KeyRange.{Range as ARange, IsRead};
ghost use Rattle.vl_vindex.specs.Ring.{IsRingFault};
ghost use Rattle.vl_load.specs.Faults.{IsUnfit};
ghost use Rattle.vl_load.specs.Rings.{HasRing, IsBadRange, IsRingOf, RefusesRing, RefusesRings, RefusesShards};
ghost use Rattle.vl_load.specs.Turns.{IsFirst};

use crate::keyspace_read::KeyspaceRead;
use crate::load_fault::LoadFault;
use crate::refused::Refused;
use std::alloc::Global;
use vl_catalog::KeyspaceParts;
use vl_values::bytes::Bytes;
use vl_vindex::{KeyRange, Ring, RingFault};

fn range_of(alloc: Global, text: &Bytes) -> Result<KeyRange, LoadFault>
    ensures ok { IfOk result (IsRead text.now) }
    ensures err { IfErr result (IsUnfit (IsBadRange text.now)) }
{
    match KeyRange::read(text.as_slice()) {
        Ok(range) => Ok(range),
        Err(bad) => match text.copy(alloc) {
            Ok(text) => Err(LoadFault::Refused(Refused::Range { text, at: bad.at })),
            Err(_) => Err(LoadFault::Memory),
        },
    }
}

// The ranges of a keyspace, in the order written.
fn ranges_of(alloc: Global, texts: &[Bytes]) -> Result<Vec<KeyRange>, LoadFault>
    ensures ok { IfOk result (λ ranges. AllZip IsRead texts.now ranges.items) }
    ensures err { IfErr result (IsUnfit (IsFirst IsRead IsBadRange texts.now)) }
{
    let mut ranges = Vec::new(alloc);
    for text in texts {
        match range_of(alloc, text) {
            Ok(range) => ranges.push(range)?,
            Err(fault) => return Err(fault),
        }
    }
    Ok(ranges)
}

// Why the ranges of the keyspace of this name are no ring.
fn ring_fault(alloc: Global, name: &Bytes, fault: RingFault) -> LoadFault
    ensures { (ranges : List ARange) → IsRingFault ranges fault → IsUnfit (RefusesRing name.now ranges) result }
{
    let Ok(keyspace) = name.copy(alloc) else {
        return LoadFault::Memory;
    };
    match fault {
        RingFault::Gap { after } => LoadFault::Refused(Refused::Gap { keyspace, after }),
        RingFault::Overlap { at } => LoadFault::Refused(Refused::Overlap { keyspace, at }),
        RingFault::Memory => LoadFault::Memory,
    }
}

fn ring_of(alloc: Global, name: &Bytes, ranges: Vec<KeyRange>) -> Result<Ring, LoadFault>
    ensures ok { IfOk result (IsRingOf ranges.items) }
    ensures err { IfErr result (IsUnfit (RefusesRing name.now ranges.items)) }
{
    match Ring::new(ranges) {
        Ok(ring) => Ok(ring),
        Err(fault) => Err(ring_fault(alloc, name, fault)),
    }
}

// What the files say of a keyspace, with its ring.
fn with_ring(alloc: Global, read: KeyspaceRead) -> Result<KeyspaceParts, LoadFault>
    ensures ok { IfOk result (HasRing read) }
    ensures err { IfErr result (IsUnfit (RefusesShards read)) }
{
    let KeyspaceRead {
        keyspace,
        vschema_file: _,
        vschema,
        schema_file: _,
        tables,
    } = read;
    let ranges = match ranges_of(alloc, keyspace.shards.as_slice()) {
        Ok(ranges) => ranges,
        Err(fault) => return Err(fault),
    };
    match ring_of(alloc, &keyspace.name, ranges) {
        Ok(ring) => Ok(KeyspaceParts {
            name: keyspace.name,
            ring,
            vschema,
            tables,
        }),
        Err(fault) => Err(fault),
    }
}

/// What the files say of the keyspaces, with the ring of each.
pub(crate) fn with_rings(
    alloc: Global,
    reads: Vec<KeyspaceRead>,
) -> Result<Vec<KeyspaceParts>, LoadFault>
    ensures ok { IfOk result (λ parts. AllZip HasRing reads.items parts.items) }
    ensures err { IfErr result (IsUnfit (RefusesRings reads.items)) }
{
    let mut parts = Vec::new(alloc);
    for read in reads {
        match with_ring(alloc, read) {
            Ok(part) => parts.push(part)?,
            Err(fault) => return Err(fault),
        }
    }
    Ok(parts)
}
