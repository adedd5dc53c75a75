ghost use Rattle.std.specs.Prelude.{◌≡◌, ℕ, ◌<◌, ◌≤◌, ◌^◌, ◌+◌, List, length, vec_len, ◌↔◌, IsTrue, IfOk, IfErr, OnOk, IsPermutation};
ghost use Rattle.std.specs.Cmp.Lexicographic.{slice_cmp};
ghost use Rattle.std.specs.Ordering.{nat_cmp};
ghost use Rattle.vl_vindex.specs.KeyRange.{Range};
ghost use Rattle.vl_vindex.specs.Checking.{Follows, Misses, IsLastStart};
ghost use Rattle.vl_vindex.specs.Ring.{CoversOnce, IsInOrder, IsRing, IsRingFault, IsShardOf, IsChain, shard_of};

use crate::ShardNo;
use crate::key_range::KeyRange;
use crate::order::comes_before;
use crate::ring_fault::RingFault;
use crate::side::Side;
use std::alloc::{AllocError, Global};
use std::cmp::Ordering;
use std::marker::Model;

// How many shards a `ShardNo` can number.
const MOST_SHARDS: usize = 1 << 32;

/// The key ranges of a keyspace's shards, in order: each keyspace id is in exactly one of them.
#[derive(Drop)]
pub struct Ring {
    ranges: Vec<KeyRange>,
}

impl Model for Ring {
    ghost use Rattle.std.specs.Prelude.{List};
    ghost use Rattle.vl_vindex.specs.KeyRange.{Range};
    ghost use Rattle.vl_vindex.specs.Ring.{IsRing};

    ghost Value = { List Range };

    ghost view = { λ ring. ring.ranges.items };

    ghost invariant = { λ ring. IsRing ring.ranges.items };
}

impl Ring {
    /// Sorts the ranges by their starts. They are refused where the least keyspace id that isn't in
    /// exactly one of them is in none, a gap, or in more, an overlap.
    pub fn new(mut ranges: Vec<KeyRange>) -> Result<Ring, RingFault>
        ensures ok { OnOk result (CoversOnce ranges.items) }
        ensures ring { IfOk result (λ ring. IsPermutation ranges.items ring × IsInOrder ring) }
        ensures same { IfOk result (λ ring. IsInOrder ranges.items → ring ≡ ranges.items) }
        ensures fault { IfErr result (IsRingFault ranges.items) }
    {
        if ranges.len() > MOST_SHARDS {
            return Err(RingFault::Memory);
        }
        if is_in_order(&ranges) {
            return Ring::from_sorted(ranges);
        }
        ranges.sort_unstable_by(by_start);
        Ring::from_sorted(ranges)
    }

    fn from_sorted(ranges: Vec<KeyRange>) -> Result<Ring, RingFault>
        requires order { IsInOrder ranges.items }
        requires few { vec_len ranges ≤ 2 ^ 32 }
        ensures ok { OnOk result (IsRing ranges.items) }
        ensures same { IfOk result (λ ring. ring ≡ ranges.items) }
        ensures fault { IfErr result (IsRingFault ranges.items) }
    {
        match check(&ranges) {
            Ok(()) => Ok(Ring { ranges }),
            Err(fault) => Err(fault),
        }
    }

    /// The shards' ranges, in the order of their numbers.
    pub fn ranges(&self) -> &[KeyRange]
        ensures value { result.now ≡ self.now }
        ensures once { CoversOnce self.now }
        ensures order { IsInOrder self.now }
        ensures few { length self.now ≤ 2 ^ 32 }
    {
        &self.ranges
    }

    /// The one shard whose range holds the keyspace id, by binary search.
    pub fn shard_of(&self, ksid: &[u8]) -> ShardNo
        ensures value { result ≡ shard_of self.now ksid.now }
        ensures holds { IsShardOf self.now ksid.now result }
    {
        last_start(&self.ranges, ksid) as ShardNo
    }

    /// A copy. `AllocError` where memory was refused.
    pub fn copy(&self, alloc: Global) -> Result<Ring, AllocError>
        ensures { IfOk result (λ ring. ring ≡ self.now) }
    {
        Ok(Ring {
            ranges: copied(alloc, &self.ranges)?,
        })
    }
}

fn is_in_order(ranges: &[KeyRange]) -> bool
    ensures { IsTrue result ↔ IsInOrder ranges.now }
{
    for i in 1..ranges.len() {
        if comes_before(
            ranges[i].start().as_slice(),
            ranges[i - 1].start().as_slice(),
        ) {
            return false;
        }
    }
    true
}

fn copied(alloc: Global, ranges: &[KeyRange]) -> Result<Vec<KeyRange>, AllocError>
    ensures { IfOk result (λ copy. copy.items ≡ ranges.now) }
{
    let mut copy = Vec::with_capacity(alloc, ranges.len())?;
    for range in ranges {
        copy.push(range.copy())?;
    }
    Ok(copy)
}

fn by_start(a: &KeyRange, b: &KeyRange) -> Ordering
    ensures { result ≡ slice_cmp nat_cmp a.now.start b.now.start }
{
    a.start().as_slice().cmp(b.start().as_slice())
}

// The first fault of sorted ranges: each has to begin where the ranges before it end, from the
// empty start to an open end.
fn check(ranges: &[KeyRange]) -> Result<(), RingFault>
    requires order { IsInOrder ranges.now }
    requires few { length ranges.now ≤ 2 ^ 32 }
    ensures ok { OnOk result (IsRing ranges.now) }
    ensures fault { IfErr result (IsRingFault ranges.now) }
{
    let mut reached = Side::empty();
    let mut endless = false;
    for range in ranges {
        if let Err(fault) = follows(&reached, endless, range) {
            return Err(fault);
        }
        reached = range.end().copy();
        endless = reached.is_empty();
    }
    if endless {
        Ok(())
    } else {
        Err(RingFault::Gap { after: reached })
    }
}

// Whether a range begins where those before it end; `endless` says that their end is open.
fn follows(reached: &Side, endless: bool, range: &KeyRange) -> Result<(), RingFault>
    ensures ok { OnOk result (Follows reached.now endless range.now) }
    ensures fault { IfErr result (Misses reached.now endless range.now) }
{
    if endless {
        return Err(RingFault::Overlap {
            at: range.start().copy(),
        });
    }
    match reached.as_slice().cmp(range.start().as_slice()) {
        Ordering::Less => Err(RingFault::Gap {
            after: reached.copy(),
        }),
        Ordering::Equal => Ok(()),
        Ordering::Greater => Err(RingFault::Overlap {
            at: range.start().copy(),
        }),
    }
}

// The last range that doesn't start behind the keyspace id: half of those left at each comparison.
fn last_start(ranges: &[KeyRange], ksid: &[u8]) -> usize
    requires { IsChain ranges.now }
    ensures { IsLastStart ranges.now ksid.now result }
{
    let mut low = 0;
    let mut high = ranges.len();
    while high - low > 1 {
        let middle = low + (high - low) / 2;
        if comes_before(ksid, ranges[middle].start().as_slice()) {
            high = middle;
        } else {
            low = middle;
        }
    }
    low
}
