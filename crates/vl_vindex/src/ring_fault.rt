use crate::side::Side;

/// Why ranges are no ring, at the least keyspace id that isn't in exactly one of them.
#[derive(Drop)]
pub enum RingFault {
    /// No range holds it: it is the end of the range before the gap, or empty at the lowest end.
    Gap { after: Side },
    /// More than one range holds it: it is the start of a range.
    Overlap { at: Side },
    /// There are more than 2^32 ranges, so that shard numbers run out.
    Memory,
}
