ghost use Rattle.std.specs.Prelude.{◌≡◌};
ghost use Rattle.vl_vindex.specs.KeyRange.{comes_before, is_above};

use std::cmp::Ordering;

// Whether byte string `a` stands before `b`.
pub(crate) fn comes_before(a: &[u8], b: &[u8]) -> bool
    ensures { result ≡ comes_before a.now b.now }
{
    a.cmp(b) == Ordering::Less
}

// Whether the end of a range stands above a byte string; an empty end does.
pub(crate) fn is_above(end: &[u8], ksid: &[u8]) -> bool
    ensures { result ≡ is_above end.now ksid.now }
{
    end.is_empty() || comes_before(ksid, end)
}
