ghost use Rattle.std.specs.Prelude.{IfOk, IfErr};
ghost use Rattle.vl_values.specs.Keyed.{InKeyOrder, IsPlace, IsGap};

use crate::slot::Slot;
use vl_values::key::Key;

/// The place of a key among slots in key order, or the place at which it would stand.
pub fn place_of(slots: &[(Key, Slot)], key: &Key) -> Result<usize, usize>
    requires { InKeyOrder slots.now }
    ensures found { IfOk result (IsPlace key.now slots.now) }
    ensures absent { IfErr result (IsGap key.now slots.now) }
{
    slots.binary_search_by(|entry| entry.0.cmp(key))
}
