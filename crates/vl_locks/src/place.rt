ghost use Rattle.std.specs.Prelude.{IfOk, IfErr};
ghost use Rattle.vl_values.specs.Keyed.{InKeyOrder, IsPlace, IsGap};

use vl_values::ConnNo;
use vl_values::key::Key;

/// The place of a key among holds in key order, or the place at which it would stand.
pub fn place_of(holds: &[(Key, ConnNo)], key: &Key) -> Result<usize, usize>
    requires { InKeyOrder holds.now }
    ensures found { IfOk result (IsPlace key.now holds.now) }
    ensures absent { IfErr result (IsGap key.now holds.now) }
{
    holds.binary_search_by(|hold| hold.0.cmp(key))
}
