ghost use Rattle.std.specs.Prelude.{Some, None};

use crate::carried::Carried;
use crate::link::Link;
use vl_values::ShardNo;

/// A link within the process, which loses nothing.
#[derive(Clone, Copy, Debug, PartialEq, Eq)]
pub struct LocalLink;

impl Link for LocalLink {
    ghost faults = { λ link. 0 };

    ghost losses = { λ link. Some (λ shard. None) };

    fn carry(&mut self, _shard: ShardNo) -> Carried {
        Carried::Passed
    }
}
