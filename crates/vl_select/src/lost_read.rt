ghost use Rattle.std.specs.Prelude.{◌≡◌};
ghost use Rattle.vl_rules.specs.Order.{Checked};
ghost use Rattle.vl_select.specs.Answering.{loss};
ghost use Rattle.vl_select.specs.Progress.{Action};

use vl_catalog::Catalog;
use vl_statement::refusing::{read_lost, session_lost};
use vl_values::ShardNo;
use vl_values::cause::Cause;
use vl_values::group::Group;
use vl_values::lost_why::LostWhy;

/// The loss of a session, or of a read without one.
pub(crate) fn loss(
    catalog: &Catalog,
    group: Group,
    shard: ShardNo,
    session: bool,
    why: LostWhy,
) -> Cause
    requires { Checked catalog.now }
    ensures { (action : Action) → action.group ≡ group → action.shard ≡ shard → result ≡ loss catalog.now action session why }
{
    if session {
        session_lost(catalog, group, shard, why)
    } else {
        read_lost(catalog, shard)
    }
}
