ghost use Rattle.std.specs.Prelude.{◌≡◌, ◌<◌, ◌^◌, [], IfOk};
ghost use Rattle.vl_catalog.specs.Place.{shard_count};
ghost use Rattle.vl_model.specs.Visiting.{visited};

use crate::groundwork::Groundwork;
use std::alloc::{AllocError, Global};
use vl_catalog::Catalog;
use vl_model::route::Route;
use vl_route::visiting::visited;
use vl_values::pred::Pred;

/// All of a statement's program that takes memory.
pub(crate) fn lay(
    alloc: Global,
    catalog: &Catalog,
    pred: &Pred,
    route: &Route,
) -> Result<Groundwork, AllocError>
    requires { shard_count catalog.now.rings < 2 ^ 32 }
    ensures shards { IfOk result (λ laid. laid.shards.items ≡ visited catalog.now pred.now.table route.now []) }
    ensures none { IfOk result (λ laid. laid.actions.items ≡ []) }
{
    Ok(Groundwork {
        shards: visited(alloc, catalog, pred.table, route, &[])?,
        actions: Vec::new(alloc),
    })
}
