ghost use Rattle.std.specs.Prelude.{◌≡◌};
ghost use Rattle.vl_change.specs.Begun.{can_change, has_no_lookup, is_direct, unsupported};

use vl_catalog::Catalog;
use vl_model::route::Route;
use vl_plan::plan::Plan;
use vl_values::TableNo;
use vl_values::pred::Pred;
use vl_values::unsupported::Unsupported;

fn has_no_lookup(catalog: &Catalog, number: TableNo) -> bool
    ensures { result ≡ has_no_lookup catalog.now number }
{
    match catalog.tables.as_slice().get(number as usize) {
        Some(table) => table.lookups.len() == 0,
        None => false,
    }
}

fn is_direct(route: &Route) -> bool
    ensures { result ≡ is_direct route.now }
{
    match route {
        Route::Primary(_) | Route::All => true,
        Route::Lookup(_, _) => false,
    }
}

/// Whether the rows of the predicate's table may be changed here, which are gone to by the route: the table has
/// no lookups.
pub fn can_change(catalog: &Catalog, pred: &Pred, route: &Route) -> bool
    ensures { result ≡ can_change catalog.now pred.now route.now }
{
    has_no_lookup(catalog, pred.table) && is_direct(route)
}

/// Why a statement is refused that has a plan and no program: an UPDATE or a DELETE of a table with lookups. A
/// plan is made where nothing else refuses its statement, so this comes after all other refusals.
pub fn unsupported(catalog: &Catalog, plan: &Plan) -> Option<Unsupported>
    ensures { result ≡ unsupported catalog.now plan.now }
{
    let can_run = match plan {
        Plan::Update(plan) => can_change(catalog, &plan.pred, &plan.route),
        Plan::Delete(plan) => can_change(catalog, &plan.pred, &plan.route),
        _ => true,
    };
    if can_run {
        None
    } else {
        Some(Unsupported::Lookups)
    }
}
