ghost use Rattle.std.specs.Prelude.{◌≡◌};
ghost use Rattle.vl_exec.specs.Begun.{can_run};

use vl_catalog::Catalog;
use vl_change::running::can_change;
use vl_plan::plan::Plan;

/// Whether a program runs the plan: an INSERT or a SELECT, or an UPDATE or a DELETE of a table without lookups.
pub fn can_run(catalog: &Catalog, plan: &Plan) -> bool
    ensures { result ≡ can_run catalog.now plan.now }
{
    match plan {
        Plan::Insert(_) | Plan::Select(_) => true,
        Plan::Update(plan) => can_change(catalog, &plan.pred, &plan.route),
        Plan::Delete(plan) => can_change(catalog, &plan.pred, &plan.route),
        _ => false,
    }
}
