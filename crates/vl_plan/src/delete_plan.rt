use vl_model::route::Route;
use vl_values::pred::Pred;

/// A DELETE of the rows that match, which it goes to by the route.
#[derive(Debug, Drop)]
pub struct DeletePlan {
    pub pred: Pred,
    pub route: Route,
}
