use crate::projection::Projection;
use crate::sort::Sort;
use vl_model::route::Route;
use vl_values::items::Items;
use vl_values::pred::Pred;

/// A SELECT of the rows that match, which it goes to by the route.
#[derive(Debug, Drop)]
pub struct SelectPlan {
    pub what: Projection,
    pub pred: Pred,
    pub route: Route,
    pub sorts: Items<Sort>,
    pub limit: Option<u64>,
    /// FOR UPDATE
    pub locking: bool,
}
