use crate::setting::Setting;
use vl_model::route::Route;
use vl_values::items::Items;
use vl_values::pred::Pred;

/// An UPDATE of the rows that match, which it goes to by the route. The settings stand in the order of
/// the table's columns, one a column at most, and none is of a primary key column.
#[derive(Debug, Drop)]
pub struct UpdatePlan {
    pub settings: Items<Setting>,
    pub pred: Pred,
    pub route: Route,
}
