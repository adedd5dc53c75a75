use vl_values::TableNo;
use vl_values::items::Items;
use vl_values::row::Row;

/// An INSERT. Each row has a value for each column of the table, in their order.
#[derive(Debug, Drop)]
pub struct InsertPlan {
    pub table: TableNo,
    pub rows: Items<Row>,
}
