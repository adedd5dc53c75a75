use vl_plan::setting::Setting;
use vl_values::items::Items;

/// What is done to each row that an UPDATE or a DELETE finds.
#[derive(Drop)]
pub enum RowChange {
    Remove,
    /// These columns are set, one after the other. A row that stays equal isn't written.
    Set(Items<Setting>),
}
