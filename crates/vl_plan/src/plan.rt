use crate::delete_plan::DeletePlan;
use crate::insert_plan::InsertPlan;
use crate::select_plan::SelectPlan;
use crate::update_plan::UpdatePlan;
use vl_values::bytes::Bytes;

/// A statement that its catalog takes. Tables and columns are numbers, and values fit their columns.
#[derive(Debug, Drop)]
pub enum Plan {
    Insert(InsertPlan),
    Select(SelectPlan),
    Update(UpdatePlan),
    Delete(DeletePlan),
    /// BEGIN and START TRANSACTION
    Begin,
    Commit,
    Rollback,
    SetAutocommit(bool),
    /// The name of the character set.
    SetNames(Bytes),
    /// A keyspace of the catalog.
    Use(Bytes),
    ShowTables,
    ShowDatabases,
    ShowWarnings,
    SelectVersionComment,
    SelectDatabase,
}
