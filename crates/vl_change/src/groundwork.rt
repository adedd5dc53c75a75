use crate::action::Action;
use vl_values::ShardNo;

// All of a program that takes memory, made while its plan is still whole.
#[derive(Drop)]
pub(crate) struct Groundwork {
    // The shards that are read.
    pub(crate) shards: Vec<ShardNo>,
    // None yet.
    pub(crate) actions: Vec<Action>,
}
