ghost use Rattle.std.specs.Prelude.{◌≡◌, ◌<◌, OnOk, IfOk, length};
ghost use Rattle.vl_change.specs.Changes.{writes_of};
ghost use Rattle.vl_change.specs.Progress.{has_read};

use crate::action::Action;
use crate::changes::writes_of;
use crate::row_change::RowChange;
use std::alloc::{AllocError, Global};
use vl_port::act::Act;
use vl_statement::tally::Tally;
use vl_values::ShardNo;
use vl_values::items::Items;
use vl_values::key::Key;
use vl_values::row::Row;

/// The search of an UPDATE or a DELETE for its rows.
#[derive(Drop)]
pub struct Search {
    /// The locking read, which is the same on each shard.
    pub find: Act,
    pub change: RowChange,
    /// The shards that are read, in the order of their numbers.
    pub shards: Items<ShardNo>,
    /// How many of them were read.
    pub read: usize,
    /// The rows that were found there.
    pub tally: Tally,
}

impl Search {
    /// A read gave these rows of a shard, which are counted in this tally: the writes that they ask for.
    pub(crate) fn add_found(
        &mut self,
        alloc: Global,
        shard: ShardNo,
        rows: Vec<(Key, Row)>,
        tally: Tally,
    ) -> Result<Vec<Action>, AllocError>
        requires { self.old.read < length self.old.shards }
        ensures read { OnOk result (self.new ≡ has_read tally self.old) }
        ensures writes { IfOk result (λ actions. actions.items ≡ writes_of self.old.change shard rows.items) }
    {
        let actions = writes_of(alloc, &self.change, shard, rows)?;
        self.tally = tally;
        // It always is: the test bounds the sum.
        if self.read < self.shards.len() {
            self.read += 1;
        }
        Ok(actions)
    }
}
