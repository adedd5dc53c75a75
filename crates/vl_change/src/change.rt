ghost use Rattle.std.specs.Prelude.{◌≡◌, ◌<◌, ◌≤◌, ◌+◌, ◌⊎◌, true, false, ℕ, List, [], IfErr, IfOk, OnOk, OnErr, length};
ghost use Rattle.std.specs.Option.{option_copied, option_map};
ghost use Rattle.vl_values.specs.declared.key.Key.{Key as AKey};
ghost use Rattle.vl_catalog.specs.Place.{shard_count};
ghost use Rattle.vl_rules.specs.Order.{Checked};
ghost use Rattle.vl_plan.specs.Fits.{FitsDelete, FitsUpdate};
ghost use Rattle.vl_port.specs.declared.answer.Answer.TheVariants as answers;
ghost use Rattle.vl_port.specs.Asking.{IsSameTx};
ghost use Rattle.vl_port.specs.Calls.{IsSamePort};
ghost use Rattle.vl_port.specs.Others.{LeavesOthers};
ghost use Rattle.vl_port.specs.Serving.{Serves};
ghost use Rattle.vl_port.specs.Transaction.{IsIn, last_tx};
ghost use Rattle.vl_port.specs.View.{Values};
ghost use Rattle.vl_statement.specs.declared.program_told.ProgramTold.TheVariants.{More};
ghost use Rattle.vl_statement.specs.Effects.{HasLocksOf, HasPendingOf, IsWell, LeavesOpen};
ghost use Rattle.vl_statement.specs.Refusing.{OrNoMemory, limit_of_changes};
ghost use Rattle.vl_statement.specs.Tallies.{counted, first_over};
ghost use Rattle.vl_statement.specs.Waiting.{Waits};
ghost use Rattle.vl_change.specs.declared.action.Action.{Action as AnAction};
ghost use Rattle.vl_change.specs.Answering.{Answered, Goes, Takes, refused, reply_of};
ghost use Rattle.vl_change.specs.Begun.{can_change, deleting, searching, updating};
ghost use Rattle.vl_change.specs.Effects.{AreOwed, HasWritten};
ghost use Rattle.vl_change.specs.Making.{IsMade};
ghost use Rattle.vl_change.specs.Progress.{IsNearer, acts_done, due, found, with_rows, with_try, with_write};
ghost use Rattle.vl_change.specs.Stepping.{Stepped};

use crate::action::Action;
use crate::actions::Actions;
use crate::groundwork::Groundwork;
use crate::row_change::RowChange;
use crate::search::Search;
use crate::starting::lay;
use std::alloc::{AllocError, Global};
use std::marker::Model;
use vl_catalog::Catalog;
use vl_plan::delete_plan::DeletePlan;
use vl_plan::update_plan::UpdatePlan;
use vl_port::act::Act;
use vl_port::answer::Answer;
use vl_port::asked::Asked;
use vl_port::asking::ask;
use vl_port::found_rows::FoundRows;
use vl_port::port::ShardPort;
use vl_port::tx_state::TxState;
use vl_route::home::each_covers;
use vl_statement::program_told::ProgramTold;
use vl_statement::refusing::{device_failed, limit_of_changes, session_lost};
use vl_statement::tally::Tally;
use vl_statement::telling;
use vl_values::cause::Cause;
use vl_values::group::Group;
use vl_values::items::Items;
use vl_values::key::Key;
use vl_values::pred::Pred;
use vl_values::row::Row;
use vl_values::{SessionNo, ShardNo};

/// An UPDATE or a DELETE that is run, one action at a time.
#[derive(Drop)]
pub struct Change {
    search: Search,
    writes: Actions,
    done: usize,
    wrote: bool,
    tries: u32,
}

impl Model for Change {
    ghost use Rattle.vl_change.specs.Progress.{Progress};

    ghost Value = { Progress };

    ghost view = { λ p. record { search = p.search; writes = p.writes; done = p.done; wrote = p.wrote; tries = p.tries } };
}

// The program that finds the rows first. It takes no memory.
fn begin(pred: Pred, change: RowChange, laid: Groundwork) -> Change
    requires { laid.actions.items ≡ [] }
    ensures { result ≡ searching pred change laid.shards.items }
{
    let Groundwork { shards, actions } = laid;
    let search = Search {
        find: Act::Find {
            pred,
            locking: true,
        },
        change,
        shards: Items::from_vec(shards),
        read: 0,
        tally: Tally::new(),
    };
    Change {
        search,
        writes: Actions::from_vec(actions),
        done: 0,
        wrote: false,
        tries: 0,
    }
}

impl Change {
    /// The program of an UPDATE of a table without lookups. The plan comes back where memory was refused.
    pub fn update(
        alloc: Global,
        catalog: &Catalog,
        plan: UpdatePlan,
    ) -> Result<Change, (UpdatePlan, AllocError)>
        requires checked { Checked catalog.now }
        requires fits { FitsUpdate catalog.now plan }
        requires run { can_change catalog.now plan.pred plan.route ≡ true }
        ensures begun { IfOk result (λ change. change ≡ updating catalog.now plan) }
        ensures made { IfOk result (λ change. (limit : ℕ) → 1 ≤ limit → IsMade catalog.now (shard_count catalog.now.rings) limit change) }
        ensures back { IfErr result (λ back. back.0 ≡ plan) }
    {
        each_covers(catalog.rings.as_slice());
        match lay(alloc, catalog, &plan.pred, &plan.route) {
            Ok(laid) => {
                let UpdatePlan {
                    settings,
                    pred,
                    route: _,
                } = plan;
                Ok(begin(pred, RowChange::Set(settings), laid))
            }
            Err(full) => Err((plan, full)),
        }
    }

    /// The program of a DELETE from a table without lookups. The plan comes back where memory was refused.
    pub fn delete(
        alloc: Global,
        catalog: &Catalog,
        plan: DeletePlan,
    ) -> Result<Change, (DeletePlan, AllocError)>
        requires checked { Checked catalog.now }
        requires fits { FitsDelete catalog.now plan }
        requires run { can_change catalog.now plan.pred plan.route ≡ true }
        ensures begun { IfOk result (λ change. change ≡ deleting catalog.now plan) }
        ensures made { IfOk result (λ change. (limit : ℕ) → 1 ≤ limit → IsMade catalog.now (shard_count catalog.now.rings) limit change) }
        ensures back { IfErr result (λ back. back.0 ≡ plan) }
    {
        each_covers(catalog.rings.as_slice());
        match lay(alloc, catalog, &plan.pred, &plan.route) {
            Ok(laid) => {
                let DeletePlan { pred, route: _ } = plan;
                Ok(begin(pred, RowChange::Remove, laid))
            }
            Err(full) => Err((plan, full)),
        }
    }

    /// The group and the shard of the session that the action which is due goes by, if one is due.
    pub fn due_session(&self) -> Option<(Group, ShardNo)>
        ensures { result ≡ option_map (λ action. (action.group, action.shard)) (due self.now) }
    {
        if let Some(shard) = self.search.shards.as_slice().get(self.search.read) {
            return Some((Group::Main, *shard));
        }
        match self.writes.as_slice().get(self.done) {
            Some(action) => Some((action.group, action.shard)),
            None => None,
        }
    }

    // Its act.
    fn due(&self) -> Option<&Act>
        ensures { option_copied result ≡ option_map (λ action. action.act) (due self.now) }
    {
        if self.search.read < self.search.shards.len() {
            return Some(&self.search.find);
        }
        match self.writes.as_slice().get(self.done) {
            Some(action) => Some(&action.act),
            None => None,
        }
    }

    /// A copy of the act that is due; None where no action is left.
    pub fn due_act(&self, alloc: Global) -> Result<Option<Act>, AllocError>
        ensures { IfOk result (λ act. act ≡ option_map (λ action. action.act) (due self.now)) }
    {
        match self.due() {
            Some(act) => Ok(Some(act.copy(alloc)?)),
            None => Ok(None),
        }
    }

    /// Whether a version was written.
    pub fn wrote(&self) -> bool
        ensures { result ≡ self.now.wrote }
    {
        self.wrote
    }

    // How many rows were found.
    fn found(&self) -> u64
        ensures { result ≡ found self.now }
    {
        match self.search.change {
            RowChange::Remove => self.done as u64,
            RowChange::Set(_) => self.search.tally.rows,
        }
    }

    fn reply(&self, tx: &TxState) -> ProgramTold
        ensures { result ≡ reply_of tx.now self.now }
    {
        telling::done(tx, self.done as u64, self.found())
    }

    fn refused(&self, tx: &TxState, why: Cause) -> ProgramTold
        ensures { result ≡ refused tx.now self.now why }
    {
        telling::refused(tx, self.wrote, why)
    }

    // Whether another action is due, or the reply.
    fn go(&self, tx: &TxState) -> ProgramTold
        ensures { Goes tx.now self.now result self.now }
    {
        match self.due_session() {
            Some(_) => ProgramTold::More,
            None => self.reply(tx),
        }
    }

    // A write was done.
    fn pass(&mut self)
        requires { self.old.done < length self.old.writes }
        ensures { self.new ≡ with_write self.old }
    {
        // It always is: the test bounds the sum.
        let known = self.writes.len();
        if self.done < known {
            self.done += 1;
        }
        self.wrote = true;
        self.tries = 0;
    }

    // A read gave these rows of a shard, which pass no limit with this tally.
    fn take(
        &mut self,
        alloc: Global,
        shard: ShardNo,
        rows: Vec<(Key, Row)>,
        tally: Tally,
    ) -> Result<(), AllocError>
        requires read { self.old.search.read < length self.old.search.shards }
        requires tally { tally ≡ counted self.old.search.tally rows.items }
        ensures ok { OnOk result (self.new ≡ with_rows shard rows.items self.old) }
        ensures err { OnErr result (self.new.wrote ≡ self.old.wrote) }
    {
        let more = self.search.add_found(alloc, shard, rows, tally)?;
        self.writes.append(more)?;
        self.tries = 0;
        Ok(())
    }

    // A read gave these rows of a shard.
    fn took(&mut self, alloc: Global, tx: &TxState, shard: ShardNo, rows: FoundRows) -> ProgramTold
        requires read { self.old.search.read < length self.old.search.shards }
        ensures { Takes tx.now (first_over tx.now.limits self.old.search.tally rows) self.old shard rows result self.new }
    {
        let rows = rows.into_vec();
        match self.search.tally.with_rows(&tx.limits, &rows) {
            Ok(tally) => match self.take(alloc, shard, rows, tally) {
                Ok(()) => self.go(tx),
                Err(_) => self.refused(tx, Cause::OutOfMemory),
            },
            Err((what, count)) => self.refused(tx, Cause::Limit { what, count }),
        }
    }

    // The action was answered `Held`: it is tried again, or the statement is refused.
    #[tactic(auto, using(vl_statement::proofs::Waited::waited))]
    fn wait(
        &mut self,
        alloc: Global,
        catalog: &Catalog,
        tx: &TxState,
        by: SessionNo,
        key: Key,
    ) -> ProgramTold
        requires { self.old.tries < tx.now.limits.tries }
        ensures { Waits catalog.now tx.now self.old.wrote self.old.tries by key result (with_try self.old) self.new }
    {
        let told = telling::wait(alloc, catalog, tx, self.wrote, self.tries, by, key);
        self.tries += 1;
        told
    }

    // What the port's answer to the action means.
    fn answered(
        &mut self,
        alloc: Global,
        catalog: &Catalog,
        tx: &TxState,
        group: Group,
        shard: ShardNo,
        answer: Answer,
    ) -> ProgramTold
        requires checked { Checked catalog.now }
        requires tries { self.old.tries < tx.now.limits.tries }
        requires done { answer ≡ answers.Done → self.old.done < length self.old.writes }
        requires read { (rows : List (AKey × Values)) → answer ≡ answers.Rows rows → self.old.search.read < length self.old.search.shards }
        requires changed { answer ≡ answers.Unchanged → ⊥ }
        requires found { (key : AKey) (row : Values) → answer ≡ answers.Found key row → ⊥ }
        ensures { (action : AnAction) → action.group ≡ group → action.shard ≡ shard → Answered catalog.now tx.now self.old action answer result self.new }
    {
        match answer {
            Answer::Done => {
                self.pass();
                self.go(tx)
            }
            Answer::Rows(rows) => self.took(alloc, tx, shard, rows),
            Answer::Held { by, key } => self.wait(alloc, catalog, tx, by, key),
            Answer::Limit { what, count } => self.refused(tx, Cause::Limit { what, count }),
            Answer::Lost(why) => {
                telling::refused_whole(session_lost(catalog, group, shard, why))
            }
            Answer::Device => telling::refused_whole(device_failed(catalog, shard)),
            // No row is inserted here, and no write depends on a value.
            Answer::Memory | Answer::Unchanged | Answer::Found { .. } => {
                self.refused(tx, Cause::OutOfMemory)
            }
        }
    }

    // Does the action that is due, on one shard.
    fn advance<P: ShardPort>(
        &mut self,
        alloc: Global,
        catalog: &Catalog,
        port: &mut P,
        tx: &mut TxState,
    ) -> ProgramTold
        requires checked { Checked catalog.now }
        requires agree { P.catalog port.old ≡ catalog.now }
        requires number { tx.old.number ≤ last_tx }
        requires made { IsMade catalog.now (P.count port.old) tx.old.limits.tries self.old }
        ensures stepped { Stepped catalog.now self.old tx.old (P.told port.old) result self.new tx.new (P.told port.new) }
        ensures port { IsSamePort (P.catalog port.old) (P.count port.old) (P.catalog port.new) (P.count port.new) }
        ensures tx { IsSameTx tx.old tx.new }
        ensures sessions { IsIn tx.old (P.count port.old) (P.told port.old).shards → IsIn tx.new (P.count port.new) (P.told port.new).shards }
        ensures serves { Serves (P.catalog port.old) (P.count port.old) (P.told port.old).shards → Serves (P.catalog port.new) (P.count port.new) (P.told port.new).shards }
        ensures others { Serves (P.catalog port.old) (P.count port.old) (P.told port.old).shards → LeavesOthers tx.old.number (P.told port.old).shards (P.told port.new).shards }
    {
        let Some((group, shard)) = self.due_session() else {
            return self.reply(tx);
        };
        let Some(act) = self.due() else {
            return self.reply(tx);
        };
        if tx.is_full(act) {
            return self.refused(tx, limit_of_changes(tx));
        }
        let asked = ask(port, tx, group, shard, act);
        match asked {
            Asked::Answered(answer) => self.answered(alloc, catalog, tx, group, shard, answer),
            Asked::Unlisted => self.refused(tx, Cause::OutOfMemory),
        }
    }

    /// Does the action that is due, on one shard, and tells what the statement's state is then.
    ///
    /// After a reply the program is over. A refusal before the first write leaves the transaction with
    /// its locks, unless it is the statement's own. After the first write, and where a session was lost or
    /// a device failed, the reply says that no transaction stays open: its shard sessions are still to be
    /// ended, all of them, by the caller.
    pub fn step<P: ShardPort>(
        &mut self,
        alloc: Global,
        catalog: &Catalog,
        port: &mut P,
        tx: &mut TxState,
    ) -> ProgramTold
        requires checked { Checked catalog.now }
        requires agree { P.catalog port.old ≡ catalog.now }
        requires serves { Serves catalog.now (P.count port.old) (P.told port.old).shards }
        requires sessions { IsIn tx.old (P.count port.old) (P.told port.old).shards }
        requires number { tx.old.number ≤ last_tx }
        requires made { IsMade catalog.now (P.count port.old) tx.old.limits.tries self.old }

        // One action, that which was due, its answer with its cause, and what that means.
        ensures stepped { Stepped catalog.now self.old tx.old (P.told port.old) result self.new tx.new (P.told port.new) }

        // On each shard the statement's writes stand, and so do the rows that it still is to write.
        ensures written { (shard : ℕ) → HasWritten (P.told port.old).shards tx.old self.old shard → IsWell result → HasWritten (P.told port.new).shards tx.new self.new shard }
        ensures owed { (shard : ℕ) → AreOwed (P.told port.old).shards tx.old self.old shard → IsWell result → AreOwed (P.told port.new).shards tx.new self.new shard }

        // Before the first write no pending version of the transaction changes, and so it is at a refusal
        // that leaves it open. Its locks stay.
        ensures kept { LeavesOpen result ⊎ (IsWell result × (self.new.wrote ≡ false)) → HasPendingOf tx.old (P.told port.old).shards (P.told port.new).shards }
        ensures locked { LeavesOpen result ⊎ IsWell result → HasLocksOf tx.old (P.told port.old).shards (P.told port.new).shards }

        // It comes to its end, by one action after another.
        ensures bound { result ≡ More → IsNearer self.old self.new }
        ensures counted { result ≡ More → acts_done self.new ≡ acts_done self.old + 1 }

        // What the next step asks for.
        ensures made { IsWell result → IsMade catalog.now (P.count port.new) tx.new.limits.tries self.new }
        ensures sessions { IsIn tx.new (P.count port.new) (P.told port.new).shards }
        ensures same { IsSameTx tx.old tx.new }
        ensures serves { Serves catalog.now (P.count port.new) (P.told port.new).shards }
        ensures port { IsSamePort (P.catalog port.old) (P.count port.old) (P.catalog port.new) (P.count port.new) }
        // What other transactions have is left to them.
        ensures others { LeavesOthers tx.old.number (P.told port.old).shards (P.told port.new).shards }
    {
        self.advance(alloc, catalog, port, tx)
    }
}
