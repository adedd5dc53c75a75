ghost use Rattle.std.specs.Prelude.{◌≡◌, ◌≤◌, ◌⊎◌, true, false, ℕ, IfErr, IfOk};
ghost use Rattle.vl_catalog.specs.Place.{shard_count};
ghost use Rattle.vl_rules.specs.Order.{Checked};
ghost use Rattle.vl_plan.specs.Fits.{Fits};
ghost use Rattle.vl_port.specs.Calls.{IsSamePort};
ghost use Rattle.vl_port.specs.Others.{LeavesOthers};
ghost use Rattle.vl_port.specs.Serving.{Serves};
ghost use Rattle.vl_port.specs.Transaction.{IsIn, last_tx};
ghost use Rattle.vl_lookup.specs.Stepping.{IsSameTxButClaims};
ghost use Rattle.vl_statement.specs.declared.program_told.ProgramTold.TheVariants.{More};
ghost use Rattle.vl_statement.specs.Effects.{HasLocksOf, HasPendingOf, IsWell, LeavesOpen};
ghost use Rattle.vl_select.specs.Answering.{GoesOn};
ghost use Rattle.vl_exec.specs.Begun.{IsBegun, IsBounded, can_run};
ghost use Rattle.vl_exec.specs.Effects.{AreOwed, HasWritten};
ghost use Rattle.vl_exec.specs.Making.{IsMade};
ghost use Rattle.vl_exec.specs.Progress.{IsCounted, IsFew, IsNearer, act_due, session_due, wrote};
ghost use Rattle.vl_exec.specs.Stepping.{Stepped};

use std::alloc::{AllocError, Global};
use vl_catalog::Catalog;
use vl_change::change::Change;
use vl_insert::insert::Insert;
use vl_plan::plan::Plan;
use vl_port::act::Act;
use vl_port::port::ShardPort;
use vl_port::tx_state::TxState;
use vl_select::select::Select;
use vl_statement::program_told::ProgramTold;
use vl_values::ShardNo;
use vl_values::group::Group;

/// A statement that is run, one action at a time.
#[derive(Drop)]
pub enum Program {
    Insert(Insert),
    Select(Select),
    /// An UPDATE or a DELETE.
    Change(Change),
}

impl Program {
    /// The program of a plan. The plan comes back where memory was refused.
    pub fn start(
        alloc: Global,
        catalog: &Catalog,
        plan: Plan,
    ) -> Result<Program, (Plan, AllocError)>
        requires checked { Checked catalog.now }
        requires fits { Fits catalog.now plan }
        requires run { can_run catalog.now plan ≡ true }
        ensures begun { IfOk result (IsBegun catalog.now plan) }
        ensures made { IfOk result (λ program. (limit : ℕ) → 1 ≤ limit → IsMade catalog.now (shard_count catalog.now.rings) limit program) }
        ensures bound { IfOk result (IsBounded plan) }
        ensures back { IfErr result (λ back. back.0 ≡ plan) }
    {
        match plan {
            Plan::Insert(plan) => match Insert::start(alloc, catalog, plan) {
                Ok(insert) => Ok(Program::Insert(insert)),
                Err((plan, full)) => Err((Plan::Insert(plan), full)),
            },
            Plan::Select(plan) => match Select::start(alloc, catalog, plan) {
                Ok(select) => Ok(Program::Select(select)),
                Err((plan, full)) => Err((Plan::Select(plan), full)),
            },
            Plan::Update(plan) => match Change::update(alloc, catalog, plan) {
                Ok(change) => Ok(Program::Change(change)),
                Err((plan, full)) => Err((Plan::Update(plan), full)),
            },
            Plan::Delete(plan) => match Change::delete(alloc, catalog, plan) {
                Ok(change) => Ok(Program::Change(change)),
                Err((plan, full)) => Err((Plan::Delete(plan), full)),
            },
            // No program runs another plan.
            plan => Err((plan, AllocError)),
        }
    }

    /// The group and the shard of the session that the action which is due goes by, or would go by where it is a
    /// plain read and none is listed; None where no action is due.
    pub fn due_session(&self) -> Option<(Group, ShardNo)>
        ensures { result ≡ session_due self.now }
    {
        match self {
            Program::Insert(insert) => insert.due_session(),
            Program::Select(select) => select.due_session(),
            Program::Change(change) => change.due_session(),
        }
    }

    /// A copy of the act that is due; None where no action is.
    pub fn due_act(&self, alloc: Global) -> Result<Option<Act>, AllocError>
        ensures { IfOk result (λ act. act ≡ act_due self.now) }
    {
        match self {
            Program::Insert(insert) => insert.due_act(alloc),
            Program::Select(select) => select.due_act(alloc),
            Program::Change(change) => change.due_act(alloc),
        }
    }

    /// Whether a version was written.
    pub fn wrote(&self) -> bool
        ensures { result ≡ wrote self.now }
    {
        match self {
            Program::Insert(insert) => insert.wrote(),
            Program::Select(_) => false,
            Program::Change(change) => change.wrote(),
        }
    }

    /// Does the action that is due, on one shard, and tells what the statement's state is then.
    ///
    /// After a reply the program is over. A refusal before the first write leaves the transaction with
    /// its locks and its claims, unless it is the statement's own. After the first write, and where a session
    /// was lost or a device failed, the reply says that no transaction stays open: its shard sessions are
    /// still to be ended, all of them, by the caller.
    pub fn step<P: ShardPort>(
        &mut self,
        alloc: Global,
        catalog: &Catalog,
        port: &mut P,
        tx: &mut TxState,
    ) -> ProgramTold
        requires checked { Checked catalog.now }
        requires agree { P.catalog port.old ≡ catalog.now }
        requires serves { Serves catalog.now (P.count port.old) (P.told port.old).shards }
        requires sessions { IsIn tx.old (P.count port.old) (P.told port.old).shards }
        requires number { tx.old.number ≤ last_tx }
        requires made { IsMade catalog.now (P.count port.old) tx.old.limits.tries self.old }

        // One action, that which was due, its answer with its cause, and what that means.
        ensures stepped { Stepped catalog.now self.old tx.old (P.told port.old) result self.new tx.new (P.told port.new) }

        // On each shard the writes of an UPDATE or a DELETE stand, and so do the rows that it still is to write.
        ensures written { (shard : ℕ) → HasWritten (P.told port.old).shards tx.old self.old shard → IsWell result → HasWritten (P.told port.new).shards tx.new self.new shard }
        ensures owed { (shard : ℕ) → AreOwed (P.told port.old).shards tx.old self.old shard → IsWell result → AreOwed (P.told port.new).shards tx.new self.new shard }

        // Before the first write no pending version of the transaction changes, and so it is at a refusal
        // that leaves it open. Its locks stay.
        ensures kept { LeavesOpen result ⊎ (IsWell result × (wrote self.new ≡ false)) → HasPendingOf tx.old (P.told port.old).shards (P.told port.new).shards }
        ensures locked { LeavesOpen result ⊎ IsWell result → HasLocksOf tx.old (P.told port.old).shards (P.told port.new).shards }

        // It comes to its end, by one action after another.
        ensures bound { result ≡ More → IsNearer self.old self.new }
        ensures counted { result ≡ More → IsCounted self.old self.new }
        ensures few { GoesOn result → IsFew (P.count port.new) self.old self.new }

        // What the next step asks for.
        ensures made { GoesOn result → IsMade catalog.now (P.count port.new) tx.new.limits.tries self.new }
        ensures sessions { IsIn tx.new (P.count port.new) (P.told port.new).shards }
        ensures same { IsSameTxButClaims tx.old tx.new }
        ensures serves { Serves catalog.now (P.count port.new) (P.told port.new).shards }
        ensures port { IsSamePort (P.catalog port.old) (P.count port.old) (P.catalog port.new) (P.count port.new) }
        // What other transactions have is left to them.
        ensures others { LeavesOthers tx.old.number (P.told port.old).shards (P.told port.new).shards }
    {
        match self {
            Program::Insert(insert) => insert.step(alloc, catalog, port, tx),
            Program::Select(select) => select.step(alloc, catalog, port, tx),
            Program::Change(change) => change.step(alloc, catalog, port, tx),
        }
    }
}
