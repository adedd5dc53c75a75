ghost use Rattle.std.specs.Prelude.{◌≡◌, ◌<◌, ◌≤◌, ◌+◌, ◌⊎◌, ℕ, true, false, [], IfErr, IfOk, Some, length, vec_capacity, ◌*◌};
ghost use Rattle.std.specs.Option.{option_map_or};
ghost use Rattle.vl_values.specs.declared.cause.Cause.TheVariants as causes;
ghost use Rattle.vl_catalog.specs.Place.{shard_count};
ghost use Rattle.vl_plan.specs.Fits.{FitsInsert};
ghost use Rattle.vl_port.specs.Calls.{IsSamePort};
ghost use Rattle.vl_port.specs.Others.{LeavesOthers};
ghost use Rattle.vl_port.specs.Serving.{Serves};
ghost use Rattle.vl_port.specs.Transaction.{IsIn, last_tx};
ghost use Rattle.vl_lookup.specs.Answering.{IsFirstAnswer};
ghost use Rattle.vl_lookup.specs.Progress.{Progress as Claiming};
ghost use Rattle.vl_lookup.specs.Stepping.{IsSameTxButClaims};
ghost use Rattle.vl_rules.specs.Order.{Checked};
ghost use Rattle.vl_statement.specs.declared.program_told.ProgramTold.TheVariants.{More};
ghost use Rattle.vl_insert.specs.declared.groundwork.Groundwork.{Groundwork as AGroundwork};
ghost use Rattle.vl_insert.specs.declared.task.Task.TheVariants as tasks;
ghost use Rattle.vl_insert.specs.Answering.{AwaitsKey, ClaimMeans, Goes, RowAnswered, is_writing, refused_now, reply_of};
ghost use Rattle.vl_insert.specs.Begun.{IsBegun, beginning};
ghost use Rattle.vl_statement.specs.Effects.{HasLocksOf, HasPendingOf, IsWell, LeavesOpen};
ghost use Rattle.vl_insert.specs.Laying.{with_rows};
ghost use Rattle.vl_insert.specs.Making.{IsMade};
ghost use Rattle.vl_insert.specs.Progress.{Progress, act_due, actions_left, session_due, with_task};
ghost use Rattle.vl_insert.specs.Stepping.{Stepped};
ghost use Rattle.vl_statement.specs.Refusing.{IsRefusedFor, duplicate_entry, duplicate_row, limit_of_changes, removed_and_claimed};

use crate::groundwork::Groundwork;
use crate::laying::{filled, lay};
use crate::task::Task;
use crate::tasks::Tasks;
use std::alloc::{AllocError, Global};
use std::marker::Model;
use vl_catalog::{Catalog, LookupNo};
use vl_lookup::claim_told::ClaimTold;
use vl_plan::insert_plan::InsertPlan;
use vl_port::act::Act;
use vl_port::answer::Answer;
use vl_port::asked::Asked;
use vl_port::asking::ask;
use vl_port::port::ShardPort;
use vl_port::tx_state::TxState;
use vl_route::home::each_covers;
use vl_statement::program_told::ProgramTold;
use vl_statement::refusing::{
    device_failed, duplicate_entry, duplicate_row, limit_of_changes, removed_and_claimed,
    session_lost,
};
use vl_statement::telling::{done, refused, refused_for, refused_whole, wait};
use vl_values::cause::Cause;
use vl_values::group::Group;
use vl_values::key::Key;
use vl_values::{SessionNo, ShardNo};

/// An INSERT that is run, one action at a time.
#[derive(Drop)]
pub struct Insert {
    task: Option<Task>,
    later: Tasks,
    rows: u64,
    wrote: bool,
    tries: u32,
}

impl Model for Insert {
    ghost use Rattle.vl_insert.specs.Progress.{Progress};

    ghost Value = { Progress };

    ghost view = { λ p. record { task = p.task; later = p.later; rows = p.rows; wrote = p.wrote; tries = p.tries } };
}

// The program of a plan whose groundwork is laid. It takes no memory.
fn begin(plan: InsertPlan, laid: Groundwork) -> Insert
    requires none { laid.tasks.items ≡ [] }
    requires room { length laid.outlines.items ≤ vec_capacity laid.tasks }
    ensures { result ≡ beginning (with_rows laid.outlines.items plan.rows) (length plan.rows) }
{
    let Groundwork { outlines, tasks } = laid;
    let InsertPlan { table: _, rows } = plan;
    let count = rows.len() as u64;
    let mut later = Tasks::from_vec(filled(outlines, rows.into_vec(), tasks));
    let task = later.next();
    Insert {
        task,
        later,
        rows: count,
        wrote: false,
        tries: 0,
    }
}

// Whether the actions of a claim that go by the group are writes.
fn is_writing(group: Group) -> bool
    ensures { result ≡ is_writing group }
{
    matches!(group, Group::Pre)
}

impl Insert {
    /// The program of an INSERT. The plan comes back where memory was refused.
    pub fn start(
        alloc: Global,
        catalog: &Catalog,
        plan: InsertPlan,
    ) -> Result<Insert, (InsertPlan, AllocError)>
        requires checked { Checked catalog.now }
        requires fits { FitsInsert catalog.now plan }
        ensures begun { IfOk result (λ insert. IsBegun catalog.now plan insert) }
        ensures made { IfOk result (λ insert. (limit : ℕ) → 1 ≤ limit → IsMade catalog.now (shard_count catalog.now.rings) limit insert) }
        // At most eight claims of three actions for each row, and its insertion.
        ensures bound { IfOk result (λ insert. actions_left insert ≤ 25 * length plan.rows) }
        ensures back { IfErr result (λ back. back.0 ≡ plan) }
    {
        each_covers(catalog.rings.as_slice());
        match lay(alloc, catalog, &plan) {
            Ok(laid) => Ok(begin(plan, laid)),
            Err(full) => Err((plan, full)),
        }
    }

    /// The group and the shard of the session that the action which is due goes by; None where no task is left.
    pub fn due_session(&self) -> Option<(Group, ShardNo)>
        ensures { result ≡ session_due self.now }
    {
        match &self.task {
            Some(Task::Claim(claim)) => Some(claim.session()),
            Some(Task::Row(insertion)) => Some((Group::Main, insertion.shard)),
            None => None,
        }
    }

    /// A copy of the act that is due; None where no task is left.
    pub fn due_act(&self, alloc: Global) -> Result<Option<Act>, AllocError>
        ensures { IfOk result (λ act. act ≡ act_due self.now) }
    {
        match &self.task {
            Some(Task::Claim(claim)) => Ok(Some(claim.due_act(alloc)?)),
            Some(Task::Row(insertion)) => Ok(Some(insertion.act.copy(alloc)?)),
            None => Ok(None),
        }
    }

    /// Whether a version was written.
    pub fn wrote(&self) -> bool
        ensures { result ≡ self.now.wrote }
    {
        self.wrote
    }

    fn reply(&self, tx: &TxState) -> ProgramTold
        ensures { result ≡ reply_of tx.now self.now }
    {
        done(tx, self.rows, self.rows)
    }

    fn refused(&self, tx: &TxState, why: Cause) -> ProgramTold
        ensures { result ≡ refused_now tx.now self.now why }
    {
        refused(tx, self.wrote, why)
    }

    // Whether another action is due, or the reply.
    fn go(&self, tx: &TxState) -> ProgramTold
        ensures { Goes tx.now self.now result self.now }
    {
        match &self.task {
            Some(_) => ProgramTold::More,
            None => self.reply(tx),
        }
    }

    // The task in progress is done, by a write or a read.
    fn pass(&mut self, writes: bool)
        ensures { self.new ≡ with_task writes self.old }
    {
        self.task = self.later.next();
        self.wrote = self.wrote || writes;
        self.tries = 0;
    }

    // The action was answered `Held`: it is tried again, or the statement is refused.
    #[tactic(auto, using(vl_statement::proofs::Waited::waited))]
    fn wait(
        &mut self,
        alloc: Global,
        catalog: &Catalog,
        tx: &TxState,
        by: SessionNo,
        key: Key,
    ) -> ProgramTold
        requires { self.old.tries < tx.now.limits.tries }
        ensures { AwaitsKey catalog.now tx.now self.old by key result self.new }
    {
        let told = wait(alloc, catalog, tx, self.wrote, self.tries, by, key);
        self.tries += 1;
        told
    }

    // The transaction itself removes the entry that is claimed.
    fn crossed(&self, alloc: Global, catalog: &Catalog, tx: &TxState) -> ProgramTold
        requires { (claim : Claiming) × (self.now.task ≡ Some (tasks.Claim claim)) }
        ensures { (claim : Claiming) → self.now.task ≡ Some (tasks.Claim claim) → IsRefusedFor tx.now self.now.wrote result (removed_and_claimed catalog.now claim.lookup claim.row) }
    {
        match &self.task {
            Some(Task::Claim(claim)) => {
                let why = removed_and_claimed(alloc, catalog, claim.lookup(), claim.entry());
                refused_for(tx, self.wrote, why)
            }
            _ => self.refused(tx, Cause::OutOfMemory),
        }
    }

    // The row of this key has the values of the entry that is claimed.
    fn duplicate(
        &self,
        alloc: Global,
        catalog: &Catalog,
        tx: &TxState,
        lookup: LookupNo,
        shard: ShardNo,
        key: &Key,
    ) -> ProgramTold
        requires checked { Checked catalog.now }
        requires claim { (claim : Claiming) × (self.now.task ≡ Some (tasks.Claim claim)) }
        ensures { (claim : Claiming) → self.now.task ≡ Some (tasks.Claim claim) → IsRefusedFor tx.now self.now.wrote result (duplicate_entry catalog.now lookup claim.row shard key.now) }
    {
        match &self.task {
            Some(Task::Claim(claim)) => {
                let why = duplicate_entry(alloc, catalog, lookup, claim.entry(), shard, key);
                refused_for(tx, self.wrote, why)
            }
            _ => self.refused(tx, Cause::OutOfMemory),
        }
    }

    // What the claim in progress told of its action, which went by the session of this group.
    fn claimed(
        &mut self,
        alloc: Global,
        catalog: &Catalog,
        tx: &TxState,
        group: Group,
        told: ClaimTold,
    ) -> ProgramTold
        requires checked { Checked catalog.now }
        requires tries { self.old.tries < tx.now.limits.tries }
        requires claim { (claim : Claiming) × (self.old.task ≡ Some (tasks.Claim claim)) }
        ensures { (claim : Claiming) → self.old.task ≡ Some (tasks.Claim claim) → ClaimMeans catalog.now tx.now self.old group claim told result self.new }
    {
        match told {
            ClaimTold::More => {
                self.tries = 0;
                ProgramTold::More
            }
            ClaimTold::Done => {
                self.pass(is_writing(group));
                self.go(tx)
            }
            ClaimTold::Held { by, key } => self.wait(alloc, catalog, tx, by, key),
            ClaimTold::SelfHeld { key: _ } => self.crossed(alloc, catalog, tx),
            ClaimTold::Duplicate { lookup, shard, key } => {
                self.duplicate(alloc, catalog, tx, lookup, shard, &key)
            }
            ClaimTold::Lost { shard, why } => {
                refused_whole(session_lost(catalog, group, shard, why))
            }
            ClaimTold::Device { shard } => refused_whole(device_failed(catalog, shard)),
            ClaimTold::Limit { what, count } => self.refused(tx, Cause::Limit { what, count }),
            ClaimTold::Memory => self.refused(tx, Cause::OutOfMemory),
        }
    }

    // What the port's answer to the row's insertion on this shard means.
    fn inserted(
        &mut self,
        alloc: Global,
        catalog: &Catalog,
        tx: &TxState,
        shard: ShardNo,
        answer: Answer,
    ) -> ProgramTold
        requires checked { Checked catalog.now }
        requires tries { self.old.tries < tx.now.limits.tries }
        requires answer { IsFirstAnswer answer }
        ensures { RowAnswered catalog.now tx.now self.old shard answer result self.new }
    {
        match answer {
            Answer::Done => {
                self.pass(true);
                self.go(tx)
            }
            Answer::Held { by, key } => self.wait(alloc, catalog, tx, by, key),
            Answer::Found { key, row: _ } => {
                let why = duplicate_row(alloc, catalog, shard, &key);
                refused_for(tx, self.wrote, why)
            }
            Answer::Limit { what, count } => self.refused(tx, Cause::Limit { what, count }),
            Answer::Lost(why) => refused_whole(session_lost(catalog, Group::Main, shard, why)),
            Answer::Device => refused_whole(device_failed(catalog, shard)),
            // An insertion gets no others.
            Answer::Memory | Answer::Unchanged | Answer::Rows(_) => {
                self.refused(tx, Cause::OutOfMemory)
            }
        }
    }

    // Does the action that is due, on one shard.
    fn advance<P: ShardPort>(
        &mut self,
        alloc: Global,
        catalog: &Catalog,
        port: &mut P,
        tx: &mut TxState,
    ) -> ProgramTold
        requires checked { Checked catalog.now }
        requires agree { P.catalog port.old ≡ catalog.now }
        requires serves { Serves catalog.now (P.count port.old) (P.told port.old).shards }
        requires sessions { IsIn tx.old (P.count port.old) (P.told port.old).shards }
        requires number { tx.old.number ≤ last_tx }
        requires made { IsMade catalog.now (P.count port.old) tx.old.limits.tries self.old }
        ensures stepped { Stepped catalog.now self.old tx.old (P.told port.old) result self.new tx.new (P.told port.new) }
        ensures bound { result ≡ More → actions_left self.new < actions_left self.old }
        ensures made { IsWell result → IsMade catalog.now (P.count port.new) tx.new.limits.tries self.new }
        ensures sessions { IsIn tx.new (P.count port.new) (P.told port.new).shards }
        ensures same { IsSameTxButClaims tx.old tx.new }
        ensures serves { Serves catalog.now (P.count port.new) (P.told port.new).shards }
        ensures port { IsSamePort (P.catalog port.old) (P.count port.old) (P.catalog port.new) (P.count port.new) }
        ensures others { LeavesOthers tx.old.number (P.told port.old).shards (P.told port.new).shards }
    {
        match &mut self.task {
            Some(Task::Claim(claim)) => {
                let (group, _) = claim.session();
                let told = claim.step(alloc, catalog, port, tx);
                self.claimed(alloc, catalog, tx, group, told)
            }
            Some(Task::Row(insertion)) => {
                if tx.is_full(&insertion.act) {
                    return self.refused(tx, limit_of_changes(tx));
                }
                let shard = insertion.shard;
                let asked = ask(port, tx, Group::Main, shard, &insertion.act);
                match asked {
                    Asked::Answered(answer) => self.inserted(alloc, catalog, tx, shard, answer),
                    Asked::Unlisted => self.refused(tx, Cause::OutOfMemory),
                }
            }
            None => self.reply(tx),
        }
    }

    /// Does the action that is due, on one shard, and tells what the statement's state is then.
    ///
    /// After a reply the program is over. A refusal before the first write leaves the transaction with
    /// its locks and its claims, unless it is the statement's own. After the first write, and where a session
    /// was lost or a device failed, the reply says that no transaction stays open: its shard sessions are
    /// still to be ended, all of them, by the caller.
    pub fn step<P: ShardPort>(
        &mut self,
        alloc: Global,
        catalog: &Catalog,
        port: &mut P,
        tx: &mut TxState,
    ) -> ProgramTold
        requires checked { Checked catalog.now }
        requires agree { P.catalog port.old ≡ catalog.now }
        requires serves { Serves catalog.now (P.count port.old) (P.told port.old).shards }
        requires sessions { IsIn tx.old (P.count port.old) (P.told port.old).shards }
        requires number { tx.old.number ≤ last_tx }
        requires made { IsMade catalog.now (P.count port.old) tx.old.limits.tries self.old }

        // One action, that which was due, its answer with its cause, and what that means.
        ensures stepped { Stepped catalog.now self.old tx.old (P.told port.old) result self.new tx.new (P.told port.new) }

        // Before the first write no pending version of the transaction changes, and so it is at a refusal
        // that leaves it open. Its locks stay.
        ensures kept { LeavesOpen result ⊎ (IsWell result × (self.new.wrote ≡ false)) → HasPendingOf tx.old (P.told port.old).shards (P.told port.new).shards }
        ensures locked { LeavesOpen result ⊎ IsWell result → HasLocksOf tx.old (P.told port.old).shards (P.told port.new).shards }

        // It comes to its end, by one action after another.
        ensures bound { result ≡ More → actions_left self.new < actions_left self.old }

        // What the next step asks for.
        ensures made { IsWell result → IsMade catalog.now (P.count port.new) tx.new.limits.tries self.new }
        ensures sessions { IsIn tx.new (P.count port.new) (P.told port.new).shards }
        ensures same { IsSameTxButClaims tx.old tx.new }
        ensures serves { Serves catalog.now (P.count port.new) (P.told port.new).shards }
        ensures port { IsSamePort (P.catalog port.old) (P.count port.old) (P.catalog port.new) (P.count port.new) }
        // What other transactions have is left to them.
        ensures others { LeavesOthers tx.old.number (P.told port.old).shards (P.told port.new).shards }
    {
        self.advance(alloc, catalog, port, tx)
    }
}
