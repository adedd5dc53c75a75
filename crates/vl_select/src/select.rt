ghost use Rattle.std.specs.Prelude.{◌≡◌, ◌<◌, ◌≤◌, ◌+◌, ◌⊎◌, ◌^◌, ℕ, false, [], IfErr, IfOk, OnOk, length, nat_lt};
ghost use Rattle.std.specs.Option.{option_copied, option_map};
ghost use Rattle.vl_catalog.specs.Place.{shard_count};
ghost use Rattle.vl_rules.specs.Order.{Checked};
ghost use Rattle.vl_plan.specs.declared.projection.Projection.TheVariants as projections;
ghost use Rattle.vl_plan.specs.Fits.{FitsSelect};
ghost use Rattle.vl_port.specs.declared.act.Act.TheVariants as acts;
ghost use Rattle.vl_port.specs.Asking.{IsSameTx};
ghost use Rattle.vl_port.specs.Calls.{IsSamePort};
ghost use Rattle.vl_port.specs.Others.{LeavesOthers};
ghost use Rattle.vl_port.specs.Serving.{Serves};
ghost use Rattle.vl_port.specs.Taking.{takes_keys};
ghost use Rattle.vl_port.specs.Transaction.{IsIn, last_tx};
ghost use Rattle.vl_statement.specs.declared.program_told.ProgramTold.TheVariants.{More};
ghost use Rattle.vl_statement.specs.Effects.{HasLocksOf, HasPendingOf, IsWell, LeavesOpen};
ghost use Rattle.vl_statement.specs.Refusing.{OrNoMemory};
ghost use Rattle.vl_select.specs.Answering.{Answered, AwaitsKey, Ends, Goes, GoesOn, IsReadAnswer, Takes, TakesOf};
ghost use Rattle.vl_select.specs.Begun.{begun};
ghost use Rattle.vl_select.specs.Columns.{columns_of};
ghost use Rattle.vl_select.specs.Making.{IsMade};
ghost use Rattle.vl_select.specs.Progress.{Action, IsNearer, acts_done, due, kept, passed, shards_known, tallied, with_entries, with_rows};
ghost use Rattle.vl_select.specs.Results.{IsResultOf};
ghost use Rattle.vl_select.specs.Stepping.{Stepped};

use crate::columns::columns_of;
use crate::entry_ksids::add_named;
use crate::entry_read::EntryRead;
use crate::groundwork::Groundwork;
use crate::lost_read::loss;
use crate::result::result_of;
use crate::starting::{group_of, lay};
use std::alloc::{AllocError, Global};
use std::marker::Model;
use vl_catalog::Catalog;
use vl_model::route::Route;
use vl_plan::projection::Projection;
use vl_plan::select_plan::SelectPlan;
use vl_plan::sort::Sort;
use vl_port::act::Act;
use vl_port::answer::Answer;
use vl_port::asked::Asked;
use vl_port::asking::{ask, look};
use vl_port::found_rows::FoundRows;
use vl_port::port::ShardPort;
use vl_port::tx_state::TxState;
use vl_route::home::each_covers;
use vl_route::visiting::visited;
use vl_statement::program_told::ProgramTold;
use vl_statement::refusing::device_failed;
use vl_statement::tally::Tally;
use vl_statement::telling::{refused, refused_whole, wait};
use vl_values::bytes::Bytes;
use vl_values::cause::Cause;
use vl_values::group::Group;
use vl_values::items::Items;
use vl_values::key::Key;
use vl_values::reply::Reply;
use vl_values::reply_column::ReplyColumn;
use vl_values::row::Row;
use vl_values::{SessionNo, ShardNo, TableNo};

/// The program of a SELECT, which is run one read at a time.
#[derive(Drop)]
pub struct Select {
    table: TableNo,
    what: Projection,
    sorts: Items<Sort>,
    limit: Option<u64>,
    route: Route,
    // The read of rows, which is the same on each shard.
    find: Act,
    group: Group,
    entries: Vec<EntryRead>,
    looked: usize,
    // The keyspace ids that the entries named.
    ksids: Vec<Bytes>,
    // None while entries are to be read.
    shards: Vec<ShardNo>,
    read: usize,
    // The rows as they were read: none for a COUNT(*).
    rows: Vec<(Key, Row)>,
    tally: Tally,
    tries: u32,
}

impl Model for Select {
    ghost use Rattle.vl_select.specs.Progress.{Progress};

    ghost Value = { Progress };

    ghost view = { λ s. record { table = s.table; what = s.what; sorts = s.sorts; limit = s.limit; route = s.route; find = s.find; group = s.group; entries = s.entries.items; looked = s.looked; ksids = s.ksids.items; shards = s.shards.items; read = s.read; rows = s.rows.items; tally = s.tally; tries = s.tries } };
}

// The program of a plan whose groundwork is laid. It takes no memory.
fn begin(alloc: Global, plan: SelectPlan, laid: Groundwork, group: Group) -> Select
    ensures { result ≡ record { table = plan.pred.table; what = plan.what; sorts = plan.sorts; limit = plan.limit; route = plan.route; find = acts.Find plan.pred plan.locking; group = group; entries = laid.entries.items; looked = 0; ksids = []; shards = laid.shards.items; read = 0; rows = []; tally = record { rows = 0; bytes = 0 }; tries = 0 } }
{
    let SelectPlan {
        what,
        pred,
        route,
        sorts,
        limit,
        locking,
    } = plan;
    let Groundwork { entries, shards } = laid;
    Select {
        table: pred.table,
        what,
        sorts,
        limit,
        route,
        find: Act::Find { pred, locking },
        group,
        entries,
        looked: 0,
        ksids: Vec::new(alloc),
        shards,
        read: 0,
        rows: Vec::new(alloc),
        tally: Tally::new(),
        tries: 0,
    }
}

fn takes_keys(act: &Act) -> bool
    ensures { result ≡ takes_keys act.now }
{
    match act {
        Act::Find { pred: _, locking } => *locking,
        Act::Insert { .. } | Act::Put { .. } | Act::Remove { .. } | Act::RemoveIf { .. } => true,
    }
}

impl Select {
    /// The program of a SELECT. The plan comes back where memory was refused.
    pub fn start(
        alloc: Global,
        catalog: &Catalog,
        plan: SelectPlan,
    ) -> Result<Select, (SelectPlan, AllocError)>
        requires checked { Checked catalog.now }
        requires fits { FitsSelect catalog.now plan }
        ensures begun { IfOk result (λ select. select ≡ begun catalog.now plan) }
        ensures made { IfOk result (λ select. (limit : ℕ) → 1 ≤ limit → IsMade catalog.now (shard_count catalog.now.rings) limit select) }
        ensures back { IfErr result (λ back. back.0 ≡ plan) }
    {
        each_covers(catalog.rings.as_slice());
        match lay(alloc, catalog, &plan) {
            Ok(laid) => {
                let group = group_of(catalog, plan.pred.table);
                Ok(begin(alloc, plan, laid, group))
            }
            Err(full) => Err((plan, full)),
        }
    }

    /// The group and the shard of the session that the read which is due goes by, or would go by; None where
    /// none is left.
    pub fn due_session(&self) -> Option<(Group, ShardNo)>
        ensures { result ≡ option_map (λ action. (action.group, action.shard)) (due self.now) }
    {
        if let Some(entry) = self.entries.get(self.looked) {
            return Some((Group::Pre, entry.shard));
        }
        match self.shards.get(self.read) {
            Some(shard) => Some((self.group, *shard)),
            None => None,
        }
    }

    /// The read that is due; None where none is left.
    pub fn due(&self) -> Option<&Act>
        ensures { option_copied result ≡ option_map (λ action. action.act) (due self.now) }
    {
        if let Some(entry) = self.entries.get(self.looked) {
            return Some(&entry.find);
        }
        match self.shards.get(self.read) {
            Some(_) => Some(&self.find),
            None => None,
        }
    }

    /// A copy of the read that is due; None where none is left.
    pub fn due_act(&self, alloc: Global) -> Result<Option<Act>, AllocError>
        ensures { IfOk result (λ act. act ≡ option_map (λ action. action.act) (due self.now)) }
    {
        match self.due() {
            Some(act) => Ok(Some(act.copy(alloc)?)),
            None => Ok(None),
        }
    }

    /// Whether entries of the route are still to be read. The read that is due is then one of them.
    pub fn looks(&self) -> bool
        ensures { result ≡ nat_lt self.now.looked (length self.now.entries) }
    {
        self.looked < self.entries.len()
    }

    // The result set of the rows that were read. They are taken out.
    fn result_set(
        &mut self,
        alloc: Global,
        catalog: &Catalog,
    ) -> Result<(Vec<ReplyColumn>, Vec<Row>), AllocError>
        ensures columns { IfOk result (λ set. set.0.items ≡ columns_of catalog.now self.old.table self.old.what) }
        ensures rows { IfOk result (λ set. IsResultOf self.old.what self.old.sorts self.old.limit self.old.tally.rows self.old.rows set.1.items) }
    {
        let columns = columns_of(alloc, catalog, self.table, &self.what)?;
        let found = std::mem::replace(&mut self.rows, Vec::new(alloc));
        let sorts = self.sorts.as_slice();
        let rows = result_of(alloc, &self.what, sorts, self.limit, self.tally.rows, found)?;
        Ok((columns, rows))
    }

    // No read is left.
    fn end(&mut self, alloc: Global, catalog: &Catalog, tx: &TxState) -> ProgramTold
        ensures { Ends catalog.now tx.now self.old result }
    {
        match self.result_set(alloc, catalog) {
            Ok((columns, rows)) => ProgramTold::Reply(Reply::Rows {
                columns: Items::from_vec(columns),
                rows: Items::from_vec(rows),
                tx: !tx.single,
                auto: tx.auto,
            }),
            Err(_) => refused(tx, false, Cause::OutOfMemory),
        }
    }

    // Whether another read is due, or the reply.
    fn go(&mut self, alloc: Global, catalog: &Catalog, tx: &TxState) -> ProgramTold
        ensures { Goes catalog.now tx.now self.old result self.new }
    {
        match self.due_session() {
            Some(_) => ProgramTold::More,
            None => self.end(alloc, catalog, tx),
        }
    }

    // The shards, if no entry is left to be read.
    fn shards_known(
        &self,
        alloc: Global,
        catalog: &Catalog,
        looked: usize,
        ksids: &[Bytes],
    ) -> Result<Vec<ShardNo>, AllocError>
        requires { shard_count catalog.now.rings < 2 ^ 32 }
        ensures { IfOk result (λ shards. shards.items ≡ shards_known catalog.now self.now.table self.now.route (nat_lt looked (length self.now.entries)) ksids.now) }
    {
        if looked < self.entries.len() {
            return Ok(Vec::new(alloc));
        }
        visited(alloc, catalog, self.table, &self.route, ksids)
    }

    // A read gave these entries.
    fn take_entries(
        &mut self,
        alloc: Global,
        catalog: &Catalog,
        entries: Vec<(Key, Row)>,
    ) -> Result<(), AllocError>
        requires shards { shard_count catalog.now.rings < 2 ^ 32 }
        requires looked { self.old.looked < length self.old.entries }
        ensures { OnOk result (self.new ≡ with_entries catalog.now entries.items self.old) }
    {
        let mut ksids = std::mem::replace(&mut self.ksids, Vec::new(alloc));
        add_named(&mut ksids, catalog, &self.route, entries)?;
        let looked = self.looked + 1;
        let shards = self.shards_known(alloc, catalog, looked, ksids.as_slice())?;
        self.looked = looked;
        self.ksids = ksids;
        self.shards = shards;
        self.tries = 0;
        Ok(())
    }

    fn look_at(
        &mut self,
        alloc: Global,
        catalog: &Catalog,
        tx: &TxState,
        entries: Vec<(Key, Row)>,
    ) -> ProgramTold
        requires shards { shard_count catalog.now.rings < 2 ^ 32 }
        requires looked { self.old.looked < length self.old.entries }
        ensures { OrNoMemory tx.now false result (Goes catalog.now tx.now (with_entries catalog.now entries.items self.old) result self.new) }
    {
        match self.take_entries(alloc, catalog, entries) {
            Ok(()) => self.go(alloc, catalog, tx),
            Err(_) => refused(tx, false, Cause::OutOfMemory),
        }
    }

    // A read gave so many rows, which are counted alone.
    fn count_rows(
        &mut self,
        alloc: Global,
        catalog: &Catalog,
        tx: &TxState,
        rows: Vec<(Key, Row)>,
    ) -> ProgramTold
        requires count { self.old.what ≡ projections.Count }
        requires read { self.old.read < length self.old.shards }
        ensures { OrNoMemory tx.now false result (Goes catalog.now tx.now (with_rows rows.items self.old) result self.new) }
    {
        // There is no memory for more rows than 64 bits can count.
        let Some(found) = self.tally.rows.checked_add(rows.len() as u64) else {
            return refused(tx, false, Cause::OutOfMemory);
        };
        self.tally.rows = found;
        self.read += 1;
        self.tries = 0;
        self.go(alloc, catalog, tx)
    }

    // A read gave these rows, which pass no limit with this tally.
    fn keep_rows(
        &mut self,
        alloc: Global,
        catalog: &Catalog,
        tx: &TxState,
        rows: Vec<(Key, Row)>,
        tally: Tally,
    ) -> ProgramTold
        requires read { self.old.read < length self.old.shards }
        requires kept { kept self.old.what rows.items ≡ rows.items }
        requires tally { tally ≡ tallied self.old.what self.old.tally rows.items }
        ensures { OrNoMemory tx.now false result (Goes catalog.now tx.now (with_rows rows.items self.old) result self.new) }
    {
        let mut rows = rows;
        if self.rows.append(&mut rows).is_err() {
            return refused(tx, false, Cause::OutOfMemory);
        }
        self.tally = tally;
        self.read += 1;
        self.tries = 0;
        self.go(alloc, catalog, tx)
    }

    // A read gave these rows of a shard.
    fn take_rows(
        &mut self,
        alloc: Global,
        catalog: &Catalog,
        tx: &TxState,
        rows: Vec<(Key, Row)>,
    ) -> ProgramTold
        requires read { self.old.read < length self.old.shards }
        ensures { Takes catalog.now tx.now (passed self.old.what tx.now.limits self.old.tally rows.items) self.old rows.items result self.new }
    {
        if let Projection::Count = self.what {
            return self.count_rows(alloc, catalog, tx, rows);
        }
        match self.tally.with_rows(&tx.limits, &rows) {
            Ok(tally) => self.keep_rows(alloc, catalog, tx, rows, tally),
            Err((what, count)) => refused(tx, false, Cause::Limit { what, count }),
        }
    }

    // A read gave these rows, or entries.
    fn take(
        &mut self,
        alloc: Global,
        catalog: &Catalog,
        tx: &TxState,
        rows: FoundRows,
    ) -> ProgramTold
        requires shards { shard_count catalog.now.rings < 2 ^ 32 }
        requires read { (self.old.looked < length self.old.entries → ⊥) → self.old.read < length self.old.shards }
        ensures { TakesOf catalog.now tx.now (nat_lt self.old.looked (length self.old.entries)) self.old rows result self.new }
    {
        let rows = rows.into_vec();
        if self.looked < self.entries.len() {
            return self.look_at(alloc, catalog, tx, rows);
        }
        self.take_rows(alloc, catalog, tx, rows)
    }

    // The action was answered `Held`: it is tried again, or the statement is refused.
    #[tactic(auto, using(vl_statement::proofs::Waited::waited))]
    fn wait(
        &mut self,
        alloc: Global,
        catalog: &Catalog,
        tx: &TxState,
        by: SessionNo,
        key: Key,
    ) -> ProgramTold
        requires { self.old.tries < tx.now.limits.tries }
        ensures { AwaitsKey catalog.now tx.now self.old by key result self.new }
    {
        let told = wait(alloc, catalog, tx, false, self.tries, by, key);
        self.tries += 1;
        told
    }

    // What the answer to a read means that was done by a session, or without one.
    fn answered(
        &mut self,
        alloc: Global,
        catalog: &Catalog,
        tx: &TxState,
        group: Group,
        shard: ShardNo,
        session: bool,
        answer: Answer,
    ) -> ProgramTold
        requires checked { Checked catalog.now }
        requires tries { self.old.tries < tx.now.limits.tries }
        requires read { (self.old.looked < length self.old.entries → ⊥) → self.old.read < length self.old.shards }
        requires answer { IsReadAnswer answer }
        ensures { (action : Action) → action.group ≡ group → action.shard ≡ shard → Answered catalog.now tx.now self.old action session answer result self.new }
    {
        match answer {
            Answer::Rows(rows) => self.take(alloc, catalog, tx, rows),
            Answer::Held { by, key } => self.wait(alloc, catalog, tx, by, key),
            Answer::Limit { what, count } => refused(tx, false, Cause::Limit { what, count }),
            Answer::Lost(why) => refused_whole(loss(catalog, group, shard, session, why)),
            Answer::Device => refused_whole(device_failed(catalog, shard)),
            Answer::Memory | Answer::Done | Answer::Unchanged | Answer::Found { .. } => {
                refused(tx, false, Cause::OutOfMemory)
            }
        }
    }

    // Does the read that is due, on one shard.
    fn advance<P: ShardPort>(
        &mut self,
        alloc: Global,
        catalog: &Catalog,
        port: &mut P,
        tx: &mut TxState,
    ) -> ProgramTold
        requires checked { Checked catalog.now }
        requires agree { P.catalog port.old ≡ catalog.now }
        requires number { tx.old.number ≤ last_tx }
        requires made { IsMade catalog.now (P.count port.old) tx.old.limits.tries self.old }
        ensures stepped { Stepped catalog.now self.old tx.old (P.told port.old) result self.new tx.new (P.told port.new) }
        ensures port { IsSamePort (P.catalog port.old) (P.count port.old) (P.catalog port.new) (P.count port.new) }
        ensures tx { IsSameTx tx.old tx.new }
        ensures sessions { IsIn tx.old (P.count port.old) (P.told port.old).shards → IsIn tx.new (P.count port.new) (P.told port.new).shards }
        ensures serves { Serves (P.catalog port.old) (P.count port.old) (P.told port.old).shards → Serves (P.catalog port.new) (P.count port.new) (P.told port.new).shards }
        ensures others { Serves (P.catalog port.old) (P.count port.old) (P.told port.old).shards → LeavesOthers tx.old.number (P.told port.old).shards (P.told port.new).shards }
    {
        let Some((group, shard)) = self.due_session() else {
            return self.end(alloc, catalog, tx);
        };
        let Some(act) = self.due() else {
            return self.end(alloc, catalog, tx);
        };
        if takes_keys(act) {
            let asked = ask(port, tx, group, shard, act);
            return match asked {
                Asked::Answered(answer) => {
                    self.answered(alloc, catalog, tx, group, shard, true, answer)
                }
                Asked::Unlisted => refused(tx, false, Cause::OutOfMemory),
            };
        }
        let session = tx.listed(group).contains(shard);
        let answer = look(port, tx, group, shard, act);
        self.answered(alloc, catalog, tx, group, shard, session, answer)
    }

    /// Does the read that is due, on one shard, and tells what the statement's state is then.
    ///
    /// After a refusal the transaction stays open with its locks, unless it is the statement's own. Where a
    /// session or a read was lost or a device failed, the reply says that no transaction stays open: its
    /// shard sessions are still to be ended, all of them, by the caller. After a reply the program is over.
    pub fn step<P: ShardPort>(
        &mut self,
        alloc: Global,
        catalog: &Catalog,
        port: &mut P,
        tx: &mut TxState,
    ) -> ProgramTold
        requires checked { Checked catalog.now }
        requires agree { P.catalog port.old ≡ catalog.now }
        requires serves { Serves catalog.now (P.count port.old) (P.told port.old).shards }
        requires sessions { IsIn tx.old (P.count port.old) (P.told port.old).shards }
        requires number { tx.old.number ≤ last_tx }
        requires made { IsMade catalog.now (P.count port.old) tx.old.limits.tries self.old }

        // One read, that which was due, its answer with its cause, and what that means.
        ensures stepped { Stepped catalog.now self.old tx.old (P.told port.old) result self.new tx.new (P.told port.new) }

        // No pending version of the transaction changes and its locks stay, unless it is over.
        ensures kept { LeavesOpen result ⊎ IsWell result → HasPendingOf tx.old (P.told port.old).shards (P.told port.new).shards }
        ensures locked { LeavesOpen result ⊎ IsWell result → HasLocksOf tx.old (P.told port.old).shards (P.told port.new).shards }

        // It comes to its end, by one read after another: no more than there are entries and shards.
        ensures bound { result ≡ More → IsNearer self.old self.new }
        ensures counted { result ≡ More → acts_done self.new ≡ acts_done self.old + 1 }
        ensures few { GoesOn result → acts_done self.new ≤ length self.new.entries + P.count port.new }
        ensures entries { GoesOn result → self.new.entries ≡ self.old.entries }

        // What the next step asks for.
        ensures made { GoesOn result → IsMade catalog.now (P.count port.new) tx.new.limits.tries self.new }
        ensures sessions { IsIn tx.new (P.count port.new) (P.told port.new).shards }
        ensures same { IsSameTx tx.old tx.new }
        ensures serves { Serves catalog.now (P.count port.new) (P.told port.new).shards }
        ensures port { IsSamePort (P.catalog port.old) (P.count port.old) (P.catalog port.new) (P.count port.new) }
        // What other transactions have is left to them.
        ensures others { LeavesOthers tx.old.number (P.told port.old).shards (P.told port.new).shards }
    {
        self.advance(alloc, catalog, port, tx)
    }
}
