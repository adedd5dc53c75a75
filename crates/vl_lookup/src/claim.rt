ghost use Rattle.std.specs.Prelude.{◌≡◌, ◌≤◌, ◌<◌, ◌^◌, ℕ, true, List, IfOk, IfSome, length, vec_capacity, vec_len};
ghost use Rattle.vl_catalog.specs.declared.catalog.Catalog.{Catalog as ACatalog};
ghost use Rattle.vl_catalog.specs.Place.{shard_count};
ghost use Rattle.vl_values.specs.declared.limit.Limit.TheVariants as quantities;
ghost use Rattle.vl_port.specs.declared.act.Act.TheVariants as acts;
ghost use Rattle.vl_port.specs.declared.claimed.Claimed.{Claimed as AClaimed};
ghost use Rattle.vl_port.specs.Calls.{IsSamePort};
ghost use Rattle.vl_port.specs.Others.{LeavesOthers};
ghost use Rattle.vl_port.specs.Serving.{Serves};
ghost use Rattle.vl_port.specs.Transaction.{IsIn, last_tx};
ghost use Rattle.vl_rules.specs.Order.{Checked};
ghost use Rattle.vl_lookup.specs.declared.claim_told.ClaimTold.TheVariants as told;
ghost use Rattle.vl_lookup.specs.declared.stage.Stage.TheVariants as stages;
ghost use Rattle.vl_lookup.specs.Answering.{CheckAnswered, CheckRead, FirstAnswered, IsCheckAnswer, IsFirstAnswer, IsPutAnswer, IsRefusal, IsRefusing, PutAnswered, claim_free, first_key, is_kept, told_free};
ghost use Rattle.vl_lookup.specs.Making.{IsClaim, IsIndexedRow, IsMadeFor, IsStageOn};
ghost use Rattle.vl_model.specs.Entries.{named_by};
ghost use Rattle.vl_lookup.specs.Progress.{Progress, acts_left, due, stage_for};
ghost use Rattle.vl_lookup.specs.Stepping.{ClaimStepped, IsSameTxButClaims, with_claimed};
ghost use Rattle.vl_values.specs.Keyed.{is_among_keys};

use crate::asking::ask_aside;
use crate::claim_told::ClaimTold;
use crate::claims::{add_claim, give_claims, pass_claim, take_claims};
use crate::entry::{entry_row, from_columns, is_each_once, tests_of};
use crate::stage::Stage;
use std::alloc::{AllocError, Global};
use std::marker::Model;
use vl_catalog::{Catalog, Ksid, LookupNo};
use vl_port::act::Act;
use vl_port::answer::Answer;
use vl_port::asked::Asked;
use vl_port::asking::ask;
use vl_port::claimed::Claimed;
use vl_port::found_rows::FoundRows;
use vl_port::port::ShardPort;
use vl_port::tx_state::TxState;
use vl_route::home::{covers, home_of};
use vl_route::visiting::named_by;
use vl_values::ShardNo;
use vl_values::bytes::Bytes;
use vl_values::group::Group;
use vl_values::key::Key;
use vl_values::limit::Limit;
use vl_values::pred::Pred;
use vl_values::row::Row;
use vl_values::tests::Tests;
use vl_values::value::Value;

/// The claim of a lookup's entry for a row of the lookup's owner.
#[derive(Drop)]
pub struct Claim {
    pub(crate) lookup: LookupNo,
    pub(crate) to: usize,
    pub(crate) keyspace: usize,
    pub(crate) key: Key,
    // The entry, as it is inserted first.
    pub(crate) insert: Act,
    pub(crate) shard: ShardNo,
    pub(crate) ksid: Ksid,
    // The read of the owner's rows that have an entry of its key.
    pub(crate) find: Act,
    pub(crate) stage: Stage,
}

impl Model for Claim {
    ghost use Rattle.vl_lookup.specs.Acts.{AreActs, pred_in, row_in};
    ghost use Rattle.vl_lookup.specs.Progress.{Progress};

    ghost Value = { Progress };

    ghost view = { λ c. record { lookup = c.lookup; to = c.to; keyspace = c.keyspace; key = c.key; row = row_in c.insert; shard = c.shard; ksid = c.ksid; pred = pred_in c.find; stage = c.stage } };

    ghost invariant = { λ c. AreActs c.key c.insert c.find };
}

// Whether a key is among these.
fn is_among(keys: &[Key], key: &Key) -> bool
    ensures { result ≡ is_among_keys keys.now key.now }
{
    keys.iter().any(|one| key == one)
}

// The key of the first of the rows.
fn first_key(rows: FoundRows) -> Option<Key>
    ensures { result ≡ first_key rows }
{
    let mut rows = rows.into_vec();
    if rows.is_empty() {
        return None;
    }
    let (key, _) = rows.swap_remove(0);
    Some(key)
}

// An answer that does nothing for the claim.
fn refusal(shard: ShardNo, answer: Answer) -> ClaimTold
    requires { IsRefusing answer }
    ensures { IsRefusal shard answer result }
{
    match answer {
        Answer::Held { by, key } => ClaimTold::Held { by, key },
        Answer::Lost(why) => ClaimTold::Lost { shard, why },
        Answer::Device => ClaimTold::Device { shard },
        Answer::Limit { what, count } => ClaimTold::Limit { what, count },
        Answer::Memory
        | Answer::Done
        | Answer::Unchanged
        | Answer::Rows(_)
        | Answer::Found { .. } => ClaimTold::Memory,
    }
}

// The write that is due would pass the limit of changes.
fn full_told(tx: &TxState) -> ClaimTold
    ensures { result ≡ told.Limit quantities.Changes tx.now.limits.changes }
{
    ClaimTold::Limit {
        what: Limit::Changes,
        count: u64::from(tx.limits.changes),
    }
}

// What the answer to the Put means.
fn put_told(shard: ShardNo, answer: Answer) -> ClaimTold
    requires { IsPutAnswer answer }
    ensures { (claim : Progress) (claimed : List AClaimed) → claim.shard ≡ shard → PutAnswered claim claimed answer result claim claimed }
{
    match answer {
        Answer::Done => ClaimTold::Done,
        answer => refusal(shard, answer),
    }
}

impl Claim {
    /// The claim of the entry that a row of the lookup's owner needs. The row is as it is stored, and isn't
    /// NULL in the lookup's column. Where the row or its entry has no shard the answer is that of memory
    /// refused.
    pub fn new(
        alloc: Global,
        catalog: &Catalog,
        number: LookupNo,
        row: &[Value],
    ) -> Result<Claim, AllocError>
        requires checked { Checked catalog.now }
        requires indexed { IsIndexedRow catalog.now number row.now }
        ensures made { IfOk result (λ claim. IsMadeFor catalog.now number row.now claim) }
        ensures ready { IfOk result (λ claim. IsClaim catalog.now (shard_count catalog.now.rings) claim) }
    {
        // What a lookup of a checked catalog names exists.
        let Some(lookup) = catalog.lookups.as_slice().get(number as usize) else {
            return Err(AllocError);
        };
        let Some(owner_number) = lookup.owner else {
            return Err(AllocError);
        };
        let Some(table_number) = lookup.table else {
            return Err(AllocError);
        };
        let Some(column) = lookup.column else {
            return Err(AllocError);
        };
        let Some(to) = lookup.to else {
            return Err(AllocError);
        };
        let Some(owner) = catalog.tables.as_slice().get(owner_number as usize) else {
            return Err(AllocError);
        };
        let Some(table) = catalog.tables.as_slice().get(table_number as usize) else {
            return Err(AllocError);
        };
        let from = lookup.from.as_slice();
        if !is_each_once(from) {
            return Err(AllocError);
        }
        let Some(ksid) = catalog.ksid_of(owner_number, row) else {
            return Err(AllocError);
        };
        let columns = from_columns(alloc, lookup, owner, column)?;
        let width = table.columns.len();
        let entry = entry_row(
            alloc,
            row,
            columns.as_slice(),
            from,
            to,
            ksid.as_slice(),
            width,
        )?;
        let key = table.key_of(alloc, table_number, entry.as_slice())?;
        let Some(shard) = catalog.place_of(table_number, entry.as_slice()) else {
            return Err(AllocError);
        };
        covers(catalog, table.keyspace);
        let tests = tests_of(alloc, row, columns.as_slice())?;
        let inserted = key.copy(alloc)?;
        Ok(Claim {
            lookup: number,
            to,
            keyspace: owner.keyspace,
            key,
            insert: Act::Insert {
                key: inserted,
                row: Row::from_vec(entry),
            },
            shard,
            ksid,
            find: Act::Find {
                pred: Pred {
                    table: owner_number,
                    tests: Tests::from_vec(tests),
                },
                locking: true,
            },
            stage: Stage::First,
        })
    }

    /// The group and the shard of the session that does the action which is due. An action in pre is a write,
    /// one in main a read.
    pub fn session(&self) -> (Group, ShardNo)
        ensures { result ≡ ((due self.now).group, (due self.now).shard) }
    {
        match &self.stage {
            Stage::First | Stage::Put => (Group::Pre, self.shard),
            Stage::Check { ksid: _, shard } => (Group::Main, *shard),
        }
    }

    /// A copy of the act that is due.
    pub fn due_act(&self, alloc: Global) -> Result<Act, AllocError>
        ensures { IfOk result (λ act. act ≡ (due self.now).act) }
    {
        match &self.stage {
            Stage::First => self.insertion().copy(alloc),
            Stage::Check { .. } => self.reading().copy(alloc),
            Stage::Put => match self.put_act(alloc) {
                Some(act) => Ok(act),
                None => Err(AllocError),
            },
        }
    }

    /// The number of the lookup.
    pub fn lookup(&self) -> LookupNo
        ensures { result ≡ self.now.lookup }
    {
        self.lookup
    }

    /// The values of the entry that is claimed, one for each column of the lookup's table.
    pub fn entry(&self) -> &[Value]
        ensures { result.now ≡ self.now.row }
    {
        match &self.insert {
            Act::Insert { key: _, row } => row.as_slice(),
            _ => &[],
        }
    }

    // The act that inserts the entry.
    fn insertion(&self) -> &Act
        ensures { result.now ≡ acts.Insert self.now.key self.now.row }
    {
        &self.insert
    }

    // The read of the owner's rows that have an entry of this key.
    fn reading(&self) -> &Act
        ensures { result.now ≡ acts.Find self.now.pred true }
    {
        &self.find
    }

    // The act that redirects the entry. A redirect is rare: its copies are made when it is due.
    fn put_act(&self, alloc: Global) -> Option<Act>
        ensures { IfSome result (λ act. act ≡ acts.Put self.now.key self.now.row) }
    {
        let Act::Insert { key: _, row } = &self.insert else {
            return None;
        };
        let Ok(key) = self.key.copy(alloc) else {
            return None;
        };
        let Ok(row) = row.copy(alloc) else {
            return None;
        };
        Some(Act::Put { key, row })
    }

    // Whether the entry that stands names the row's keyspace id.
    fn is_kept(&self) -> bool
        ensures { (ksid : List ℕ) (shard : ℕ) → self.now.stage ≡ stages.Check ksid shard → result ≡ is_kept ksid self.now }
    {
        match &self.stage {
            Stage::Check { ksid, shard: _ } => ksid.as_slice() == self.ksid.as_slice(),
            _ => false,
        }
    }

    // What is to be done about an entry that was found.
    fn stage_for(&self, catalog: &Catalog, row: Row) -> Stage
        requires shards { shard_count catalog.now.rings < 2 ^ 32 }
        requires keyspace { self.now.keyspace < length catalog.now.rings }
        ensures value { result ≡ stage_for catalog.now self.now (named_by self.now.to row) }
        ensures within { IsStageOn (shard_count catalog.now.rings) result }
    {
        match named_by(row, self.to) {
            Some(ksid) => {
                let shard = home_of(catalog, self.keyspace, ksid.as_slice());
                Stage::Check { ksid, shard }
            }
            None => Stage::Put,
        }
    }

    // What the answer to the Insert means.
    fn inserted(
        &mut self,
        catalog: &Catalog,
        tx: &mut TxState,
        list: Vec<Claimed>,
        key: Key,
        answer: Answer,
    ) -> ClaimTold
        requires shards { shard_count catalog.now.rings < 2 ^ 32 }
        requires keyspace { self.old.keyspace < length catalog.now.rings }
        requires stage { IsStageOn (shard_count catalog.now.rings) self.old.stage }
        requires room { vec_len list < vec_capacity list }
        requires key { key ≡ self.old.key }
        requires answer { IsFirstAnswer answer }
        ensures answered { (claimed : List AClaimed) × (tx.new ≡ with_claimed claimed tx.old) × FirstAnswered catalog.now self.old list.items answer result self.new claimed }
        ensures within { IsStageOn (shard_count catalog.now.rings) self.new.stage }
    {
        match answer {
            Answer::Done => {
                add_claim(tx, list, key, true);
                ClaimTold::Done
            }
            Answer::Found { key: _, row } => {
                self.stage = self.stage_for(catalog, row);
                let passed = matches!(self.stage, Stage::Put);
                add_claim(tx, list, key, passed);
                ClaimTold::More
            }
            answer => {
                give_claims(tx, list);
                refusal(self.shard, answer)
            }
        }
    }

    // Inserts the entry.
    fn insert<P: ShardPort>(
        &mut self,
        alloc: Global,
        catalog: &Catalog,
        port: &mut P,
        tx: &mut TxState,
    ) -> ClaimTold
        requires shards { shard_count catalog.now.rings < 2 ^ 32 }
        requires agree { P.catalog port.old ≡ catalog.now }
        requires number { tx.old.number ≤ last_tx }
        requires claim { IsClaim catalog.now (P.count port.old) self.old }
        requires count { P.count port.old ≡ shard_count catalog.now.rings }
        requires stage { self.old.stage ≡ stages.First }
        ensures stepped { ClaimStepped catalog.now self.old tx.old (P.told port.old) result self.new tx.new (P.told port.new) }
        ensures within { IsStageOn (shard_count catalog.now.rings) self.new.stage }
        ensures sessions { IsIn tx.old (P.count port.old) (P.told port.old).shards → IsIn tx.new (P.count port.new) (P.told port.new).shards }
        ensures same { IsSameTxButClaims tx.old tx.new }
        ensures serves { Serves (P.catalog port.old) (P.count port.old) (P.told port.old).shards → Serves (P.catalog port.new) (P.count port.new) (P.told port.new).shards }
        ensures port { IsSamePort (P.catalog port.old) (P.count port.old) (P.catalog port.new) (P.count port.new) }
        ensures others { Serves (P.catalog port.old) (P.count port.old) (P.told port.old).shards → LeavesOthers tx.old.number (P.told port.old).shards (P.told port.new).shards }
    {
        let crossed = is_among(tx.removed.as_slice(), &self.key);
        let Ok(key) = self.key.copy(alloc) else {
            return ClaimTold::Memory;
        };
        if crossed {
            return ClaimTold::SelfHeld { key };
        }
        let act = self.insertion();
        if tx.is_full(act) {
            return full_told(tx);
        }
        let Ok(list) = take_claims(alloc, tx) else {
            return ClaimTold::Memory;
        };
        let asked = ask_aside(port, tx, Group::Pre, self.shard, act);
        match asked {
            Asked::Answered(answer) => self.inserted(catalog, tx, list, key, answer),
            Asked::Unlisted => {
                give_claims(tx, list);
                ClaimTold::Memory
            }
        }
    }

    // No row of the owner has an entry of this key.
    fn pass(&mut self) -> ClaimTold
        ensures passed { (ksid : List ℕ) (shard : ℕ) → self.old.stage ≡ stages.Check ksid shard → (result ≡ told_free (is_kept ksid self.old)) × (self.new ≡ claim_free (is_kept ksid self.old) self.old) }
        ensures claim { (it : ACatalog) (count : ℕ) → IsClaim it count self.old → IsClaim it count self.new }
    {
        if self.is_kept() {
            return ClaimTold::Done;
        }
        self.stage = Stage::Put;
        ClaimTold::More
    }

    // The owner's rows that have an entry of this key were read.
    fn read(
        &mut self,
        alloc: Global,
        tx: &mut TxState,
        shard: ShardNo,
        rows: FoundRows,
    ) -> ClaimTold
        ensures read { (claimed : List AClaimed) × (tx.new ≡ with_claimed claimed tx.old) × ((ksid : List ℕ) → self.old.stage ≡ stages.Check ksid shard → CheckRead ksid shard self.old tx.old.claimed rows result self.new claimed) }
        ensures claim { (it : ACatalog) (count : ℕ) → IsClaim it count self.old → IsClaim it count self.new }
    {
        if let Some(key) = first_key(rows) {
            return ClaimTold::Duplicate {
                lookup: self.lookup,
                shard,
                key,
            };
        }
        pass_claim(alloc, tx, &self.key);
        self.pass()
    }

    // What the answer to the read means.
    fn checked(
        &mut self,
        alloc: Global,
        tx: &mut TxState,
        shard: ShardNo,
        answer: Answer,
    ) -> ClaimTold
        requires answer { IsCheckAnswer answer }
        ensures claim { (it : ACatalog) (count : ℕ) → IsClaim it count self.old → IsClaim it count self.new }
        ensures answered { (claimed : List AClaimed) × (tx.new ≡ with_claimed claimed tx.old) × ((ksid : List ℕ) → self.old.stage ≡ stages.Check ksid shard → CheckAnswered ksid shard self.old tx.old.claimed answer result self.new claimed) }
    {
        match answer {
            Answer::Rows(rows) => self.read(alloc, tx, shard, rows),
            answer => refusal(shard, answer),
        }
    }

    // Looks at the owner's rows that have an entry of this key.
    fn check<P: ShardPort>(
        &mut self,
        alloc: Global,
        port: &mut P,
        tx: &mut TxState,
        shard: ShardNo,
    ) -> ClaimTold
        requires number { tx.old.number ≤ last_tx }
        requires claim { IsClaim (P.catalog port.old) (P.count port.old) self.old }
        requires stage { (ksid : List ℕ) × (self.old.stage ≡ stages.Check ksid shard) }
        ensures claim { (it : ACatalog) (count : ℕ) → IsClaim it count self.old → IsClaim it count self.new }
        ensures stepped { ClaimStepped (P.catalog port.old) self.old tx.old (P.told port.old) result self.new tx.new (P.told port.new) }
        ensures sessions { IsIn tx.old (P.count port.old) (P.told port.old).shards → IsIn tx.new (P.count port.new) (P.told port.new).shards }
        ensures same { IsSameTxButClaims tx.old tx.new }
        ensures serves { Serves (P.catalog port.old) (P.count port.old) (P.told port.old).shards → Serves (P.catalog port.new) (P.count port.new) (P.told port.new).shards }
        ensures port { IsSamePort (P.catalog port.old) (P.count port.old) (P.catalog port.new) (P.count port.new) }
        ensures others { Serves (P.catalog port.old) (P.count port.old) (P.told port.old).shards → LeavesOthers tx.old.number (P.told port.old).shards (P.told port.new).shards }
    {
        let asked = ask(port, tx, Group::Main, shard, self.reading());
        match asked {
            Asked::Answered(answer) => self.checked(alloc, tx, shard, answer),
            Asked::Unlisted => ClaimTold::Memory,
        }
    }

    // Redirects the entry.
    fn put<P: ShardPort>(&mut self, alloc: Global, port: &mut P, tx: &mut TxState) -> ClaimTold
        requires number { tx.old.number ≤ last_tx }
        requires claim { IsClaim (P.catalog port.old) (P.count port.old) self.old }
        requires stage { self.old.stage ≡ stages.Put }
        ensures stepped { ClaimStepped (P.catalog port.old) self.old tx.old (P.told port.old) result self.new tx.new (P.told port.new) }
        ensures sessions { IsIn tx.old (P.count port.old) (P.told port.old).shards → IsIn tx.new (P.count port.new) (P.told port.new).shards }
        ensures same { IsSameTxButClaims tx.old tx.new }
        ensures serves { Serves (P.catalog port.old) (P.count port.old) (P.told port.old).shards → Serves (P.catalog port.new) (P.count port.new) (P.told port.new).shards }
        ensures port { IsSamePort (P.catalog port.old) (P.count port.old) (P.catalog port.new) (P.count port.new) }
        ensures others { Serves (P.catalog port.old) (P.count port.old) (P.told port.old).shards → LeavesOthers tx.old.number (P.told port.old).shards (P.told port.new).shards }
    {
        let Some(act) = self.put_act(alloc) else {
            return ClaimTold::Memory;
        };
        if tx.is_full(&act) {
            return full_told(tx);
        }
        let asked = ask(port, tx, Group::Pre, self.shard, &act);
        match asked {
            Asked::Answered(answer) => put_told(self.shard, answer),
            Asked::Unlisted => ClaimTold::Memory,
        }
    }

    /// Does the action that is due, on one shard, and tells what the claim's state is then.
    ///
    /// After `More` and `Held` it is to be stepped again. After every other answer it is over: the entry's
    /// key stays locked and listed, where it was obtained.
    pub fn step<P: ShardPort>(
        &mut self,
        alloc: Global,
        catalog: &Catalog,
        port: &mut P,
        tx: &mut TxState,
    ) -> ClaimTold
        requires checked { Checked catalog.now }
        requires agree { P.catalog port.old ≡ catalog.now }
        requires serves { Serves catalog.now (P.count port.old) (P.told port.old).shards }
        requires sessions { IsIn tx.old (P.count port.old) (P.told port.old).shards }
        requires number { tx.old.number ≤ last_tx }
        requires claim { IsClaim catalog.now (P.count port.old) self.old }

        // One action, that which was due, its answer with its cause, and what that means.
        ensures stepped { ClaimStepped catalog.now self.old tx.old (P.told port.old) result self.new tx.new (P.told port.new) }

        // It comes to its end: no action but the one that was held is done again.
        ensures bound { result ≡ told.More → acts_left self.new.stage < acts_left self.old.stage }

        // What the next step asks for.
        ensures claim { IsClaim catalog.now (P.count port.new) self.new }
        ensures sessions { IsIn tx.new (P.count port.new) (P.told port.new).shards }
        ensures same { IsSameTxButClaims tx.old tx.new }
        ensures serves { Serves catalog.now (P.count port.new) (P.told port.new).shards }
        ensures port { IsSamePort (P.catalog port.old) (P.count port.old) (P.catalog port.new) (P.count port.new) }
        // What other transactions have is left to them.
        ensures others { LeavesOthers tx.old.number (P.told port.old).shards (P.told port.new).shards }
    {
        match self.stage {
            Stage::First => self.insert(alloc, catalog, port, tx),
            Stage::Check { ksid: _, shard } => self.check(alloc, port, tx, shard),
            Stage::Put => self.put(alloc, port, tx),
        }
    }
}
