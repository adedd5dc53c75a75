ghost use Rattle.std.specs.Prelude.{◌≡◌, ◌≢◌, ◌<◌, ◌^◌, ℕ, true, IfOk, length, replicate};
ghost use Rattle.vl_catalog.specs.Place.{shard_count};
ghost use Rattle.vl_port.specs.View.{has_group};
ghost use Rattle.vl_port.specs.Calls.{HasActed, HasClosed, HasCommitted, IsCarried, IsQuiet, IsSamePort};
ghost use Rattle.vl_port.specs.Losses.{IsLossCounted};
ghost use Rattle.vl_port.specs.Placing.{IsActOn};
ghost use Rattle.vl_port.specs.Taking.{takes_keys};
ghost use Rattle.vl_shard.specs.Banks.{carried_of, count_of, seen_of, told_by, AreNew, IsFresh, IsServing};
ghost use Rattle.vl_shard.specs.Calls.{DropLeaves, Drops};

use crate::shard::Shard;
use std::alloc::{AllocError, Global};
use std::marker::Model;
use vl_catalog::Catalog;
use vl_port::act::Act;
use vl_port::answer::Answer;
use vl_port::carried::Carried;
use vl_port::committed::Committed;
use vl_port::link::Link;
use vl_port::outcome::Outcome;
use vl_port::port::ShardPort;
use vl_port::who::Who;
use vl_values::group::Group;
use vl_values::{SessionNo, ShardNo};

/// The shards of a catalog, by their numbers, and the link that carries acts and commits to them.
#[derive(Drop)]
pub struct Bank<L> {
    catalog: Catalog,
    shards: Vec<Shard>,
    link: L,
    carried: Vec<u64>,
    way: Carried,
    outcome: Option<Outcome>,
}

impl<L> Model for Bank<L> {
    ghost use Rattle.vl_shard.specs.Banks.{BankParts, IsBank};

    ghost Value = { BankParts L };

    ghost view = { λ b. record { catalog = b.catalog; shards = b.shards.items; link = b.link; carried = b.carried.items; way = b.way; outcome = b.outcome } };

    ghost invariant = { λ b. IsBank (record { catalog = b.catalog; shards = b.shards.items; link = b.link; carried = b.carried.items; way = b.way; outcome = b.outcome }) };
}

// This many shards of their first incarnation, without rows and sessions.
fn new_shards(alloc: Global, count: u32) -> Result<Vec<Shard>, AllocError>
    ensures { IfOk result (λ shards. AreNew shards.items count) }
{
    let mut shards = Vec::new(alloc);
    for _ in 0..count {
        shards.push(Shard::new(alloc))?;
    }
    Ok(shards)
}

// This many counts, each 0.
fn new_counts(alloc: Global, count: u32) -> Result<Vec<u64>, AllocError>
    ensures { IfOk result (λ counts. counts.items ≡ replicate count 0) }
{
    let mut counts = Vec::new(alloc);
    counts.resize(count as usize, 0)?;
    Ok(counts)
}

impl<L: Drop> Bank<L> {
    /// The shards of this catalog behind this link, of their first incarnation, without rows and sessions.
    pub fn new(alloc: Global, catalog: &Catalog, link: L) -> Result<Bank<L>, AllocError>
        requires counted { shard_count catalog.now.rings < 2 ^ 32 }
        ensures fresh { IfOk result (IsFresh catalog.now link) }
        ensures new { IfOk result (λ bank. AreNew bank.shards (shard_count catalog.now.rings)) }
        ensures serves { IfOk result (λ bank. IsServing bank) }
    {
        let count = catalog.shard_count().unwrap();
        let shards = new_shards(alloc, count)?;
        let carried = new_counts(alloc, count)?;
        let catalog = catalog.copy(alloc)?;
        Ok(Bank {
            catalog,
            shards,
            link,
            carried,
            way: Carried::Passed,
            outcome: None,
        })
    }
}

impl<L> Bank<L> {
    /// The catalog that is served.
    pub fn catalog(&self) -> &Catalog
        ensures { result.now ≡ self.now.catalog }
    {
        &self.catalog
    }

    /// How many shards there are.
    pub fn len(&self) -> usize
        ensures count { result ≡ count_of self.now }
        ensures serves { IsServing self.now }
    {
        self.shards.len()
    }

    /// How many acts and commits were carried to a shard; the count stands still at its end.
    pub fn carried(&self, shard: ShardNo) -> u64
        requires { shard < count_of self.now }
        ensures { result ≡ carried_of self.now.carried shard }
    {
        self.carried[shard as usize]
    }

    /// The link.
    pub fn link(&self) -> &L
        ensures { result.now ≡ self.now.link }
    {
        &self.link
    }
}

impl<L> Bank<L> {
    ghost use Rattle.std.specs.Borrow.{Lends, sem};
    ghost use Rattle.vl_shard.specs.contracts.bank.Bank.{the_row};

    /// The link, to be changed; all else stays as it is.
    pub fn link_mut(&mut self) -> &mut L
        ensures* writes_back { sem 𝓛 (Lends (the_row L.row) L.row self.entry result (λ w. record self.old { link = w })) }
        ensures value { result.now ≡ self.old.link }
    {
        &mut self.link
    }
}

impl<L: Link> Bank<L> {
    /// Kills a live shard session of a client session and group: it is rolled back at once, and its next
    /// use is lost. False where there is none.
    pub fn drop_session(&mut self, session: SessionNo, group: Group, shard: ShardNo) -> bool
        requires { shard < count_of self.old }
        ensures dropped { Drops (seen_of self.old shard) session group result (seen_of self.new shard) }
        ensures others { (other : ℕ) → other ≢ shard → seen_of self.new other ≡ seen_of self.old other }
        ensures leaves { DropLeaves (seen_of self.old) shard session group result (seen_of self.new) }
        ensures quiet { IsQuiet (told_by self.old (L.faults self.old.link) (L.losses self.old.link)) (told_by self.new (L.faults self.new.link) (L.losses self.new.link)) }
        ensures same { IsSamePort self.old.catalog (count_of self.old) self.new.catalog (count_of self.new) }
        ensures serves { IsServing self.new }
    {
        self.shards[shard as usize].drop_session(session, group)
    }

    // One message to a shard.
    fn carry(&mut self, shard: ShardNo) -> Carried
        requires { shard < count_of self.old }
        ensures shards { self.new.shards ≡ self.old.shards }
        ensures catalog { self.new.catalog ≡ self.old.catalog }
        ensures way { self.new.way ≡ result }
        ensures carried { IsCarried (told_by self.old (L.faults self.old.link) (L.losses self.old.link)) shard (told_by self.new (L.faults self.new.link) (L.losses self.new.link)) }
        ensures counted { IsLossCounted (L.faults self.old.link) result (L.faults self.new.link) }
    {
        let way = self.link.carry(shard);
        let place = shard as usize;
        self.carried[place] = self.carried[place].saturating_add(1);
        self.way = way;
        way
    }
}

impl<L: Link> ShardPort for Bank<L> {
    ghost catalog = { λ b. b.catalog };

    ghost count = { λ b. count_of b };

    ghost told = { λ b. told_by b (L.faults b.link) (L.losses b.link) };

    /// One action of a shard session, or a read without one, on the shard of this number.
    fn act(&mut self, who: Who, shard: ShardNo, act: &Act) -> Answer
        requires shard { shard < count_of self.old }
        requires group { takes_keys act.now ≡ true → has_group who.group ≡ true }
        requires fits { IsActOn self.old.catalog shard act.now }
        ensures acts { HasActed (told_by self.old (L.faults self.old.link) (L.losses self.old.link)) who shard act.now result (told_by self.new (L.faults self.new.link) (L.losses self.new.link)) }
        ensures same { IsSamePort self.old.catalog (count_of self.old) self.new.catalog (count_of self.new) }
        ensures serves { IsServing self.new }
    {
        let way = self.carry(shard);
        let answer = self.shards[shard as usize].act(&who, act, way);
        self.outcome = Some(answer.outcome());
        answer
    }

    /// Commits a shard session on the shard of this number.
    fn commit(&mut self, who: Who, shard: ShardNo) -> Committed
        requires { shard < count_of self.old }
        ensures commits { HasCommitted (told_by self.old (L.faults self.old.link) (L.losses self.old.link)) who shard result (told_by self.new (L.faults self.new.link) (L.losses self.new.link)) }
        ensures same { IsSamePort self.old.catalog (count_of self.old) self.new.catalog (count_of self.new) }
        ensures serves { IsServing self.new }
    {
        let way = self.carry(shard);
        self.shards[shard as usize].commit(&who, way)
    }

    /// Ends a shard session on the shard of this number.
    fn close(&mut self, who: Who, shard: ShardNo)
        requires { shard < count_of self.old }
        ensures closes { HasClosed (told_by self.old (L.faults self.old.link) (L.losses self.old.link)) who shard (told_by self.new (L.faults self.new.link) (L.losses self.new.link)) }
        ensures same { IsSamePort self.old.catalog (count_of self.old) self.new.catalog (count_of self.new) }
        ensures serves { IsServing self.new }
    {
        self.shards[shard as usize].close(&who);
    }

    /// The way that the last act or commit took.
    fn way(&self) -> Carried
        ensures { result ≡ self.now.way }
    {
        self.way
    }

    /// What the last act came to, if one was carried since this was asked last.
    fn take_outcome(&mut self) -> Option<Outcome>
        ensures outcome { result ≡ self.old.outcome }
        ensures bank { self.new ≡ record self.old { outcome = None } }
    {
        self.outcome.take()
    }
}
