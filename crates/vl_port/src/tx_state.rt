ghost use Rattle.std.specs.Prelude.{◌≡◌, ◌≤◌, ◌↔◌, ◌++◌, ◌∷◌, ℕ, Bool, [], List, IsTrue, IfOk, OnErr, Contains};
ghost use Rattle.vl_port.specs.Asking.{reader_in, with_change};
ghost use Rattle.vl_port.specs.Limiting.{is_full};
ghost use Rattle.vl_port.specs.Transaction.{Enlists, listed, session_of, with_session};

use crate::act::Act;
use crate::claimed::Claimed;
use crate::limits::Limits;
use crate::shard_list::ShardList;
use crate::who::Who;
use std::alloc::{AllocError, Global};
use vl_values::group::Group;
use vl_values::items::Items;
use vl_values::key::Key;
use vl_values::{SessionNo, ShardNo, TxNo};

/// A transaction, with the shard sessions that it has opened.
#[derive(Drop)]
pub struct TxState {
    pub number: TxNo,
    /// The client session.
    pub session: SessionNo,
    pub limits: Limits,
    /// Whether autocommit is on.
    pub auto: bool,
    /// Whether the transaction is of a single statement, and ends with it.
    pub single: bool,
    /// The shards of the sessions of each group, in the order of first use.
    pub pre: ShardList,
    pub main: ShardList,
    pub post: ShardList,
    /// How many writes were done, held at the largest `u32`.
    pub changes: u32,
    /// The entries that it claims, in the order of their claims.
    pub claimed: Items<Claimed>,
    /// The keys of the entries that it removes, in the order of their removals.
    pub removed: Items<Key>,
}

impl TxState {
    /// A transaction without shard sessions. It takes no memory.
    pub fn new(
        alloc: Global,
        number: TxNo,
        session: SessionNo,
        limits: Limits,
        auto: bool,
        single: bool,
    ) -> TxState
        ensures { result ≡ record { number = number; session = session; limits = limits; auto = auto; single = single; pre = []; main = []; post = []; changes = 0; claimed = []; removed = [] } }
    {
        TxState {
            number,
            session,
            limits,
            auto,
            single,
            pre: ShardList::new(alloc),
            main: ShardList::new(alloc),
            post: ShardList::new(alloc),
            changes: 0,
            claimed: Items::new(alloc),
            removed: Items::new(alloc),
        }
    }

    /// The transaction's session of a group.
    pub fn who(&self, group: Group) -> Who
        ensures { result ≡ session_of self.now group }
    {
        Who {
            session: self.session,
            tx: self.number,
            group: Some(group),
        }
    }

    /// Who reads without locks on a shard for the transaction: its session of the group where that is
    /// listed, so that it sees its own changes, and else the transaction without a group.
    pub fn reader(&self, group: Group, shard: ShardNo) -> Who
        ensures { (there : Bool) × (IsTrue there ↔ Contains (listed self.now group) shard) × (result ≡ reader_in self.now group there) }
    {
        if self.listed(group).contains(shard) {
            return self.who(group);
        }
        Who {
            session: self.session,
            tx: self.number,
            group: None,
        }
    }

    /// Counts a write that was done.
    pub fn count_change(&mut self)
        ensures counted { self.new ≡ with_change self.old }
        ensures more { self.old.changes ≤ self.new.changes }
    {
        self.changes = self.changes.saturating_add(1);
    }

    /// Whether the act is a write that would pass the limit of changes.
    pub fn is_full(&self, act: &Act) -> bool
        ensures { result ≡ is_full self.now act.now }
    {
        match act {
            Act::Find { .. } => false,
            _ => self.changes >= self.limits.changes,
        }
    }

    /// The shards of the group's sessions, in the order of first use.
    pub fn listed(&self, group: Group) -> &ShardList
        ensures { result.now ≡ listed self.now group }
    {
        match group {
            Group::Pre => &self.pre,
            Group::Main => &self.main,
            Group::Post => &self.post,
        }
    }

    fn push(&mut self, group: Group, shard: ShardNo) -> Result<(), AllocError>
        ensures ok { IfOk result (λ _. self.new ≡ with_session self.old group (listed self.old group ++ shard ∷ [])) }
        ensures err { OnErr result (self.new ≡ self.old) }
    {
        match group {
            Group::Pre => self.pre.push(shard),
            Group::Main => self.main.push(shard),
            Group::Post => self.post.push(shard),
        }
    }

    /// Lists the group's session on a shard behind the others, where it isn't listed yet, and tells
    /// whether it was added.
    pub fn enlist(&mut self, group: Group, shard: ShardNo) -> Result<bool, AllocError>
        ensures ok { IfOk result (λ added. Enlists self.old group shard added self.new) }
        ensures err { OnErr result (self.new ≡ self.old) }
    {
        if self.listed(group).contains(shard) {
            return Ok(false);
        }
        self.push(group, shard)?;
        Ok(true)
    }

    /// Takes the session of a group off the list that was added last. It takes no memory.
    pub fn strike(&mut self, group: Group)
        ensures same { self.new.changes ≡ self.old.changes }
        ensures struck { (front : List ℕ) (shard : ℕ) → listed self.old group ≡ front ++ shard ∷ [] → self.new ≡ with_session self.old group front }
    {
        match group {
            Group::Pre => self.pre.pop(),
            Group::Main => self.main.pop(),
            Group::Post => self.post.pop(),
        }
    }
}
