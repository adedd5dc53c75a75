ghost use Rattle.std.specs.Prelude.{◌≡◌, ◌≤◌, ◌<◌, ◌+◌, ◌-◌, ◌++◌, ◌∷◌, ℕ, [], Some, IfErr, IfOk, length};
ghost use Rattle.vl_values.specs.declared.group.Group.TheVariants.{Post as InPost};
ghost use Rattle.vl_port.specs.Calls.{IsSamePort};
ghost use Rattle.vl_port.specs.Others.{LeavesOthers};
ghost use Rattle.vl_port.specs.Serving.{Serves};
ghost use Rattle.vl_port.specs.Transaction.{IsIn, last_tx, listed};
ghost use Rattle.vl_port.specs.View.{View};
ghost use Rattle.vl_commit.specs.declared.commit_told.CommitTold.TheVariants.{More};
ghost use Rattle.vl_commit.specs.Closing.{AreClosed};
ghost use Rattle.vl_commit.specs.Sessions.{AreLeft, HasNothingLeft, IsInTurn, Session, sessions, start_of};
ghost use Rattle.vl_commit.specs.Stepping.{CommitStepped, DealsWith, EndsAt, FailsIn, IsBelow, IsDoneIn, IsOver, RisesOnce, TellsOf, due, failed, passed, warned};

use crate::closing::close_from;
use crate::commit_told::CommitTold;
use crate::failure::Failure;
use crate::sessions::{first_place, session_at, session_count};
use crate::warning::Warning;
use std::alloc::{AllocError, Global};
use std::marker::Model;
use vl_port::committed::Committed;
use vl_port::port::ShardPort;
use vl_port::tx_state::TxState;
use vl_values::ShardNo;
use vl_values::group::Group;
use vl_values::items::Items;

/// The commit of a transaction, one shard session at a time.
#[derive(Drop)]
pub struct Commit {
    alloc: Global,
    tx: TxState,
    at: usize,
    warnings: Vec<Warning>,
}

impl Model for Commit {
    ghost use Rattle.std.specs.Prelude.{vec_capacity};
    ghost use Rattle.vl_commit.specs.Stepping.{Committing, HasRoom};

    ghost Value = { Committing };

    ghost view = { λ c. record { tx = c.tx; at = c.at; warnings = c.warnings.items } };

    ghost invariant = { λ c. HasRoom (record { tx = c.tx; at = c.at; warnings = c.warnings.items }) (vec_capacity c.warnings) };
}

impl Commit {
    /// The commit of a transaction, before its first step. All memory is taken here; where it is refused
    /// the transaction comes back.
    pub fn start(alloc: Global, tx: TxState) -> Result<Commit, (TxState, AllocError)>
        ensures ok { IfOk result (λ commit. commit ≡ record { tx = tx; at = 0; warnings = [] }) }
        ensures left { IfOk result (λ commit. (count : ℕ) (seen : ℕ → View) → IsIn tx count seen → AreLeft commit.tx commit.at count seen) }
        ensures back { IfErr result (λ back. back.0 ≡ tx) }
    {
        match Vec::with_capacity(alloc, tx.post.as_slice().len()) {
            Ok(warnings) => Ok(Commit {
                alloc,
                tx,
                at: 0,
                warnings,
            }),
            Err(full) => Err((tx, full)),
        }
    }

    /// The transaction.
    pub fn tx(&self) -> &TxState
        ensures { result.now ≡ self.now.tx }
    {
        &self.tx
    }

    /// The commits of post that failed so far, in their order.
    pub fn warnings(&self) -> &[Warning]
        ensures { result.now ≡ self.now.warnings }
    {
        self.warnings.as_slice()
    }

    /// The group and the shard of the session that is due.
    pub fn due(&self) -> Option<(Group, ShardNo)>
        ensures { result ≡ due self.now }
    {
        session_at(&self.tx, self.at)
    }

    /// Gives the commit up: the sessions that are left are closed, and what was committed stays. It takes
    /// no memory and can't fail.
    pub fn abandon<P: ShardPort>(self, port: &mut P)
        requires left { AreLeft self.tx self.at (P.count port.old) (P.told port.old).shards }
        requires number { self.tx.number ≤ last_tx }
        requires serves { Serves (P.catalog port.old) (P.count port.old) (P.told port.old).shards }

        // Nothing is left of the transaction but what was committed.
        ensures closed { AreClosed self.tx self.at (length (sessions self.tx) - self.at) (P.told port.old) (P.told port.new) }
        ensures nothing { HasNothingLeft self.tx (P.count port.new) (P.told port.new).shards }

        // What the next call asks for, and what other transactions have is left to them.
        ensures serves { Serves (P.catalog port.new) (P.count port.new) (P.told port.new).shards }
        ensures same_port { IsSamePort (P.catalog port.old) (P.count port.old) (P.catalog port.new) (P.count port.new) }
        ensures others { LeavesOthers self.tx.number (P.told port.old).shards (P.told port.new).shards }
        // No shard goes down.
        ensures incarnations { (shard : ℕ) → ((P.told port.new).shards shard).incarnation ≡ ((P.told port.old).shards shard).incarnation }
    {
        close_from(port, &self.tx, self.at);
    }

    // Whether another session is due.
    fn go(&mut self) -> CommitTold
        ensures { TellsOf (due self.old) self.old result self.new }
    {
        match session_at(&self.tx, self.at) {
            Some(_) => CommitTold::More,
            None => {
                let warnings = std::mem::replace(&mut self.warnings, Vec::new(self.alloc));
                CommitTold::Ok {
                    warnings: Items::from_vec(warnings),
                }
            }
        }
    }

    // The session that was due is committed.
    fn pass(&mut self) -> CommitTold
        requires { self.old.at < length (sessions self.old.tx) }
        ensures { TellsOf (due (passed self.old)) (passed self.old) result self.new }
    {
        // It always is: the test bounds the sum.
        let count = session_count(&self.tx);
        if self.at < count {
            self.at += 1;
        }
        self.go()
    }

    // Its commit in post failed.
    fn warn(&mut self, shard: ShardNo, why: Failure) -> CommitTold
        requires due { self.old.at < length (sessions self.old.tx) }
        requires post { start_of self.old.tx InPost ≤ self.old.at }
        ensures { TellsOf (due (warned shard why self.old)) (warned shard why self.old) result self.new }
    {
        let count = session_count(&self.tx);
        if self.at < count {
            self.at += 1;
        }
        // There is room, as the type keeps it.
        let Ok(()) = self.warnings.push(Warning { shard, why }) else {
            return self.go();
        };
        self.go()
    }

    // Its commit in pre or main failed.
    fn failed(&self, group: Group, shard: ShardNo, why: Failure) -> CommitTold
        requires from { start_of self.now.tx group ≤ self.now.at }
        requires within { self.now.at < start_of self.now.tx group + length (listed self.now.tx group) }
        ensures { result ≡ failed self.now (group, shard) why }
    {
        let of = self.tx.listed(group).len();
        let done = self.at - first_place(&self.tx, group);
        CommitTold::Failed {
            group,
            done: done as u32,
            of,
            shard,
            why,
        }
    }

    // A commit of pre or main that failed ends the transaction.
    fn refuse<P: ShardPort>(
        &self,
        port: &mut P,
        group: Group,
        shard: ShardNo,
        why: Failure,
    ) -> CommitTold
        requires due { due self.now ≡ Some (group, shard) }
        requires left { AreLeft self.now.tx (self.now.at + 1) (P.count port.old) (P.told port.old).shards }
        requires number { self.now.tx.number ≤ last_tx }
        ensures ends { EndsAt self.now (group, shard) why (P.told port.old) result self.now (P.told port.new) }
        ensures same_port { IsSamePort (P.catalog port.old) (P.count port.old) (P.catalog port.new) (P.count port.new) }
    {
        let told = self.failed(group, shard, why);
        let within = self.at < session_count(&self.tx);
        prove!(within);
        close_from(port, &self.tx, self.at + 1);
        told
    }

    // What a commit that failed means.
    fn fail<P: ShardPort>(
        &mut self,
        port: &mut P,
        group: Group,
        shard: ShardNo,
        why: Failure,
    ) -> CommitTold
        requires due { due self.old ≡ Some (group, shard) }
        requires left { AreLeft self.old.tx (self.old.at + 1) (P.count port.old) (P.told port.old).shards }
        requires number { self.old.tx.number ≤ last_tx }
        ensures fails { FailsIn group self.old (group, shard) why (P.told port.old) result self.new (P.told port.new) }
        ensures same_port { IsSamePort (P.catalog port.old) (P.count port.old) (P.catalog port.new) (P.count port.new) }
    {
        match group {
            Group::Pre | Group::Main => self.refuse(port, group, shard, why),
            Group::Post => self.warn(shard, why),
        }
    }

    // What the outcome of the commit of the session that was due means.
    fn deal<P: ShardPort>(
        &mut self,
        port: &mut P,
        group: Group,
        shard: ShardNo,
        outcome: Committed,
    ) -> CommitTold
        requires due { due self.old ≡ Some (group, shard) }
        requires left { AreLeft self.old.tx (self.old.at + 1) (P.count port.old) (P.told port.old).shards }
        requires number { self.old.tx.number ≤ last_tx }
        ensures deals { DealsWith outcome self.old (group, shard) (P.told port.old) result self.new (P.told port.new) }
        ensures same_port { IsSamePort (P.catalog port.old) (P.count port.old) (P.catalog port.new) (P.count port.new) }
    {
        match outcome {
            Committed::Done => self.pass(),
            Committed::Lost(why) => self.fail(port, group, shard, Failure::Lost(why)),
            Committed::Device => self.fail(port, group, shard, Failure::Device),
        }
    }

    fn advance<P: ShardPort>(&mut self, port: &mut P) -> CommitTold
        requires left { AreLeft self.old.tx self.old.at (P.count port.old) (P.told port.old).shards }
        requires number { self.old.tx.number ≤ last_tx }
        requires below { IsBelow self.old (P.told port.old).shards }
        ensures stepped { CommitStepped self.old (P.told port.old) result self.new (P.told port.new) }
        ensures same_port { IsSamePort (P.catalog port.old) (P.count port.old) (P.catalog port.new) (P.count port.new) }
    {
        let Some((group, shard)) = session_at(&self.tx, self.at) else {
            return self.go();
        };
        let outcome = port.commit(self.tx.who(group), shard);
        self.deal(port, group, shard, outcome)
    }

    /// Commits the session that is due on its shard, and tells whether another is due or what the commit
    /// is answered. It takes no memory.
    ///
    /// After an `Ok` or a `Failed` the commit is over, and nothing of the transaction is left: no session,
    /// no lock and no pending version.
    pub fn step<P: ShardPort>(&mut self, port: &mut P) -> CommitTold
        requires left { AreLeft self.old.tx self.old.at (P.count port.old) (P.told port.old).shards }
        requires number { self.old.tx.number ≤ last_tx }
        requires below { IsBelow self.old (P.told port.old).shards }
        requires serves { Serves (P.catalog port.old) (P.count port.old) (P.told port.old).shards }

        // One commit, that of the session that was due, its outcome, and what that means.
        ensures stepped { CommitStepped self.old (P.told port.old) result self.new (P.told port.new) }

        // Its turn has come when all sessions of the groups before its own have ended. Those of pre and
        // main are passed only as done.
        ensures turn { (session : Session) → due self.old ≡ Some session → IsInTurn session.0 self.old.tx (P.count port.old) (P.told port.old).shards }
        ensures done { result ≡ More → IsDoneIn self.old (P.told port.old) (P.told port.new) }

        // What the next step asks for; at the end nothing of the transaction is left.
        ensures left { result ≡ More → AreLeft self.new.tx self.new.at (P.count port.new) (P.told port.new).shards }
        ensures nothing { IsOver result → HasNothingLeft self.old.tx (P.count port.new) (P.told port.new).shards }
        ensures same { self.new.tx ≡ self.old.tx }
        ensures counted { result ≡ More → (self.new.at ≡ self.old.at + 1) × (self.new.at < length (sessions self.new.tx)) }
        ensures serves { Serves (P.catalog port.new) (P.count port.new) (P.told port.new).shards }
        ensures same_port { IsSamePort (P.catalog port.old) (P.count port.old) (P.catalog port.new) (P.count port.new) }
        // What other transactions have is left to them, unless the shard went down, which it does once at most.
        ensures others { LeavesOthers self.old.tx.number (P.told port.old).shards (P.told port.new).shards }
        ensures rises { RisesOnce (P.told port.old).shards (P.told port.new).shards }
    {
        self.advance(port)
    }
}
