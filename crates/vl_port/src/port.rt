ghost use Rattle.std.specs.Prelude.{◌≡◌, ◌<◌, ◌≤◌, ℕ, true};
ghost use Rattle.std.specs.Option.{is_some};
ghost use Rattle.vl_catalog.specs.declared.catalog.Catalog.{Catalog};
ghost use Rattle.vl_port.specs.View.{has_group};
ghost use Rattle.vl_port.specs.Calls.{HasActed, HasClosed, HasCommitted, IsSamePort, PortView, without_outcome};
ghost use Rattle.vl_port.specs.Placing.{IsActOn};
ghost use Rattle.vl_port.specs.Taking.{takes_keys};
ghost use Rattle.vl_port.specs.Transaction.{last_incarnation, last_tx};

use crate::act::Act;
use crate::answer::Answer;
use crate::carried::Carried;
use crate::committed::Committed;
use crate::outcome::Outcome;
use crate::who::Who;
use vl_values::ShardNo;

/// The way to the shards. A call does one action on the shard that it names, and leaves all others as
/// they are.
pub trait ShardPort {
    // the catalog that is served
    ghost catalog: { Self → Catalog };

    // how many shards there are
    ghost count: { Self → ℕ };

    // what the shards and the outside show
    ghost told: { Self → PortView };

    /// One action of a shard session, or a read without one.
    fn act(&mut self, who: Who, shard: ShardNo, act: &Act) -> Answer
        requires shard { shard < count self.old }
        requires number { who.tx ≤ last_tx }
        requires group { takes_keys act.now ≡ true → has_group who.group ≡ true }
        requires fits { IsActOn (catalog self.old) shard act.now }
        ensures acts { HasActed (told self.old) who shard act.now result (told self.new) }
        ensures same { IsSamePort (catalog self.old) (count self.old) (catalog self.new) (count self.new) };

    /// Commits a shard session that was opened and hasn't ended. It has ended, whatever the outcome.
    fn commit(&mut self, who: Who, shard: ShardNo) -> Committed
        requires shard { shard < count self.old }
        requires number { who.tx ≤ last_tx }
        requires opened { is_some (((told self.old).shards shard).sessions who) ≡ true }
        requires below { ((told self.old).shards shard).incarnation < last_incarnation }
        ensures commits { HasCommitted (told self.old) who shard result (told self.new) }
        ensures same { IsSamePort (catalog self.old) (count self.old) (catalog self.new) (count self.new) };

    /// Ends a shard session that was opened, with what it held and changed.
    fn close(&mut self, who: Who, shard: ShardNo)
        requires shard { shard < count self.old }
        requires number { who.tx ≤ last_tx }
        requires opened { is_some (((told self.old).shards shard).sessions who) ≡ true }
        ensures closes { HasClosed (told self.old) who shard (told self.new) }
        ensures same { IsSamePort (catalog self.old) (count self.old) (catalog self.new) (count self.new) };

    /// The way that the last act or commit took; `Passed` before the first.
    fn way(&self) -> Carried
        ensures { result ≡ (told self.now).way };

    /// What the last act came to, if one was carried since this was asked last. It asks no shard.
    fn take_outcome(&mut self) -> Option<Outcome>
        ensures outcome { result ≡ (told self.old).outcome }
        ensures taken { told self.new ≡ without_outcome (told self.old) }
        ensures same { IsSamePort (catalog self.old) (count self.old) (catalog self.new) (count self.new) };
}
