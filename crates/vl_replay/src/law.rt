ghost use Rattle.std.specs.Prelude.{◌≡◌, ◌≢◌, ◌<◌, ◌≤◌, ◌-◌, ◌∷◌, length, false, true, ℕ, Bool, List, None, Some};
ghost use Rattle.vl_values.specs.declared.group.Group.{Group as AGroup};
ghost use Rattle.vl_values.specs.declared.group.Group.TheVariants.{Main, Pre};
ghost use Rattle.vl_values.specs.declared.key.Key.{Key as AKey};
ghost use Rattle.vl_values.specs.declared.pred.Pred.{Pred as APred};
ghost use Rattle.vl_catalog.specs.declared.catalog.Catalog.{Catalog as ACatalog};
ghost use Rattle.vl_port.specs.declared.act.Act.{Act as AnAct};
ghost use Rattle.vl_port.specs.declared.act.Act.TheVariants.{Find, Insert};
ghost use Rattle.vl_port.specs.declared.answer.Answer.{Answer as AnAnswer};
ghost use Rattle.vl_port.specs.declared.answer.Answer.TheVariants.{Done, Found, Held, Rows};
ghost use Rattle.vl_port.specs.declared.carried.Carried.{Carried as ACarried};
ghost use Rattle.vl_port.specs.declared.committed.Committed.{Committed as ACommitted};
ghost use Rattle.vl_port.specs.declared.committed.Committed.TheVariants as outcomes;
ghost use Rattle.vl_port.specs.declared.tx_state.TxState.{TxState as ATxState};
ghost use Rattle.vl_port.specs.declared.fate.Fate.{Fate as AFate};
ghost use Rattle.vl_port.specs.declared.who.Who.{Who as AWho};
ghost use Rattle.vl_port.specs.Calls.{HasActed, HasCommitted, PortView};
ghost use Rattle.vl_port.specs.Carrying.{Carries, CommitCarries};
ghost use Rattle.vl_port.specs.Keeping.{IsKept};
ghost use Rattle.vl_port.specs.Life.{is_alive, loss_of, lost_as};
ghost use Rattle.vl_port.specs.Outcomes.{outcome_of};
ghost use Rattle.vl_port.specs.Serving.{Serves, Shards};
ghost use Rattle.vl_port.specs.Taking.{takes_keys};
ghost use Rattle.vl_port.specs.Transaction.{session_of};
ghost use Rattle.vl_port.specs.View.{Values, View, has_group};
ghost use Rattle.vl_commit.specs.Closing.{AreClosed};
ghost use Rattle.vl_commit.specs.Sessions.{AreLeft, sessions};
ghost use Rattle.vl_replay.specs.Answers.{IsMarkedBy};
ghost use Rattle.vl_replay.specs.Calls.{ActsOn, Keeps};
ghost use Rattle.vl_replay.specs.Ending.{EndsWhole, Frees, FreesAll, IsIdle, IsNoAct, committed_deed, committed_ends, was_done};
ghost use Rattle.vl_replay.specs.Lanes.{IsActInLane};
ghost use Rattle.vl_replay.specs.Marks.{HasComeBack, IsTaking, MayHaveWritten, mark_of};
ghost use Rattle.vl_replay.specs.Showing.{AreEmpty, ArePlacedByKey, AreUp, HasNoPost, IsAlone, IsOwned, IsWhole, Shows};
ghost use Rattle.vl_run.specs.declared.deed.Deed.TheVariants as deeds;
ghost use Rattle.vl_run.specs.declared.ends.Ends.TheVariants as ends;
ghost use Rattle.vl_run.specs.declared.event.Event.{Event as AnEvent};
ghost use Rattle.vl_run.specs.declared.mark.Mark.{Mark as AMark};
ghost use Rattle.vl_run.specs.Gathered.{Reads, shown};
ghost use Rattle.vl_run.specs.Allowed.{HasNothing};
ghost use Rattle.vl_run.specs.Deeds.{steps_of};
ghost use Rattle.vl_run.specs.Machine.{CanStepAll, view};
ghost use Rattle.vl_run.specs.Refused.{IsHeld};
ghost use Rattle.vl_run.specs.Replays.{Replays};
ghost use Rattle.vl_run.specs.Run.{Run, cells, is_broken, nowhere, state};
ghost use Rattle.vl_run.specs.Run.Point.{Began, Happened};

/// An act that came back is the deed of its event.
pub fn acted()
    ensures { (catalog : ACatalog) (past : Run) (count : ℕ) (old new : PortView) (who : AWho) (shard : ℕ) (act : AnAct) (answer : AnAnswer) (taking : AMark) (e : AnEvent) → Shows catalog past count old.shards
        → ActsOn catalog count old who shard act answer new → HasComeBack answer → Keeps e who shard act taking answer → Replays catalog (Happened e ∷ past) new.shards }
{}

/// What an act answers is what the one table and the entries say before its event.
pub fn answered()
    ensures reads { (catalog : ACatalog) (past : Run) (count : ℕ) (old new : PortView) (who : AWho) (shard : ℕ) → Shows catalog past count old.shards → (pred : APred) (locking : Bool) (rows : List (AKey × Values))
        → ActsOn catalog count old who shard (Find pred locking) (Rows rows) new → Reads catalog (shown catalog past) who shard pred rows }
    ensures marked { (catalog : ACatalog) (past : Run) (count : ℕ) (old new : PortView) (who : AWho) (shard : ℕ) (act : AnAct) → Shows catalog past count old.shards → (answer : AnAnswer) (taking : AMark)
        → ActsOn catalog count old who shard act answer new → HasComeBack answer → IsTaking taking → IsMarkedBy (shown catalog past) who act (mark_of taking (outcome_of answer)) }
    ensures inserted { (catalog : ACatalog) (past : Run) (count : ℕ) (old new : PortView) (who : AWho) (shard : ℕ) → Shows catalog past count old.shards → (key : AKey) (row : Values)
        → ActsOn catalog count old who shard (Insert key row) Done new → view (shown catalog past) who key ≡ None }
    ensures found { (catalog : ACatalog) (past : Run) (count : ℕ) (old new : PortView) (who : AWho) (shard : ℕ) → Shows catalog past count old.shards → (key k : AKey) (row found : Values)
        → ActsOn catalog count old who shard (Insert key row) (Found k found) new → (k ≡ key) × (view (shown catalog past) who key ≡ Some found) }
    ensures held { (catalog : ACatalog) (past : Run) (count : ℕ) (old new : PortView) (who : AWho) (shard : ℕ) (act : AnAct) → Shows catalog past count old.shards → (by : ℕ) (key : AKey)
        → ActsOn catalog count old who shard act (Held by key) new → IsAlone (old.shards shard) who act → IsHeld catalog (shown catalog past) who.tx shard act by key }
{}

/// The one table may make the steps of an act that came back, where a row that it wrote clashes with none.
pub fn stepped()
    ensures { (catalog : ACatalog) (past : Run) (count : ℕ) (old new : PortView) (who : AWho) (shard : ℕ) (act : AnAct) → Shows catalog past count old.shards → (answer : AnAnswer) (taking : AMark) (e : AnEvent)
        → ActsOn catalog count old who shard act answer new → HasComeBack answer → Keeps e who shard act taking answer → MayHaveWritten catalog past who act answer
        → CanStepAll catalog (is_broken past) (state catalog past) (steps_of catalog (cells catalog past) e) }
{}

/// A commit is the deed of its event, where it was done on its shard, and else its failure; no shard went down.
pub fn committed()
    ensures replays { (catalog : ACatalog) (past : Run) (count : ℕ) (old new : PortView) (who : AWho) (shard : ℕ) → Shows catalog past count old.shards → shard < count → has_group who.group ≡ true → (told : ACommitted)
        → HasCommitted old who shard told new → (new.shards shard).up ≡ true → (e : AnEvent) → e.deed ≡ committed_deed (was_done new.way (loss_of (old.shards shard) who)) who shard
        → e.ends ≡ committed_ends (was_done new.way (loss_of (old.shards shard) who)) who shard → Replays catalog (Happened e ∷ past) new.shards }
    ensures done { (way : ACarried) (old new : View) (who : AWho) → CommitCarries way old who outcomes.Done new → was_done way (loss_of old who) ≡ true }
    ensures steps { (catalog : ACatalog) (past : Run) (e : AnEvent) → IsNoAct e.deed → CanStepAll catalog (is_broken past) (state catalog past) (steps_of catalog (cells catalog past) e) }
{}

/// Where all sessions of a transaction have ended, nothing is left of it, and the shards replay the event that says so.
pub fn ended()
    ensures closed { (catalog : ACatalog) (tx : ATxState) (count from : ℕ) (old : Shards) (mid new : PortView) → IsWhole catalog tx count old → FreesAll tx.number old mid.shards → from ≤ length (sessions tx) → AreLeft tx from count mid.shards
        → Serves catalog count mid.shards → AreClosed tx from (length (sessions tx) - from) mid new → EndsWhole tx.number old new.shards }
    ensures nothing { (catalog : ACatalog) (past : Run) (e : AnEvent) (tx : ℕ) → e.ends ≡ ends.Whole tx → HasNothing (state catalog (Happened e ∷ past)) tx }
{}

/// A lost act has done nothing that outlives its transaction.
pub fn lost()
    ensures { (who : AWho) (act : AnAct) (old : View) → IsKept old → (takes_keys act ≡ true → has_group who.group ≡ true) → old.up ≡ true → (way : ACarried) (answer : AnAnswer) (new : View) → (HasComeBack answer → ⊥)
        → Carries way old who act answer new → Frees who.tx old new }
{}

/// Each call leaves the shards showing what the run says with its event, in their lanes and up; and shards that are
/// empty show a cluster that opens.
pub fn stands()
    ensures acted { (catalog : ACatalog) (past : Run) (count : ℕ) (old new : PortView) (who : AWho) (shard : ℕ) (act : AnAct) (answer : AnAnswer) (taking : AMark) (e : AnEvent) → Shows catalog past count old.shards
        → ActsOn catalog count old who shard act answer new → HasComeBack answer → Keeps e who shard act taking answer → Shows catalog (Happened e ∷ past) count new.shards }
    ensures committed { (catalog : ACatalog) (past : Run) (count : ℕ) (old new : PortView) (who : AWho) (shard : ℕ) → Shows catalog past count old.shards → shard < count → has_group who.group ≡ true → (told : ACommitted)
        → HasCommitted old who shard told new → (new.shards shard).up ≡ true → (e : AnEvent) → e.deed ≡ committed_deed (was_done new.way (loss_of (old.shards shard) who)) who shard
        → e.ends ≡ committed_ends (was_done new.way (loss_of (old.shards shard) who)) who shard → Shows catalog (Happened e ∷ past) count new.shards }
    ensures killed { (catalog : ACatalog) (past : Run) (count : ℕ) (old new : Shards) (who : AWho) (shard : ℕ) (fate : AFate) → Shows catalog past count old → shard < count → has_group who.group ≡ true → is_alive fate ≡ false
        → ((t : ℕ) → t ≢ shard → new t ≡ old t) → new shard ≡ lost_as fate who (old shard) → (e : AnEvent) → e.deed ≡ deeds.Nothing → e.ends ≡ ends.One who shard → Shows catalog (Happened e ∷ past) count new }
    ensures closed { (catalog : ACatalog) (past : Run) (tx : ATxState) (count from : ℕ) (old : Shards) (mid new : PortView) (e : AnEvent) → Shows catalog past count old → IsOwned tx.number tx.session count old
        → FreesAll tx.number old mid.shards → from ≤ length (sessions tx) → AreLeft tx from count mid.shards → Serves catalog count mid.shards → AreUp count mid.shards
        → AreClosed tx from (length (sessions tx) - from) mid new → IsIdle e.deed → e.ends ≡ ends.Whole tx.number → Shows catalog (Happened e ∷ past) count new.shards }
    ensures opened { (catalog : ACatalog) (earlier : Run) (count : ℕ) (seen : Shards) → ArePlacedByKey catalog → Serves catalog count seen → AreUp count seen → AreEmpty seen → Shows catalog (Began nowhere ∷ earlier) count seen }
{}

/// A refusal that ends its transaction leaves the shards showing what the run says with its event: an act was lost, or a
/// commit was told as failed, and the sessions that were left were closed.
pub fn refused()
    ensures lost { (catalog : ACatalog) (past : Run) (tx : ATxState) (count : ℕ) (old mid new : PortView) (who : AWho) (shard : ℕ) (act : AnAct) (answer : AnAnswer) (e : AnEvent) → Shows catalog past count old.shards
        → IsOwned tx.number tx.session count old.shards → ActsOn catalog count old who shard act answer mid → (HasComeBack answer → ⊥) → who.tx ≡ tx.number → AreLeft tx 0 count mid.shards
        → AreClosed tx 0 (length (sessions tx)) mid new → IsIdle e.deed → e.ends ≡ ends.Whole tx.number → Shows catalog (Happened e ∷ past) count new.shards }
    ensures failed { (catalog : ACatalog) (past : Run) (tx : ATxState) (count from : ℕ) (old mid new : PortView) (group : AGroup) (shard : ℕ) (told : ACommitted) → Shows catalog past count old.shards
        → IsOwned tx.number tx.session count old.shards → shard < count → HasCommitted old (session_of tx group) shard told mid → (mid.shards shard).up ≡ true → from ≤ length (sessions tx) → AreLeft tx from count mid.shards
        → AreClosed tx from (length (sessions tx) - from) mid new → (e : AnEvent) → e.deed ≡ committed_deed (was_done mid.way (loss_of (old.shards shard) (session_of tx group))) (session_of tx group) shard
        → e.ends ≡ ends.Whole tx.number → Shows catalog (Happened e ∷ past) count new.shards }
    ensures owned_acted { (tx session count : ℕ) (old new : PortView) (who : AWho) (shard : ℕ) (act : AnAct) (answer : AnAnswer) → HasActed old who shard act answer new → (who.tx ≡ tx → who.session ≡ session)
        → IsOwned tx session count old.shards → IsOwned tx session count new.shards }
    ensures owned_committed { (tx session count : ℕ) (old new : PortView) (who : AWho) (shard : ℕ) (told : ACommitted) → HasCommitted old who shard told new → (new.shards shard).up ≡ true → IsOwned tx session count old.shards
        → IsOwned tx session count new.shards }
    ensures owned_closed { (number session count from n : ℕ) (tx : ATxState) (old new : PortView) → AreClosed tx from n old new → IsOwned number session count old.shards → IsOwned number session count new.shards }
    ensures owned_killed { (number session count : ℕ) (old new : Shards) (who : AWho) (shard : ℕ) (fate : AFate) → ((t : ℕ) → t ≢ shard → new t ≡ old t) → new shard ≡ lost_as fate who (old shard)
        → IsOwned number session count old → IsOwned number session count new }
{}

/// No key that an act must obtain is held by another session of its own transaction: of an act of main, and of one of pre
/// where the transaction has no session of post there.
pub fn undisturbed()
    ensures main { (catalog : ACatalog) (past : Run) (count : ℕ) (seen : Shards) (who : AWho) (shard : ℕ) (act : AnAct) → Shows catalog past count seen → IsOwned who.tx who.session count seen → shard < count
        → IsActInLane catalog who.group act → who.group ≡ Some Main → IsAlone (seen shard) who act }
    ensures pre { (catalog : ACatalog) (past : Run) (count : ℕ) (seen : Shards) (who : AWho) (shard : ℕ) (act : AnAct) → Shows catalog past count seen → IsOwned who.tx who.session count seen → shard < count
        → IsActInLane catalog who.group act → who.group ≡ Some Pre → HasNoPost (seen shard) who.tx → IsAlone (seen shard) who act }
{}
