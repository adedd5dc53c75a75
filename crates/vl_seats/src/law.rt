ghost use Rattle.std.specs.Prelude.{◌≡◌, ◌++◌, ◌∷◌, ℕ, true, List, [], remove, slice_get, slice_set, Option, Some, None};
ghost use Rattle.vl_catalog.specs.declared.catalog.Catalog.{Catalog};
ghost use Rattle.vl_port.specs.declared.limits.Limits.{Limits};
ghost use Rattle.vl_port.specs.Serving.{Shards};
ghost use Rattle.vl_run.specs.declared.event.Event.{Event};
ghost use Rattle.vl_run.specs.declared.request.Request.TheVariants as requests;
ghost use Rattle.vl_run.specs.Allowed.{IsStill, Joins};
ghost use Rattle.vl_run.specs.Numbers.{next_event};
ghost use Rattle.vl_run.specs.Progress.{session};
ghost use Rattle.vl_run.specs.Run.{Run, at, next_tx, seat};
ghost use Rattle.vl_run.specs.Run.Point.{Happened};
ghost use Rattle.vl_course.specs.Course.{AreNumbered, HasNext};
ghost use Rattle.vl_session.specs.Saying.{LeavesBut};
ghost use Rattle.vl_session.specs.Ready.{IsReady};
ghost use Rattle.vl_session.specs.Turning.{Answering, IsTurn};
ghost use Rattle.vl_session.specs.declared.turn.Turn.{Turn};
ghost use Rattle.vl_session.specs.declared.work.Work.TheVariants as works;
ghost use Rattle.vl_seats.specs.declared.seat.Seat.{Seat as ASeat};
ghost use Rattle.vl_seats.specs.Seating.{AreJoined, AreSeated, AreUnopened, IsSeatAt};
ghost use Rattle.vl_seats.specs.Staying.{IsSitting, IsSteady, MayHaveDone, acting_in, auto_behind, tx_in};

/// An event of one session leaves the others as they were: what was done was for its own transaction, and no shard went down. So
/// all seats stand behind it where its own does.
pub fn sits_aside()
    ensures { (catalog : Catalog) (limits : Limits) (past : Run) (count : ℕ) (old new : Shards) (e : Event) (numbers : List ℕ) (seats : List ASeat) (place n : ℕ) (s next : ASeat) → e.session ≡ n → IsSitting e.request → MayHaveDone catalog past e → HasNext (next_tx past) e.opens → AreNumbered past → AreJoined past → IsSteady old new → AreSeated catalog limits past count old numbers seats → slice_get numbers place ≡ Some n → slice_get seats place ≡ Some s → LeavesBut (acting_in (tx_in s.work) e.opens) old new → IsSeatAt catalog limits (Happened e ∷ past) count new n next → AreSeated catalog limits (Happened e ∷ past) count new numbers (slice_set seats place next) }
{}

/// A session whose statement was answered so stands where the run then says.
pub fn sits_on()
    ensures answered { (catalog : Catalog) (limits : Limits) (past : Run) (count : ℕ) (old new : Shards) (e : Event) (turn : Turn) (n : ℕ) (s : ASeat) (keyspace : Option (List ℕ)) → e.session ≡ n → IsSitting e.request → (e.request ≡ requests.Reset → ⊥) → IsTurn e turn → AreNumbered past → IsSeatAt catalog limits past count old n s → Answering catalog limits past count e turn new → IsReady catalog count new turn.work → keyspace ≡ (session (Happened e ∷ past) n).keyspace → IsSeatAt catalog limits (Happened e ∷ past) count new n (record { at = next_event (at past); auto = auto_behind turn.what s.auto; keyspace = keyspace; work = turn.work }) }
    // One that was reset is at its beginning; the chosen keyspace stays.
    ensures reset { (catalog : Catalog) (limits : Limits) (past : Run) (count : ℕ) (old new : Shards) (e : Event) (n : ℕ) (s : ASeat) → e.session ≡ n → e.request ≡ requests.Reset → IsStill e → IsSeatAt catalog limits past count old n s → IsSeatAt catalog limits (Happened e ∷ past) count new n (record { at = next_event (at past); auto = true; keyspace = s.keyspace; work = works.Idle None }) }
{}

/// No shard gets a session of a transaction whose number is still to be given.
pub fn stays_unopened()
    ensures { (catalog : Catalog) (limits : Limits) (past : Run) (count : ℕ) (old new : Shards) (e : Event) (n : ℕ) (s : ASeat) → e.session ≡ n → IsSitting e.request → HasNext (next_tx past) e.opens → AreNumbered past → IsSteady old new → IsSeatAt catalog limits past count old n s → LeavesBut (acting_in (tx_in s.work) e.opens) old new → AreUnopened past count old → AreUnopened (Happened e ∷ past) count new }
{}

/// The joined sessions stay apart, and one that isn't joined has nothing.
pub fn stays_joined()
    ensures sits { (e : Event) (past : Run) (n seen : ℕ) → e.session ≡ n → IsSitting e.request → seat past n ≡ Some seen → AreJoined past → AreJoined (Happened e ∷ past) }
    ensures joins { (e : Event) (past : Run) → e.request ≡ requests.Join → Joins past e → AreJoined past → AreJoined (Happened e ∷ past) }
    ensures leaves { (e : Event) (past : Run) → e.request ≡ requests.Leave → AreJoined past → AreJoined (Happened e ∷ past) }
{}

/// A session that joins sits behind the others.
pub fn sits_down()
    ensures { (catalog : Catalog) (limits : Limits) (past : Run) (count : ℕ) (seen : Shards) (e : Event) (numbers : List ℕ) (seats : List ASeat) → e.request ≡ requests.Join → Joins past e → AreNumbered past → AreJoined past → AreSeated catalog limits past count seen numbers seats → AreSeated catalog limits (Happened e ∷ past) count seen (numbers ++ e.session ∷ []) (seats ++ (record { at = next_event (at past); auto = true; keyspace = None; work = works.Idle None }) ∷ []) }
{}

/// One that leaves is taken out.
pub fn stands_up()
    ensures { (catalog : Catalog) (limits : Limits) (past : Run) (count : ℕ) (old new : Shards) (e : Event) (numbers : List ℕ) (seats : List ASeat) (place n : ℕ) (s : ASeat) → e.session ≡ n → e.request ≡ requests.Leave → IsStill e → AreNumbered past → AreJoined past → IsSteady old new → AreSeated catalog limits past count old numbers seats → slice_get numbers place ≡ Some n → slice_get seats place ≡ Some s → LeavesBut (tx_in s.work) old new → AreSeated catalog limits (Happened e ∷ past) count new (remove numbers place) (remove seats place) }
{}
