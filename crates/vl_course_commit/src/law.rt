ghost use Rattle.std.specs.Prelude.{◌≡◌, ◌==◌, ◌∷◌, ℕ, Bool, true, false, List, [], Option, Some, None};
ghost use Rattle.std.specs.Option.{is_some};
ghost use Rattle.vl_values.specs.declared.reply.Reply.{Reply};
ghost use Rattle.vl_values.specs.declared.reply.Reply.TheVariants as replies;
ghost use Rattle.vl_values.specs.declared.reply_column.ReplyColumn.{ReplyColumn};
ghost use Rattle.vl_catalog.specs.declared.catalog.Catalog.{Catalog};
ghost use Rattle.vl_sql.specs.declared.stmt.Stmt.{Stmt};
ghost use Rattle.vl_port.specs.declared.committed.Committed.{Committed};
ghost use Rattle.vl_port.specs.declared.limits.Limits.{Limits};
ghost use Rattle.vl_port.specs.declared.tx_state.TxState.{TxState};
ghost use Rattle.vl_port.specs.declared.who.Who.{Who};
ghost use Rattle.vl_port.specs.Calls.{HasCommitted, PortView};
ghost use Rattle.vl_port.specs.Life.{loss_of};
ghost use Rattle.vl_port.specs.Serving.{Shards};
ghost use Rattle.vl_port.specs.Transaction.{session_of};
ghost use Rattle.vl_port.specs.View.{Values};
ghost use Rattle.vl_plan.specs.declared.plan.Plan.{Plan};
ghost use Rattle.vl_plan.specs.Planned.{IsPlanned};
ghost use Rattle.vl_statement.specs.declared.program_told.ProgramTold.TheVariants as tells;
ghost use Rattle.vl_commit.specs.declared.commit_told.CommitTold.{CommitTold};
ghost use Rattle.vl_commit.specs.Sessions.{HasNothingLeft, Session as ShardSession};
ghost use Rattle.vl_commit.specs.Stepping.{CommitStepped, Committing, DealsWith, due};
ghost use Rattle.vl_run.specs.declared.deed.Deed.TheVariants as deeds;
ghost use Rattle.vl_run.specs.declared.event.Event.{Event};
ghost use Rattle.vl_run.specs.declared.request.Request.TheVariants as requests;
ghost use Rattle.vl_run.specs.declared.tag.Tag.TheVariants as tags;
ghost use Rattle.vl_run.specs.Allowed.{HasNothing, Opens, failed_one, gives_rows, is_ok, now_of};
ghost use Rattle.vl_run.specs.Progress.{commits, session, warned};
ghost use Rattle.vl_run.specs.Replays.{Replays};
ghost use Rattle.vl_run.specs.Run.{Run, state};
ghost use Rattle.vl_run.specs.Run.Point.{Happened};
ghost use Rattle.vl_run.specs.Session.{IsTold, Owned, auto_done, is_committing, kind_of, owned_done};
ghost use Rattle.vl_run.specs.Session.Kind.{Begins, Works};
ghost use Rattle.vl_replay.specs.Ending.{committed_deed, committed_ends, was_done};
ghost use Rattle.vl_replay.specs.Showing.{IsWhole};
ghost use Rattle.vl_course.specs.Answered.{IsMarkedAs};
ghost use Rattle.vl_course.specs.Course.{Course, IsApart, IsTx};
ghost use Rattle.vl_course.specs.Turning.{IsAtEnd, IsOfStmt, MayTell};
ghost use Rattle.vl_course_commit.specs.Committing.{IsCommitAt, IsReplyOf};
ghost use Rattle.vl_course_commit.specs.Dealing.{CommitTurned, IsCommitStep, IsDealt};

/// A step of a commit is an event that the run allows, and leaves the commit where the run then says.
pub fn commit_turns()
    ensures { (catalog : Catalog) (limits : Limits) (past : Run) (e : Event) (stmt : Stmt) (plan : Plan) (own : Owned) (c : Committing) → IsCommitAt catalog limits (now_of e past) e.session stmt plan own c → (port port_new : PortView) (told : CommitTold) (new : Committing) (done : Bool) → CommitStepped c port told new port_new → IsCommitStep catalog e stmt c done told new → ((it : ShardSession) (outcome : Committed) (between : PortView) → due c ≡ Some it → HasCommitted port (session_of c.tx it.0) it.1 outcome between → DealsWith outcome c it between told new port_new → IsDealt past (session_of c.tx it.0) it.1 done outcome) → CommitTurned catalog limits past e stmt plan own told new }
{}

/// A commit begins at the end of a statement that is a transaction of its own, and where COMMIT, BEGIN or
/// SET autocommit=1 is said in an open transaction.
pub fn commit_begins()
    ensures ended { (catalog : Catalog) (limits : Limits) (past : Run) (e : Event) (stmt : Stmt) (plan : Plan) (own : Owned) (before tx : TxState) (times : ℕ) (wrote stays on : Bool) → IsOfStmt e.request stmt → e.told ≡ tags.More → kind_of stmt ≡ Works → own.single ≡ true → Course catalog limits (now_of e past) e.session stmt plan own before times wrote → IsAtEnd catalog limits past e stmt plan own stays on → IsTx limits (Happened e ∷ past) e.session own tx → commits (Happened e ∷ past) e.session ≡ 0 → warned catalog (Happened e ∷ past) e.session ≡ [] → IsCommitAt catalog limits (Happened e ∷ past) e.session stmt plan own (record { tx = tx; at = 0; warnings = [] }) }
    ensures said { (catalog : Catalog) (limits : Limits) (past : Run) (e : Event) (stmt : Stmt) (plan : Plan) (own : Owned) (tx : TxState) → e.request ≡ requests.Say stmt → IsPlanned catalog stmt plan → (kind_of stmt ≡ Works → ⊥) → is_committing (kind_of stmt) (Some own) ≡ true → (session past e.session).owned ≡ Some own → IsTx limits past e.session own tx → IsCommitAt catalog limits (now_of e past) e.session stmt plan own (record { tx = tx; at = 0; warnings = [] }) }
    ensures counts { (catalog : Catalog) (limits : Limits) (past : Run) (e : Event) (stmt : Stmt) (plan : Plan) (own : Owned) (affected found warnings : ℕ) (stays on : Bool) → gives_rows stmt ≡ false → MayTell catalog limits past e stmt plan own (tells.Reply (replies.Ok affected found warnings stays on)) → IsReplyOf catalog (Happened e ∷ past) e.session stmt plan (replies.Ok affected found warnings stays on) }
    ensures rows { (catalog : Catalog) (limits : Limits) (past : Run) (e : Event) (stmt : Stmt) (plan : Plan) (own : Owned) (columns : List ReplyColumn) (rows : List Values) (stays on : Bool) → kind_of stmt ≡ Works → MayTell catalog limits past e stmt plan own (tells.Reply (replies.Rows columns rows stays on)) → IsReplyOf catalog (Happened e ∷ past) e.session stmt plan (replies.Rows columns rows stays on) }
    ensures none { (catalog : Catalog) (past : Run) (e : Event) (stmt : Stmt) (plan : Plan) (own : Owned) → e.request ≡ requests.Say stmt → IsPlanned catalog stmt plan → (kind_of stmt ≡ Works → ⊥) → is_committing (kind_of stmt) (Some own) ≡ true → IsReplyOf catalog (now_of e past) e.session stmt plan (replies.Ok 0 0 0 false true) }
{}

/// A commit that is asked to go on stands where it stood.
pub fn stands_still()
    ensures commit { (catalog : Catalog) (limits : Limits) (e : Event) (past : Run) → e.request ≡ requests.Step → (stmt : Stmt) (plan : Plan) (own : Owned) (c : Committing) → IsCommitAt catalog limits past e.session stmt plan own c → IsCommitAt catalog limits (now_of e past) e.session stmt plan own c }
    ensures reply { (catalog : Catalog) (e : Event) (past : Run) → e.request ≡ requests.Step → (stmt : Stmt) (plan : Plan) (reply : Reply) → IsReplyOf catalog past e.session stmt plan reply → IsReplyOf catalog (now_of e past) e.session stmt plan reply }
{}

/// An event of another session, and a kill of one of its own shard sessions, leave a commit where it stood.
pub fn stands_aside()
    ensures commit { (catalog : Catalog) (limits : Limits) (e : Event) (past : Run) (n : ℕ) → (e.session == n) ≡ false → (stmt : Stmt) (plan : Plan) (own : Owned) (c : Committing) → IsApart e.deed own.number → IsCommitAt catalog limits past n stmt plan own c → IsCommitAt catalog limits (Happened e ∷ past) n stmt plan own c }
    ensures reply { (catalog : Catalog) (e : Event) (past : Run) (n : ℕ) → (e.session == n) ≡ false → (stmt : Stmt) (plan : Plan) (reply : Reply) → IsReplyOf catalog past n stmt plan reply → IsReplyOf catalog (Happened e ∷ past) n stmt plan reply }
    ensures commit_killed { (catalog : Catalog) (limits : Limits) (e : Event) (past : Run) (who : Who) (shard : ℕ) → e.request ≡ requests.Kill who shard → e.deed ≡ deeds.Nothing → e.told ≡ tags.Nothing → (stmt : Stmt) (plan : Plan) (own : Owned) (c : Committing) → IsCommitAt catalog limits past e.session stmt plan own c → IsCommitAt catalog limits (Happened e ∷ past) e.session stmt plan own c }
    ensures reply_killed { (catalog : Catalog) (e : Event) (past : Run) (who : Who) (shard : ℕ) → e.request ≡ requests.Kill who shard → e.deed ≡ deeds.Nothing → e.told ≡ tags.Nothing → (stmt : Stmt) (plan : Plan) (reply : Reply) → IsReplyOf catalog past e.session stmt plan reply → IsReplyOf catalog (Happened e ∷ past) e.session stmt plan reply }
{}

/// What the port's outcome of a commit says of the run, and which session ends with it.
pub fn is_dealt()
    ensures outcome { (past : Run) (old new : PortView) (who : Who) (shard : ℕ) (outcome : Committed) → HasCommitted old who shard outcome new → IsMarkedAs past who shard (loss_of (old.shards shard) who) → IsDealt past who shard (was_done new.way (loss_of (old.shards shard) who)) outcome }
    ensures ends { (done : Bool) (who : Who) (shard : ℕ) → failed_one (committed_deed done who shard) ≡ committed_ends done who shard }
{}

/// A reply at the end of a commit tells truly whether a transaction is open then, and whether autocommit is on.
pub fn tells_truly()
    ensures ok { (past : Run) (e : Event) (stmt : Stmt) (own : Owned) → IsOfStmt e.request stmt → (session (now_of e past) e.session).doing ≡ Some stmt → (session (now_of e past) e.session).owned ≡ Some own → (affected found warnings : ℕ) (tx auto : Bool) → e.told ≡ tags.Ok affected found warnings tx auto → tx ≡ is_some (owned_done (kind_of stmt) (Some own) e.opens) → auto ≡ auto_done (kind_of stmt) (session (now_of e past) e.session).auto → IsTold e.told (session (Happened e ∷ past) e.session) }
    ensures rows { (past : Run) (e : Event) (stmt : Stmt) (own : Owned) → IsOfStmt e.request stmt → (session (now_of e past) e.session).doing ≡ Some stmt → (session (now_of e past) e.session).owned ≡ Some own → (tx auto : Bool) → e.told ≡ tags.Rows tx auto → tx ≡ is_some (owned_done (kind_of stmt) (Some own) e.opens) → auto ≡ auto_done (kind_of stmt) (session (now_of e past) e.session).auto → IsTold e.told (session (Happened e ∷ past) e.session) }
    ensures refusal { (past : Run) (e : Event) (stmt : Stmt) (own : Owned) → IsOfStmt e.request stmt → (session (now_of e past) e.session).doing ≡ Some stmt → (session (now_of e past) e.session).owned ≡ Some own → (code : ℕ) → e.told ≡ tags.Err code false → IsTold e.told (session (Happened e ∷ past) e.session) }
{}

/// While a commit goes on no transaction opens; a BEGIN opens one with its reply.
pub fn opens_none()
    ensures { (past : Run) (e : Event) (stmt : Stmt) (own : Owned) → (session past e.session).owned ≡ Some own → (kind_of stmt ≡ Begins → is_ok e.told ≡ false) → Opens past e stmt (session past e.session).owned None }
{}

/// Where the shards have nothing left of a transaction, the one table has nothing of it.
pub fn leaves_nothing()
    ensures { (catalog : Catalog) (past : Run) (tx : TxState) (count : ℕ) (seen : Shards) → Replays catalog past seen → IsWhole catalog tx count seen → HasNothingLeft tx count seen → HasNothing (state catalog past) tx.number }
{}
