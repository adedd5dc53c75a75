ghost use Rattle.std.specs.Prelude.{◌≡◌, ◌==◌, ◌≤◌, ◌<◌, ◌^◌, ◌∷◌, ℕ, Bool, true, false, List, [], length, Option, Some, None};
ghost use Rattle.vl_values.specs.declared.cause.Cause.{Cause};
ghost use Rattle.vl_values.specs.declared.group.Group.{Group};
ghost use Rattle.vl_values.specs.declared.key.Key.{Key};
ghost use Rattle.vl_values.specs.declared.pred.Pred.{Pred};
ghost use Rattle.vl_values.specs.declared.reply.Reply.TheVariants as replies;
ghost use Rattle.vl_values.specs.declared.reply_column.ReplyColumn.{ReplyColumn};
ghost use Rattle.vl_catalog.specs.declared.catalog.Catalog.{Catalog};
ghost use Rattle.vl_sql.specs.declared.stmt.Stmt.{Stmt};
ghost use Rattle.vl_port.specs.declared.act.Act.{Act};
ghost use Rattle.vl_port.specs.declared.answer.Answer.{Answer};
ghost use Rattle.vl_port.specs.declared.limits.Limits.{Limits};
ghost use Rattle.vl_port.specs.declared.tx_state.TxState.{TxState};
ghost use Rattle.vl_port.specs.declared.who.Who.{Who};
ghost use Rattle.vl_port.specs.Calls.{HasActed, PortView};
ghost use Rattle.vl_port.specs.Transaction.{listed};
ghost use Rattle.vl_port.specs.View.{Values};
ghost use Rattle.vl_model.specs.declared.route.Route.{Route};
ghost use Rattle.vl_model.specs.Entries.{is_lookup_table};
ghost use Rattle.vl_model.specs.Refusals.{refusals};
ghost use Rattle.vl_model.specs.Visiting.{visited};
ghost use Rattle.vl_plan.specs.declared.plan.Plan.{Plan};
ghost use Rattle.vl_plan.specs.declared.plan.Plan.TheVariants as plans;
ghost use Rattle.vl_plan.specs.declared.select_plan.SelectPlan.{SelectPlan};
ghost use Rattle.vl_plan.specs.Planned.{IsPlanned};
ghost use Rattle.vl_statement.specs.declared.program_told.ProgramTold.{ProgramTold};
ghost use Rattle.vl_statement.specs.declared.program_told.ProgramTold.TheVariants as tells;
ghost use Rattle.vl_change.specs.declared.row_change.RowChange.{RowChange};
ghost use Rattle.vl_change.specs.Begun.{is_direct, searching};
ghost use Rattle.vl_change.specs.Making.{IsMade as IsChangeMade};
ghost use Rattle.vl_change.specs.Progress.{Progress as ChangeProgress};
ghost use Rattle.vl_change.specs.Stepping.{Stepped as ChangeStepped};
ghost use Rattle.vl_select.specs.Begun.{begun};
ghost use Rattle.vl_select.specs.Making.{IsMade};
ghost use Rattle.vl_select.specs.Progress.{Progress};
ghost use Rattle.vl_select.specs.Stepping.{Stepped};
ghost use Rattle.vl_run.specs.declared.deed.Deed.{Deed};
ghost use Rattle.vl_run.specs.declared.deed.Deed.TheVariants as deeds;
ghost use Rattle.vl_run.specs.declared.event.Event.{Event};
ghost use Rattle.vl_run.specs.declared.request.Request.TheVariants as requests;
ghost use Rattle.vl_run.specs.declared.tag.Tag.TheVariants as tags;
ghost use Rattle.vl_run.specs.declared.what.What.{What};
ghost use Rattle.vl_run.specs.declared.what.What.TheVariants as whats;
ghost use Rattle.vl_run.specs.Allowed.{Allows, Answers, HasCommitted, IsDone, IsRun, gives_rows, now_of};
ghost use Rattle.vl_run.specs.Gathered.{Gathered, Looked, Rows};
ghost use Rattle.vl_run.specs.Machine.{Machine};
ghost use Rattle.vl_run.specs.Named.{sessions};
ghost use Rattle.vl_run.specs.Progress.{commits, session, warned};
ghost use Rattle.vl_run.specs.Run.{Run, next_tx};
ghost use Rattle.vl_run.specs.Run.Point.{Happened};
ghost use Rattle.vl_run.specs.Session.{IsTold, Owned, kind_of};
ghost use Rattle.vl_run.specs.Session.Kind.{Works};
ghost use Rattle.vl_course.specs.Answered.{AreMarked, IsAnswered, IsShown};
ghost use Rattle.vl_course.specs.Changing.{ChangeTurned, IsChangeAt, due_of as change_due, plan_of};
ghost use Rattle.vl_course.specs.Course.{AreNumbered, AreOwned, AreUnused, Course, HasNext, IsApart, IsBelow, IsOf, IsTx, IsUnused, opened_tx};
ghost use Rattle.vl_course.specs.Selecting.{IsSelectAt, SelectTurned, due_of};
ghost use Rattle.vl_course.specs.Turning.{Due, IsAtEnd, IsOfStmt, IsStep, Turned};

/// A run gives one list of the rows that a statement has read, and one of the entries.
pub fn one_reading()
    ensures rows { (catalog : Catalog) (past : Run) (n : ℕ) (rows others : Rows) → Gathered catalog past n rows → Gathered catalog past n others → rows ≡ others }
    ensures entries { (catalog : Catalog) (past : Run) (n : ℕ) (rows others : Rows) → Looked catalog past n rows → Looked catalog past n others → rows ≡ others }
{}

/// A statement that is asked to go on stands where it stood.
pub fn stands_still()
    ensures course { (catalog : Catalog) (limits : Limits) (e : Event) (past : Run) → e.request ≡ requests.Step → (stmt : Stmt) (plan : Plan) (own : Owned) (tx : TxState) (times : ℕ) (wrote : Bool) → Course catalog limits past e.session stmt plan own tx times wrote → Course catalog limits (now_of e past) e.session stmt plan own tx times wrote }
    ensures select { (catalog : Catalog) (limits : Limits) (e : Event) (past : Run) → e.request ≡ requests.Step → (plan : SelectPlan) (p : Progress) → IsSelectAt catalog limits past e.session plan p → IsSelectAt catalog limits (now_of e past) e.session plan p }
    ensures change { (catalog : Catalog) (limits : Limits) (e : Event) (past : Run) → e.request ≡ requests.Step → (change : RowChange) (pred : Pred) (route : Route) (p : ChangeProgress) → IsChangeAt catalog limits past e.session change pred route p → IsChangeAt catalog limits (now_of e past) e.session change pred route p }
{}

/// A statement that is said begins, in the transaction that is open or in one that it opens.
pub fn begins()
    ensures said { (catalog : Catalog) (limits : Limits) (e : Event) (past : Run) (stmt : Stmt) → e.request ≡ requests.Say stmt → (plan : Plan) (own : Owned) (tx : TxState) → refusals catalog stmt ≡ [] → IsPlanned catalog stmt plan → kind_of stmt ≡ Works → e.opens ≡ None → (session past e.session).owned ≡ Some own → tx.auto ≡ (session past e.session).auto → IsTx limits past e.session own tx → Course catalog limits (now_of e past) e.session stmt plan own tx 0 false }
    ensures opened { (catalog : Catalog) (limits : Limits) (e : Event) (past : Run) (stmt : Stmt) → e.request ≡ requests.Say stmt → (plan : Plan) (number : ℕ) → refusals catalog stmt ≡ [] → IsPlanned catalog stmt plan → kind_of stmt ≡ Works → (session past e.session).owned ≡ None → e.opens ≡ Some number → IsUnused past number → Course catalog limits (now_of e past) e.session stmt plan (record { number = number; single = (session past e.session).auto }) (opened_tx number e.session limits (session past e.session).auto) 0 false }
    ensures select { (catalog : Catalog) (limits : Limits) (e : Event) (past : Run) (stmt : Stmt) → e.request ≡ requests.Say stmt → (plan : SelectPlan) → IsSelectAt catalog limits (now_of e past) e.session plan (begun catalog plan) }
    ensures change { (catalog : Catalog) (limits : Limits) (e : Event) (past : Run) (stmt : Stmt) → e.request ≡ requests.Say stmt → (change : RowChange) (pred : Pred) (route : Route) → is_lookup_table catalog pred.table ≡ false → is_direct route ≡ true → IsChangeAt catalog limits (now_of e past) e.session change pred route (searching pred change (visited catalog pred.table route [])) }
{}

/// Each number of a transaction is given once and is one session's, and what a session does is of its own transaction.
pub fn are_numbered()
    ensures run { (catalog : Catalog) (limits : Limits) (past : Run) → IsRun catalog limits past → AreNumbered past }
    ensures event { (e : Event) (past : Run) → HasNext (next_tx past) e.opens → IsBelow e.deed (next_tx (Happened e ∷ past)) → AreNumbered past → AreNumbered (Happened e ∷ past) }
    ensures answer { (catalog : Catalog) (limits : Limits) (past : Run) (e : Event) (what : What) → AreNumbered past → Answers catalog limits past e what → AreNumbered (Happened e ∷ past) }
    ensures asked { (e : Event) (past : Run) → HasNext (next_tx past) e.opens → AreOwned past → AreOwned (now_of e past) }
    ensures own { (catalog : Catalog) (u : Machine) (now : Run) (n : ℕ) (stmt : Stmt) (owned : Option Owned) (own : Owned) (deed : Deed) → owned ≡ Some own → IsDone catalog u now n stmt owned deed → IsOf deed own.number }
    ensures other { (catalog : Catalog) (u : Machine) (now : Run) (n m : ℕ) (stmt : Stmt) (deed : Deed) (own : Owned) → AreOwned now → IsDone catalog u now n stmt (session now n).owned deed → (n == m) ≡ false → (session now m).owned ≡ Some own → IsApart deed own.number }
{}

/// The answer to an act says of its session what the run says of its kills. What it says of keys and rows is a premise.
pub fn is_answered()
    ensures { (catalog : Catalog) (past : Run) (old new : PortView) (who : Who) (shard : ℕ) (act : Act) (answer : Answer) → HasActed old who shard act answer new → AreMarked past who.tx old.shards → IsShown catalog past who shard act answer → IsAnswered catalog past who shard act answer }
{}

/// A step of a SELECT's program is an event that the run allows, and leaves the program where the run then says.
pub fn select_turns()
    ensures { (catalog : Catalog) (limits : Limits) (past : Run) (e : Event) (stmt : Stmt) (plan : SelectPlan) (own : Owned) (tx : TxState) (p : Progress) (count : ℕ) → Course catalog limits (now_of e past) e.session stmt (plans.Select plan) own tx p.tries false → IsSelectAt catalog limits (now_of e past) e.session plan p → IsMade catalog count limits.tries p → (port port_new : PortView) (told : ProgramTold) (new : Progress) (tx_new : TxState) → port.outcome ≡ None → Stepped catalog p tx port told new tx_new port_new → IsStep e stmt (due_of tx p) port_new.outcome told → ((due : Due) (answer : Answer) → due_of tx p ≡ Some due → HasActed port due.who due.shard due.act answer port_new → IsAnswered catalog past due.who due.shard due.act answer) → SelectTurned catalog limits past e stmt plan own told new tx_new }
{}

/// So is a step of the program of an UPDATE or a DELETE.
pub fn change_turns()
    ensures { (catalog : Catalog) (limits : Limits) (past : Run) (e : Event) (stmt : Stmt) (change : RowChange) (pred : Pred) (route : Route) (own : Owned) (tx : TxState) (p : ChangeProgress) (count : ℕ) → Course catalog limits (now_of e past) e.session stmt (plan_of change pred route) own tx p.tries p.wrote → IsChangeAt catalog limits (now_of e past) e.session change pred route p → IsChangeMade catalog count limits.tries p → limits.changes < 2 ^ 32 → (port port_new : PortView) (told : ProgramTold) (new : ChangeProgress) (tx_new : TxState) → port.outcome ≡ None → ChangeStepped catalog p tx port told new tx_new port_new → IsStep e stmt (change_due tx p) port_new.outcome told → ((due : Due) (answer : Answer) → change_due tx p ≡ Some due → HasActed port due.who due.shard due.act answer port_new → IsAnswered catalog past due.who due.shard due.act answer) → ChangeTurned catalog limits past e stmt change pred route own told new tx_new }
{}

/// What a step may tell is what the run allows; at its end where no commit is left, and to go on where one is.
pub fn may_be_told()
    ensures more { (catalog : Catalog) (limits : Limits) (past : Run) (e : Event) (stmt : Stmt) (plan : Plan) (own : Owned) → IsPlanned catalog stmt plan → kind_of stmt ≡ Works → (session (now_of e past) e.session).owned ≡ Some own → Turned catalog limits past e stmt plan own tells.More → Allows catalog limits past e e.session stmt (session (now_of e past) e.session) whats.More }
    ensures held { (catalog : Catalog) (limits : Limits) (past : Run) (e : Event) (stmt : Stmt) (plan : Plan) (own : Owned) → IsPlanned catalog stmt plan → kind_of stmt ≡ Works → (session (now_of e past) e.session).owned ≡ Some own → (by : ℕ) (key : Key) (times : ℕ) → Turned catalog limits past e stmt plan own (tells.Held by key times) → Allows catalog limits past e e.session stmt (session (now_of e past) e.session) (whats.Held by key times) }
    ensures refusal { (catalog : Catalog) (limits : Limits) (past : Run) (e : Event) (stmt : Stmt) (plan : Plan) (own : Owned) → IsPlanned catalog stmt plan → kind_of stmt ≡ Works → (session (now_of e past) e.session).owned ≡ Some own → (code : ℕ) (why : Cause) (stays : Bool) → commits (Happened e ∷ past) e.session ≡ 0 → Turned catalog limits past e stmt plan own (tells.Reply (replies.Err code why stays)) → Allows catalog limits past e e.session stmt (session (now_of e past) e.session) (whats.Reply (replies.Err code why stays)) }
    ensures rows { (catalog : Catalog) (limits : Limits) (past : Run) (e : Event) (stmt : Stmt) (plan : Plan) (own : Owned) → IsPlanned catalog stmt plan → kind_of stmt ≡ Works → (session (now_of e past) e.session).owned ≡ Some own → (columns : List ReplyColumn) (rows : List Values) (stays on : Bool) → Turned catalog limits past e stmt plan own (tells.Reply (replies.Rows columns rows stays on)) → HasCommitted (Happened e ∷ past) e.session own.single (Some own) → Allows catalog limits past e e.session stmt (session (now_of e past) e.session) (whats.Reply (replies.Rows columns rows stays on)) }
    ensures ok { (catalog : Catalog) (limits : Limits) (past : Run) (e : Event) (stmt : Stmt) (plan : Plan) (own : Owned) → IsPlanned catalog stmt plan → kind_of stmt ≡ Works → (session (now_of e past) e.session).owned ≡ Some own → (affected found warnings : ℕ) (stays on : Bool) → Turned catalog limits past e stmt plan own (tells.Reply (replies.Ok affected found warnings stays on)) → HasCommitted (Happened e ∷ past) e.session own.single (Some own) → gives_rows stmt ≡ false → warned catalog (Happened e ∷ past) e.session ≡ [] → Allows catalog limits past e e.session stmt (session (now_of e past) e.session) (whats.Reply (replies.Ok affected found warnings stays on)) }
    ensures commit { (catalog : Catalog) (limits : Limits) (past : Run) (e : Event) (stmt : Stmt) (plan : Plan) (own : Owned) → IsPlanned catalog stmt plan → kind_of stmt ≡ Works → (session (now_of e past) e.session).owned ≡ Some own → (stays on : Bool) → IsAtEnd catalog limits past e stmt plan own stays on → own.single ≡ true → commits (Happened e ∷ past) e.session ≡ 0 → 0 < length (sessions (Happened e ∷ past) own.number) → Allows catalog limits past e e.session stmt (session (now_of e past) e.session) whats.More }
    ensures kept { (after : Run) (n : ℕ) (own : Owned) → own.single ≡ false → commits after n ≡ 0 → HasCommitted after n own.single (Some own) }
    ensures empty { (limits : Limits) (after : Run) (n : ℕ) (own : Owned) (tx : TxState) → IsTx limits after n own tx → ((group : Group) → listed tx group ≡ []) → commits after n ≡ 0 → HasCommitted after n own.single (Some own) }
{}

/// A reply tells truly whether a transaction stays open behind the statement, and whether autocommit is on.
pub fn tells_truly()
    ensures refusal { (past : Run) (e : Event) (stmt : Stmt) (own : Owned) → IsOfStmt e.request stmt → (session (now_of e past) e.session).doing ≡ Some stmt → (session (now_of e past) e.session).owned ≡ Some own → (code : ℕ) (stays : Bool) → e.told ≡ tags.Err code stays → IsTold e.told (session (Happened e ∷ past) e.session) }
    ensures rows { (catalog : Catalog) (limits : Limits) (past : Run) (e : Event) (stmt : Stmt) (plan : Plan) (own : Owned) → IsOfStmt e.request stmt → kind_of stmt ≡ Works → (session (now_of e past) e.session).doing ≡ Some stmt → (session (now_of e past) e.session).owned ≡ Some own → (stays on : Bool) → IsAtEnd catalog limits past e stmt plan own stays on → e.told ≡ tags.Rows stays on → IsTold e.told (session (Happened e ∷ past) e.session) }
    ensures ok { (catalog : Catalog) (limits : Limits) (past : Run) (e : Event) (stmt : Stmt) (plan : Plan) (own : Owned) → IsOfStmt e.request stmt → kind_of stmt ≡ Works → (session (now_of e past) e.session).doing ≡ Some stmt → (session (now_of e past) e.session).owned ≡ Some own → (affected found warnings : ℕ) (stays on : Bool) → IsAtEnd catalog limits past e stmt plan own stays on → e.told ≡ tags.Ok affected found warnings stays on → IsTold e.told (session (Happened e ∷ past) e.session) }
{}

/// An event of another session, and a kill of one of its own shard sessions, leave a statement where it stood.
pub fn stands_aside()
    ensures course { (catalog : Catalog) (limits : Limits) (e : Event) (past : Run) (n : ℕ) → (e.session == n) ≡ false → (stmt : Stmt) (plan : Plan) (own : Owned) (tx : TxState) (times : ℕ) (wrote : Bool) → IsApart e.deed own.number → Course catalog limits past n stmt plan own tx times wrote → Course catalog limits (Happened e ∷ past) n stmt plan own tx times wrote }
    ensures select { (catalog : Catalog) (limits : Limits) (e : Event) (past : Run) (n : ℕ) → (e.session == n) ≡ false → (plan : SelectPlan) (p : Progress) → IsSelectAt catalog limits past n plan p → IsSelectAt catalog limits (Happened e ∷ past) n plan p }
    ensures course_killed { (catalog : Catalog) (limits : Limits) (e : Event) (past : Run) (who : Who) (shard : ℕ) → e.request ≡ requests.Kill who shard → e.deed ≡ deeds.Nothing → e.told ≡ tags.Nothing → (stmt : Stmt) (plan : Plan) (own : Owned) (tx : TxState) (times : ℕ) (wrote : Bool) → Course catalog limits past e.session stmt plan own tx times wrote → Course catalog limits (Happened e ∷ past) e.session stmt plan own tx times wrote }
    ensures select_killed { (catalog : Catalog) (limits : Limits) (e : Event) (past : Run) (who : Who) (shard : ℕ) → e.request ≡ requests.Kill who shard → e.deed ≡ deeds.Nothing → e.told ≡ tags.Nothing → (plan : SelectPlan) (p : Progress) → IsSelectAt catalog limits past e.session plan p → IsSelectAt catalog limits (Happened e ∷ past) e.session plan p }
    ensures change { (catalog : Catalog) (limits : Limits) (e : Event) (past : Run) (n : ℕ) → (e.session == n) ≡ false → (change : RowChange) (pred : Pred) (route : Route) (p : ChangeProgress) → IsChangeAt catalog limits past n change pred route p → IsChangeAt catalog limits (Happened e ∷ past) n change pred route p }
    ensures change_killed { (catalog : Catalog) (limits : Limits) (e : Event) (past : Run) (who : Who) (shard : ℕ) → e.request ≡ requests.Kill who shard → e.deed ≡ deeds.Nothing → e.told ≡ tags.Nothing → (change : RowChange) (pred : Pred) (route : Route) (p : ChangeProgress) → IsChangeAt catalog limits past e.session change pred route p → IsChangeAt catalog limits (Happened e ∷ past) e.session change pred route p }
    ensures tx { (limits : Limits) (e : Event) (past : Run) (n : ℕ) (own : Owned) (tx : TxState) → IsApart e.deed own.number → IsTx limits past n own tx → IsTx limits (Happened e ∷ past) n own tx }
    ensures unused { (e : Event) (past : Run) → next_tx past ≤ next_tx (Happened e ∷ past) → IsBelow e.deed (next_tx (Happened e ∷ past)) → AreUnused past → AreUnused (Happened e ∷ past) }
{}
