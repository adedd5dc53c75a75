ghost use Rattle.std.specs.Prelude.{◌≡◌, ◌==◌, ◌<◌, ◌^◌, ◌∷◌, ℕ, false, Some, None};
ghost use Rattle.vl_catalog.specs.declared.catalog.Catalog.{Catalog};
ghost use Rattle.vl_rules.specs.Order.{Checked};
ghost use Rattle.vl_port.specs.declared.act.Act.{Act};
ghost use Rattle.vl_port.specs.declared.answer.Answer.{Answer};
ghost use Rattle.vl_port.specs.declared.limits.Limits.{Limits};
ghost use Rattle.vl_port.specs.declared.tx_state.TxState.{TxState};
ghost use Rattle.vl_port.specs.declared.who.Who.{Who};
ghost use Rattle.vl_port.specs.Calls.{HasActed, PortView};
ghost use Rattle.vl_plan.specs.declared.insert_plan.InsertPlan.{InsertPlan};
ghost use Rattle.vl_plan.specs.declared.plan.Plan.TheVariants as plans;
ghost use Rattle.vl_sql.specs.declared.stmt.Stmt.{Stmt};
ghost use Rattle.vl_statement.specs.declared.program_told.ProgramTold.{ProgramTold};
ghost use Rattle.vl_insert.specs.Begun.{IsBegun};
ghost use Rattle.vl_insert.specs.Making.{IsMade};
ghost use Rattle.vl_insert.specs.Progress.{Progress};
ghost use Rattle.vl_insert.specs.Stepping.{Stepped};
ghost use Rattle.vl_run.specs.declared.deed.Deed.TheVariants as deeds;
ghost use Rattle.vl_run.specs.declared.event.Event.{Event};
ghost use Rattle.vl_run.specs.declared.request.Request.TheVariants as requests;
ghost use Rattle.vl_run.specs.Allowed.{now_of};
ghost use Rattle.vl_run.specs.Run.{Run};
ghost use Rattle.vl_run.specs.Run.Point.{Happened};
ghost use Rattle.vl_run.specs.Session.{Owned};
ghost use Rattle.vl_replay.specs.Calls.{ActsOn};
ghost use Rattle.vl_replay.specs.Showing.{Shows};
ghost use Rattle.vl_course.specs.Answered.{IsAnswered};
ghost use Rattle.vl_course.specs.Course.{Course};
ghost use Rattle.vl_course.specs.Turning.{Due, IsStep};
ghost use Rattle.vl_course_insert.specs.Inserting.{InsertTurned, IsFoundAs, IsInsertAt, due_of};

/// An INSERT that is said stands at its beginning.
pub fn begins()
    ensures { (catalog : Catalog) (limits : Limits) (e : Event) (past : Run) (stmt : Stmt) → e.request ≡ requests.Say stmt → (plan : InsertPlan) (p : Progress) → IsBegun catalog plan p → IsInsertAt catalog limits (now_of e past) e.session plan p }
{}

/// One that is asked to go on stands where it stood.
pub fn stands_still()
    ensures { (catalog : Catalog) (limits : Limits) (e : Event) (past : Run) → e.request ≡ requests.Step → (plan : InsertPlan) (p : Progress) → IsInsertAt catalog limits past e.session plan p → IsInsertAt catalog limits (now_of e past) e.session plan p }
{}

/// An event of another session, and a kill of one of its own shard sessions, leave it where it stood.
pub fn stands_aside()
    ensures other { (catalog : Catalog) (limits : Limits) (e : Event) (past : Run) (n : ℕ) → (e.session == n) ≡ false → (plan : InsertPlan) (p : Progress) → IsInsertAt catalog limits past n plan p → IsInsertAt catalog limits (Happened e ∷ past) n plan p }
    ensures killed { (catalog : Catalog) (limits : Limits) (e : Event) (past : Run) (who : Who) (shard : ℕ) → e.request ≡ requests.Kill who shard → e.deed ≡ deeds.Nothing → (plan : InsertPlan) (p : Progress) → IsInsertAt catalog limits past e.session plan p → IsInsertAt catalog limits (Happened e ∷ past) e.session plan p }
{}

/// A step of its program is an event that the run allows, and leaves the program where the run then says.
pub fn insert_turns()
    ensures { (catalog : Catalog) (limits : Limits) (past : Run) (e : Event) (stmt : Stmt) (plan : InsertPlan) (own : Owned) (tx : TxState) (p : Progress) (count : ℕ) → Checked catalog → Course catalog limits (now_of e past) e.session stmt (plans.Insert plan) own tx p.tries p.wrote → IsInsertAt catalog limits (now_of e past) e.session plan p → IsMade catalog count limits.tries p → limits.changes < 2 ^ 32 → (port port_new : PortView) (told : ProgramTold) (new : Progress) (tx_new : TxState) → port.outcome ≡ None → Stepped catalog p tx port told new tx_new port_new → IsStep e stmt (due_of tx p) port_new.outcome told → ((due : Due) (answer : Answer) → due_of tx p ≡ Some due → HasActed port due.who due.shard due.act answer port_new → IsAnswered catalog past due.who due.shard due.act answer) → ((due : Due) (answer : Answer) → due_of tx p ≡ Some due → HasActed port due.who due.shard due.act answer port_new → IsFoundAs catalog past due.who due.act answer) → InsertTurned catalog limits past e stmt plan own told new tx_new }
{}

/// What the port answers to an Insert is what the one table and the entries say of its key before the event.
pub fn is_found()
    ensures { (catalog : Catalog) (past : Run) (count : ℕ) (old new : PortView) (who : Who) (shard : ℕ) (act : Act) (answer : Answer) → Shows catalog past count old.shards → ActsOn catalog count old who shard act answer new → IsFoundAs catalog past who act answer }
{}
