ghost use Rattle.std.specs.Prelude.{◌≡◌, ◌==◌, ◌<◌, ◌^◌, ◌⊎◌, ◌∷◌, ℕ, true, false, [], Some, None};
ghost use Rattle.vl_catalog.specs.declared.catalog.Catalog.{Catalog};
ghost use Rattle.vl_rules.specs.Order.{Checked};
ghost use Rattle.vl_port.specs.declared.answer.Answer.{Answer};
ghost use Rattle.vl_port.specs.declared.limits.Limits.{Limits};
ghost use Rattle.vl_port.specs.declared.tx_state.TxState.{TxState};
ghost use Rattle.vl_port.specs.declared.who.Who.{Who};
ghost use Rattle.vl_port.specs.Calls.{HasActed, PortView};
ghost use Rattle.vl_port.specs.Transaction.{IsIn};
ghost use Rattle.vl_plan.specs.declared.plan.Plan.{Plan};
ghost use Rattle.vl_plan.specs.Fits.{Fits};
ghost use Rattle.vl_sql.specs.declared.stmt.Stmt.{Stmt};
ghost use Rattle.vl_statement.specs.declared.program_told.ProgramTold.{ProgramTold};
ghost use Rattle.vl_exec.specs.declared.program.Program.{Program};
ghost use Rattle.vl_exec.specs.Begun.{IsBegun, can_run};
ghost use Rattle.vl_exec.specs.Making.{IsMade};
ghost use Rattle.vl_exec.specs.Progress.{wrote};
ghost use Rattle.vl_exec.specs.Stepping.{Stepped};
ghost use Rattle.vl_run.specs.declared.deed.Deed.TheVariants as deeds;
ghost use Rattle.vl_run.specs.declared.event.Event.{Event};
ghost use Rattle.vl_run.specs.declared.request.Request.TheVariants as requests;
ghost use Rattle.vl_run.specs.declared.tag.Tag.TheVariants as tags;
ghost use Rattle.vl_run.specs.Allowed.{now_of};
ghost use Rattle.vl_run.specs.Run.{Run};
ghost use Rattle.vl_run.specs.Run.Point.{Happened};
ghost use Rattle.vl_run.specs.Session.{Owned};
ghost use Rattle.vl_replay.specs.Showing.{IsOwned, Shows};
ghost use Rattle.vl_course.specs.Answered.{AreMarked, IsAnswered};
ghost use Rattle.vl_course.specs.Course.{Course};
ghost use Rattle.vl_course.specs.Turning.{Due, IsStep};
ghost use Rattle.vl_course_insert.specs.Inserting.{IsFoundAs};
ghost use Rattle.vl_course_program.specs.Fitting.{IsDueFit};
ghost use Rattle.vl_course_program.specs.Programs.{HasDone, IsProgramAt, ProgramTurned, due_of, tries_of};

/// A statement that is said stands at its beginning.
pub fn begins()
    ensures { (catalog : Catalog) (limits : Limits) (e : Event) (past : Run) (stmt : Stmt) → e.request ≡ requests.Say stmt → (plan : Plan) (program : Program) → Fits catalog plan → can_run catalog plan ≡ true → IsBegun catalog plan program → IsProgramAt catalog limits (now_of e past) e.session plan program }
{}

/// One that is asked to go on stands where it stood.
pub fn stands_still()
    ensures { (catalog : Catalog) (limits : Limits) (e : Event) (past : Run) → e.request ≡ requests.Step → (plan : Plan) (program : Program) → IsProgramAt catalog limits past e.session plan program → IsProgramAt catalog limits (now_of e past) e.session plan program }
{}

/// An event of another session, and a kill of one of its own shard sessions, leave it where it stood.
pub fn stands_aside()
    ensures other { (catalog : Catalog) (limits : Limits) (e : Event) (past : Run) (n : ℕ) → (e.session == n) ≡ false → (plan : Plan) (program : Program) → IsProgramAt catalog limits past n plan program → IsProgramAt catalog limits (Happened e ∷ past) n plan program }
    ensures killed { (catalog : Catalog) (limits : Limits) (e : Event) (past : Run) (who : Who) (shard : ℕ) → e.request ≡ requests.Kill who shard → e.deed ≡ deeds.Nothing → e.told ≡ tags.Nothing → (plan : Plan) (program : Program) → IsProgramAt catalog limits past e.session plan program → IsProgramAt catalog limits (Happened e ∷ past) e.session plan program }
{}

/// The act that is due of a program fits its shard and is in its lane.
pub fn fits()
    ensures { (catalog : Catalog) (limits : Limits) (now : Run) (n count tries : ℕ) (plan : Plan) (tx : TxState) (program : Program) → Checked catalog → IsProgramAt catalog limits now n plan program → IsMade catalog count tries program → (due : Due) → due_of tx program ≡ Some due → IsDueFit catalog count tx due }
{}

/// What the port answers to such an act is what the run says of its session, its keys and its rows.
pub fn is_answered()
    ensures { (catalog : Catalog) (past : Run) (count : ℕ) (tx : TxState) (old new : PortView) (due : Due) (answer : Answer) → Shows catalog past count old.shards → IsOwned tx.number tx.session count old.shards → IsIn tx count old.shards → tx.post ≡ [] → AreMarked past tx.number old.shards → IsDueFit catalog count tx due → HasActed old due.who due.shard due.act answer new → IsAnswered catalog past due.who due.shard due.act answer × IsFoundAs catalog past due.who due.act answer }
{}

/// A step did the act that was due, or none: then the port is as it was.
pub fn acts_once()
    ensures { (catalog : Catalog) (limits : Limits) (now : Run) (n count tries : ℕ) (plan : Plan) (tx tx_new : TxState) (program new : Program) (port port_new : PortView) (tells : ProgramTold) → IsProgramAt catalog limits now n plan program → IsMade catalog count tries program → Stepped catalog program tx port tells new tx_new port_new → (port_new ≡ port) ⊎ HasDone port (due_of tx program) port_new }
{}

/// A step is an event that the run allows, and leaves the program where the run then says.
pub fn turns()
    ensures { (catalog : Catalog) (limits : Limits) (past : Run) (e : Event) (stmt : Stmt) (plan : Plan) (own : Owned) (tx : TxState) (program : Program) (count : ℕ) → Checked catalog → Course catalog limits (now_of e past) e.session stmt plan own tx (tries_of program) (wrote program) → IsProgramAt catalog limits (now_of e past) e.session plan program → IsMade catalog count limits.tries program → limits.changes < 2 ^ 32 → (port port_new : PortView) (tells : ProgramTold) (new : Program) (tx_new : TxState) → port.outcome ≡ None → Stepped catalog program tx port tells new tx_new port_new → IsStep e stmt (due_of tx program) port_new.outcome tells → ((due : Due) (answer : Answer) → due_of tx program ≡ Some due → HasActed port due.who due.shard due.act answer port_new → IsAnswered catalog past due.who due.shard due.act answer × IsFoundAs catalog past due.who due.act answer) → ProgramTurned catalog limits past e stmt plan own tells new tx_new }
{}
