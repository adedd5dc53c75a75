ghost use Rattle.std.specs.Prelude.{◌≡◌, ◌∷◌, ℕ, length, None};
ghost use Rattle.vl_catalog.specs.declared.catalog.Catalog.{Catalog};
ghost use Rattle.vl_port.specs.declared.tx_state.TxState.{TxState};
ghost use Rattle.vl_port.specs.Calls.{PortView};
ghost use Rattle.vl_statement.specs.declared.program_told.ProgramTold.{ProgramTold};
ghost use Rattle.vl_commit.specs.Closing.{AreClosed};
ghost use Rattle.vl_commit.specs.Sessions.{AreLeft, sessions};
ghost use Rattle.vl_exec.specs.declared.program.Program.{Program};
ghost use Rattle.vl_exec.specs.Stepping.{Stepped};
ghost use Rattle.vl_sql.specs.declared.stmt.Stmt.{Stmt};
ghost use Rattle.vl_run.specs.declared.ends.Ends.TheVariants as ends;
ghost use Rattle.vl_run.specs.declared.event.Event.{Event};
ghost use Rattle.vl_run.specs.Deeds.{steps_of};
ghost use Rattle.vl_run.specs.Machine.{CanStepAll};
ghost use Rattle.vl_run.specs.Run.{Run, cells, is_broken, state};
ghost use Rattle.vl_run.specs.Run.Point.{Happened};
ghost use Rattle.vl_replay.specs.Showing.{IsOwned, Shows};
ghost use Rattle.vl_course.specs.Answered.{AreMarked};
ghost use Rattle.vl_course.specs.Turning.{IsOfStmt};
ghost use Rattle.vl_session.specs.Turning.{IsClear};
ghost use Rattle.vl_running.specs.Happening.{Happens};

/// A step of a program opens no session of its transaction but those of its own client session.
pub fn stays_owned()
    ensures { (catalog : Catalog) (count : ℕ) (tx tx_new : TxState) (port port_new : PortView) → IsOwned tx.number tx.session count port.shards → (program new : Program) (told : ProgramTold) → Stepped catalog program tx port told new tx_new port_new → IsOwned tx.number tx.session count port_new.shards }
{}

/// Where a step leaves its transaction open, the shards show its event, which the one table may make, and no mark is lost.
pub fn stays_open()
    ensures shows { (catalog : Catalog) (past : Run) (count : ℕ) (tx : TxState) (old new : PortView) (e : Event) → Shows catalog past count old.shards → IsOwned tx.number tx.session count old.shards → Happens catalog count tx old new e → e.fault ≡ None → e.ends ≡ ends.Nobody → Shows catalog (Happened e ∷ past) count new.shards }
    ensures marks { (catalog : Catalog) (past : Run) (count : ℕ) (tx : TxState) (old new : PortView) (e : Event) → Shows catalog past count old.shards → IsOwned tx.number tx.session count old.shards → (stmt : Stmt) → IsOfStmt e.request stmt → Happens catalog count tx old new e → e.fault ≡ None → AreMarked past tx.number old.shards → AreMarked (Happened e ∷ past) tx.number new.shards }
    ensures steps { (catalog : Catalog) (past : Run) (count : ℕ) (tx : TxState) (old new : PortView) (e : Event) → Shows catalog past count old.shards → IsOwned tx.number tx.session count old.shards → Happens catalog count tx old new e → IsClear catalog past e.deed → CanStepAll catalog (is_broken past) (state catalog past) (steps_of catalog (cells catalog past) e) }
{}

/// Where all sessions of the transaction were closed behind the act, also one that came back, the shards show that event.
pub fn ends_whole()
    ensures { (catalog : Catalog) (past : Run) (count : ℕ) (tx : TxState) (old new : PortView) (e : Event) → Shows catalog past count old.shards → IsOwned tx.number tx.session count old.shards → (after : TxState) (newer : PortView) → after.number ≡ tx.number → after.session ≡ tx.session → AreLeft after 0 count new.shards → AreClosed after 0 (length (sessions after)) new newer → e.ends ≡ ends.Whole after.number → Happens catalog count tx old new e → Shows catalog (Happened e ∷ past) count newer.shards }
{}
