ghost use Rattle.std.specs.Prelude.{◌≡◌, [], ◌∷◌, Option, OnErr, IfOk};
ghost use Rattle.vl_model.specs.Taken.{IsTaken};
ghost use Rattle.vl_cluster.specs.View.{View, stmt_of};
ghost use Rattle.vl_cluster.specs.declared.session.Session.{Session};
ghost use Rattle.vl_cluster.specs.declared.what.What.TheVariants.{Stray};
ghost use Rattle.vl_serve.specs.History.{Ran, IsLast, IsShortTold};
ghost use Rattle.vl_serve.specs.History.Deed.{Join, Say, Leave};

use std::alloc::AllocError;
use vl_cluster::ask::Ask;
use vl_cluster::pass::Pass;
use vl_cluster::told::Told;

/// The way of one session to the core. Other sessions may act before each of its calls.
pub trait Gate {
    /// What stands at the core, where the gate tells it. What happened between two moments is then a run
    /// of the core's events.
    ghost seen: { Self → Option View };

    /// The pass is the one for this session's next event.
    ghost is_due: { Self → Session → Type 0 };

    /// Joins a session.
    fn join(&mut self) -> Result<Pass, AllocError>
        ensures ok { IfOk result (λ pass. Ran (seen self.old) (Join pass ∷ []) (seen self.new)) }
        ensures err { OnErr result (Ran (seen self.old) [] (seen self.new)) }
        ensures due { IfOk result (λ pass. is_due self.new pass) };

    /// Asks the core what it takes, and gives the pass for the next event. The reply is one packet. Over a
    /// core that is told, a pass that was due is refused only at the last event number.
    fn act(&mut self, pass: Pass, ask: Ask) -> (Pass, Told)
        requires { IsTaken (stmt_of ask) }
        ensures said { Ran (seen self.old) (Say pass (stmt_of ask) result.1.1 result.0 ∷ []) (seen self.new) }
        ensures short { IsShortTold result.1.1 }
        ensures due { is_due self.old pass → is_due self.new result.0 }
        ensures stray { is_due self.old pass → result.1.1 ≡ Stray → IsLast (seen self.new) };

    /// Takes the session out.
    fn leave(&mut self, pass: Pass)
        ensures left { Ran (seen self.old) (Leave pass ∷ []) (seen self.new) }
        ensures last { IsLast (seen self.old) → IsLast (seen self.new) };
}
