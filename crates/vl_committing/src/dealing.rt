ghost use Rattle.std.specs.Prelude.{◌≡◌, length, slice_get};
ghost use Rattle.std.specs.Option.{option_map};
ghost use Rattle.vl_commit.specs.Stepping.{Committing};
ghost use Rattle.vl_run.specs.Allowed.{failed_one};
ghost use Rattle.vl_course_commit.specs.Committing.{fault_by};
ghost use Rattle.vl_course_commit.specs.Dealing.{failure_told};
ghost use Rattle.vl_committing.specs.Telling.{dealt_as, deed_of, due_named};

use crate::dealt::Dealt;
use vl_commit::commit::Commit;
use vl_commit::commit_told::CommitTold;
use vl_commit::failure::Failure;
use vl_commit::warning::Warning;
use vl_port::who::Who;
use vl_run::deed::Deed;
use vl_run::ends::Ends;
use vl_run::fault::Fault;
use vl_values::ShardNo;

/// The session that is due, by its name, and its shard.
pub(crate) fn due_named(commit: &Commit) -> Option<(Who, ShardNo)>
    ensures { result ≡ due_named commit.now }
{
    let Some((group, shard)) = commit.due() else {
        return None;
    };
    Some((commit.tx().who(group), shard))
}

// Why the commit failed that left a warning behind so many others, if one did.
fn warned_behind(warnings: &[Warning], count: usize) -> Option<Failure>
    ensures { result ≡ option_map (λ warning. warning.why) (slice_get warnings.now count) }
{
    match warnings.get(count) {
        Some(warning) => Some(warning.why),
        None => None,
    }
}

/// Why the session that was due wasn't committed, if it wasn't. There were so many warnings before.
pub(crate) fn failure(told: &CommitTold, commit: &Commit, count: usize) -> Option<Failure>
    ensures { (old : Committing) → length old.warnings ≡ count → result ≡ failure_told old told.now commit.now }
{
    match told {
        CommitTold::More => warned_behind(commit.warnings(), count),
        CommitTold::Ok { warnings } => warned_behind(warnings.as_slice(), count),
        CommitTold::Failed { why, .. } => Some(*why),
    }
}

fn deed(due: Option<(Who, ShardNo)>, done: bool) -> Deed
    ensures { result ≡ deed_of due done }
{
    let Some((who, shard)) = due else {
        return Deed::Nothing;
    };
    if done {
        return Deed::Commits { who, shard };
    }
    Deed::Fails { who, shard }
}

fn fault(failure: Option<Failure>) -> Option<Fault>
    ensures { result ≡ option_map fault_by failure }
{
    match failure {
        Some(Failure::Lost(why)) => Some(Fault::Lost(why)),
        Some(Failure::Device) => Some(Fault::Device),
        None => None,
    }
}

fn visits(due: Option<(Who, ShardNo)>) -> Option<ShardNo>
    ensures { result ≡ option_map (λ it. it.1) due }
{
    let Some((_, shard)) = due else {
        return None;
    };
    Some(shard)
}

/// What a step did whose session was due so.
pub(crate) fn dealt(due: Option<(Who, ShardNo)>, failure: Option<Failure>) -> Dealt
    ensures { result ≡ dealt_as due failure }
{
    Dealt {
        visits: visits(due),
        deed: deed(due, failure.is_none()),
        fault: fault(failure),
    }
}

/// The session that ended otherwise than by its commit, if it did.
pub(crate) fn failed_one(deed: &Deed) -> Ends
    ensures { result ≡ failed_one deed.now }
{
    match deed {
        Deed::Fails { who, shard } => Ends::One {
            who: *who,
            shard: *shard,
        },
        _ => Ends::Nobody,
    }
}
