ghost use Rattle.std.specs.Prelude.{◌≡◌, IfOk};
ghost use Rattle.vl_port.specs.Taking.{takes_keys};
ghost use Rattle.vl_course.specs.Selecting.{reader_of};
ghost use Rattle.vl_course_program.specs.Programs.{due_of};
ghost use Rattle.vl_running.specs.Due.{mark_due, who_due};

use crate::due_act::DueAct;
use std::alloc::{AllocError, Global};
use vl_exec::program::Program;
use vl_port::act::Act;
use vl_port::tx_state::TxState;
use vl_port::who::Who;
use vl_run::mark::Mark;
use vl_values::ShardNo;
use vl_values::group::Group;

fn takes_keys(act: &Act) -> bool
    ensures { result ≡ takes_keys act.now }
{
    match act {
        Act::Find { pred: _, locking } => *locking,
        Act::Insert { .. } | Act::Put { .. } | Act::Remove { .. } | Act::RemoveIf { .. } => true,
    }
}

fn reader(tx: &TxState, group: Group, shard: ShardNo, act: &Act) -> Who
    ensures { result ≡ reader_of tx.now (record { group = group; shard = shard; act = act.now }) }
{
    if takes_keys(act) {
        return tx.who(group);
    }
    tx.reader(group, shard)
}

fn who_due(tx: &TxState, program: &Program, group: Group, shard: ShardNo, act: &Act) -> Who
    ensures { result ≡ who_due tx.now program.now group shard act.now }
{
    match program {
        Program::Insert(_) => tx.who(group),
        Program::Select(_) => reader(tx, group, shard, act),
        Program::Change(_) => tx.who(group),
    }
}

fn mark_due(program: &Program) -> Mark
    ensures { result ≡ mark_due program.now }
{
    match program {
        Program::Insert(_) => Mark::Takes,
        Program::Select(select) => {
            if select.looks() {
                Mark::Looks
            } else {
                Mark::Reads
            }
        }
        Program::Change(_) => Mark::Reads,
    }
}

/// The act that is due; None where none is.
pub fn due(alloc: Global, tx: &TxState, program: &Program) -> Result<Option<DueAct>, AllocError>
    ensures { IfOk result (λ due. due ≡ due_of tx.now program.now) }
{
    let Some((group, shard)) = program.due_session() else {
        return Ok(None);
    };
    let Some(act) = program.due_act(alloc)? else {
        return Ok(None);
    };
    let who = who_due(tx, program, group, shard, &act);
    let mark = mark_due(program);
    Ok(Some(DueAct {
        who,
        shard,
        act,
        mark,
    }))
}
