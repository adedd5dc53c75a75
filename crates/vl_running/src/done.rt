ghost use Rattle.std.specs.Prelude.{◌≡◌};
ghost use Rattle.vl_running.specs.Ran.{acted, done_of, failed, nothing};

use crate::due_act::DueAct;
use vl_port::outcome::Outcome;
use vl_run::deed::Deed;
use vl_run::fault::Fault;
use vl_run::mark::Mark;
use vl_values::ShardNo;

/// What was done of an act that was due.
#[derive(Drop)]
pub struct Done {
    pub visits: Option<ShardNo>,
    pub deed: Deed,
    pub fault: Option<Fault>,
}

impl Done {
    /// Nothing was done.
    pub fn nothing() -> Done
        ensures { result ≡ nothing }
    {
        Done {
            visits: None,
            deed: Deed::Nothing,
            fault: None,
        }
    }

    // The act came back, with this mark.
    fn acted(due: DueAct, mark: Mark) -> Done
        ensures { result ≡ acted due mark }
    {
        Done {
            visits: Some(due.shard),
            deed: Deed::Acts {
                who: due.who,
                shard: due.shard,
                act: due.act,
                mark,
            },
            fault: None,
        }
    }

    // It was lost, or the device failed.
    fn failed(shard: ShardNo, fault: Fault) -> Done
        ensures { result ≡ failed shard fault }
    {
        Done {
            visits: Some(shard),
            deed: Deed::Nothing,
            fault: Some(fault),
        }
    }

    /// What was done, by what the act came to.
    pub fn of(due: Option<DueAct>, outcome: Option<Outcome>) -> Done
        ensures { result ≡ done_of due outcome }
    {
        let Some(due) = due else {
            return Done::nothing();
        };
        let Some(outcome) = outcome else {
            return Done::nothing();
        };
        match outcome {
            Outcome::Refused => Done::nothing(),
            Outcome::Opened => Done::acted(due, Mark::Opens),
            Outcome::Took => {
                let mark = due.mark;
                Done::acted(due, mark)
            }
            Outcome::Wrote => Done::acted(due, Mark::Writes),
            Outcome::Lost(why) => Done::failed(due.shard, Fault::Lost(why)),
            Outcome::Device => Done::failed(due.shard, Fault::Device),
        }
    }
}
