use std::marker::Model;
use vl_port::act::Act;
use vl_port::who::Who;
use vl_run::mark::Mark;
use vl_values::ShardNo;

/// The act that is due of a program, and who does it.
#[derive(Drop)]
pub struct DueAct {
    pub who: Who,
    pub shard: ShardNo,
    pub act: Act,
    /// What it is where its keys were obtained and nothing was written.
    pub mark: Mark,
}

impl Model for DueAct {
    ghost use Rattle.vl_course.specs.Turning.{Due};

    ghost Value = { Due };

    ghost view = { λ due. record { who = due.who; shard = due.shard; act = due.act; mark = due.mark } };
}
