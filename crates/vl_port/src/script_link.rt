ghost use Rattle.std.specs.Prelude.{◌≡◌, IfOk, replicate, None, Some};
ghost use Rattle.vl_port.specs.Losses.{LinkState, armed_on, losses_of};

use crate::carried::Carried;
use crate::link::Link;
use crate::loss::Loss;
use std::alloc::{AllocError, Global};
use std::marker::Model;
use vl_values::ShardNo;

/// A link that loses the messages that it was told to lose: for each shard the N-th from now on.
#[derive(Debug, Drop)]
pub struct ScriptLink {
    armed: Vec<Option<Loss>>,
    faults: u64,
}

impl Model for ScriptLink {
    ghost use Rattle.vl_port.specs.Losses.{LinkState};

    ghost Value = { LinkState };

    ghost view = { λ link. record { armed = link.armed.items; faults = link.faults } };
}

impl ScriptLink {
    /// A link to this many shards, which is to lose nothing yet.
    pub fn new(alloc: Global, shards: u32) -> Result<ScriptLink, AllocError>
        ensures { IfOk result (λ link. link ≡ record { armed = replicate shards None; faults = 0 }) }
    {
        let count = shards as usize;
        let mut armed = Vec::new(alloc);
        armed.resize(count, None)?;
        Ok(ScriptLink { armed, faults: 0 })
    }

    /// Arms the loss of a shard, in place of the one that it had. A shard that the link doesn't have has
    /// none.
    pub fn arm(&mut self, shard: ShardNo, loss: Loss)
        ensures { self.new ≡ armed_on self.old shard loss }
    {
        if let Some(place) = self.armed.get_mut(shard as usize) {
            *place = Some(loss);
        }
    }

    /// How often it has lost a message.
    pub fn faults(&self) -> u64
        ensures { result ≡ self.now.faults }
    {
        self.faults
    }
}

impl Link for ScriptLink {
    ghost faults = { λ link. link.faults };

    ghost losses = { λ link. Some (losses_of link) };

    fn carry(&mut self, shard: ShardNo) -> Carried {
        let Some(place) = self.armed.get_mut(shard as usize) else {
            return Carried::Passed;
        };
        let Some(loss) = *place else {
            return Carried::Passed;
        };
        if loss.nth != 1 {
            *place = Some(Loss {
                nth: loss.nth.saturating_sub(1),
                after: loss.after,
            });
            return Carried::Passed;
        }
        *place = None;
        self.faults = self.faults.saturating_add(1);
        if loss.after {
            Carried::LostAfter
        } else {
            Carried::LostBefore
        }
    }
}
