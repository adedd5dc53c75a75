ghost use Rattle.std.specs.Prelude.{◌≡◌, ◌++◌, OnOk, OnErr, length};

use crate::action::Action;
use std::alloc::{AllocError, Global};
use std::marker::Model;

/// Actions in the order in which they are done.
#[derive(Drop)]
pub struct Actions {
    actions: Vec<Action>,
}

impl Model for Actions {
    ghost use Rattle.std.specs.Prelude.{List};
    ghost use Rattle.vl_change.specs.declared.action.Action.{Action as AnAction};

    ghost Value = { List AnAction };

    ghost view = { λ d. d.actions.items };
}

impl Actions {
    pub(crate) fn from_vec(actions: Vec<Action>) -> Actions
        ensures { result ≡ actions.items }
    {
        Actions { actions }
    }

    pub(crate) fn as_slice(&self) -> &[Action]
        ensures { result.now ≡ self.now }
    {
        self.actions.as_slice()
    }

    pub(crate) fn len(&self) -> usize
        ensures { result ≡ length self.now }
    {
        self.actions.len()
    }

    /// Puts these behind the others.
    pub(crate) fn append(&mut self, more: Vec<Action>) -> Result<(), AllocError>
        ensures ok { OnOk result (self.new ≡ self.old ++ more.items) }
        ensures err { OnErr result (self.new ≡ self.old) }
    {
        let mut more = more;
        self.actions.append(&mut more)
    }
}
