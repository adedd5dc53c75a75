ghost use Rattle.std.specs.Prelude.{◌≡◌, drop, slice_get};

use crate::task::Task;
use std::marker::Model;
use std::vec;

/// Tasks in the order in which they are done.
#[derive(Drop)]
pub struct Tasks {
    tasks: vec::IntoIter<Task>,
}

impl Model for Tasks {
    ghost use Rattle.std.specs.Prelude.{List};
    ghost use Rattle.std.specs.Vec.Iter.{into_iter_items};
    ghost use Rattle.vl_insert.specs.declared.task.Task.{Task as ATask};

    ghost Value = { List ATask };

    ghost view = { λ t. into_iter_items t.tasks };
}

impl Tasks {
    pub(crate) fn from_vec(tasks: Vec<Task>) -> Tasks
        ensures { result ≡ tasks.items }
    {
        Tasks {
            tasks: tasks.into_iter(),
        }
    }

    /// Takes the first of them.
    pub(crate) fn next(&mut self) -> Option<Task>
        ensures first { result ≡ slice_get self.old 0 }
        ensures rest { self.new ≡ drop 1 self.old }
    {
        self.tasks.next()
    }
}
