// The pending work on the way to the scope after a node.
ghost use Rattle.std.specs.Prelude.{◌≡◌, ◌∷◌, [], OnOk, MatchOption};

use kr_base::NoMemory;
use std::alloc::Global;
use std::marker::Model;

/// A node to be passed, or the node of a result type to be set.
#[derive(Clone, Copy)]
pub enum Task {
    Pass(u32),
    SetResult(u32),
}

/// The tasks, the next one on top. Contracts see the list of them, the next one first.
#[derive(Drop)]
pub struct Tasks {
    items: Vec<Task>,
}

impl Model for Tasks {
    ghost use Rattle.std.specs.Prelude.{List, reverse};
    ghost use Rattle.kr_types_scopes.specs.declared.tasks.Task.{Task};

    ghost Value = { List Task };

    ghost view = { λ s. reverse s.items.items };
}

impl Tasks {
    /// Allocates nothing.
    pub fn new(alloc: Global) -> Self
        ensures { result ≡ [] }
    {
        Tasks {
            items: Vec::new(alloc),
        }
    }

    pub fn push(&mut self, task: Task) -> Result<(), NoMemory>
        ensures { OnOk result (self.new ≡ task ∷ self.old) }
    {
        self.items.push(task)?;
        Ok(())
    }

    pub(crate) fn pop(&mut self) -> Option<Task>
        ensures { MatchOption result ((self.old ≡ []) × (self.new ≡ [])) (λ task. self.old ≡ task ∷ self.new) }
    {
        self.items.pop()
    }
}
