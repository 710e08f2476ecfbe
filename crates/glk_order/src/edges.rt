// The edges between tasks.
ghost use Rattle.std.specs.Prelude.{◌≡◌};
ghost use Rattle.glk_order.specs.Chains.{task_at};

/// A task waits for another one, its target, which comes before it. Tasks are numbered from 0; a
/// number is the task's rank: among tasks that are ready the least comes first.
#[derive(Clone, Copy, Debug, PartialEq, Eq)]
pub struct Edge {
    /// The number of the task that waits.
    pub task: u32,
    /// The number of the task that it waits for.
    pub target: u32,
}

// An end of an edge.
#[derive(Clone, Copy)]
pub(crate) enum End {
    Task,
    Target,
}

impl Edge {
    // The task at this end.
    pub(crate) fn at(&self, end: End) -> u32
        ensures { result ≡ task_at end self.now }
    {
        match end {
            End::Task => self.task,
            End::Target => self.target,
        }
    }
}
