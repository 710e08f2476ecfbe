// Levels of tasks that no edge leads up: they tell which tasks are on no cycle.
ghost use Rattle.std.specs.Prelude.{◌≡◌, ◌<◌, ◌≤◌, ◌⊎◌, ℕ, length, IfSome, IfNone};
ghost use Rattle.glk_order.specs.Order.{AreEdgesOf, IsOnCycle};

use crate::edges::Edge;

// The lesser one of two tasks, where there are two.
fn lesser(task: u32, other: Option<u32>) -> u32
    ensures own { result ≤ task }
    ensures other { IfSome other (λ o. result ≤ o) }
    ensures one { IfSome other (λ o. (result ≡ task) ⊎ (result ≡ o)) }
    ensures alone { IfNone other (result ≡ task) }
{
    match other {
        Some(other) => task.min(other),
        None => task,
    }
}

// The least task with an edge inside its level, where no edge leads to a higher level. Each lesser
// task has edges to lower levels alone, from where no edge leads back, so it is on no cycle.
pub(crate) fn least_within_level(edges: &[Edge], levels: &[u32]) -> Option<u32>
    requires { AreEdgesOf (length levels.now) edges.now }
    ensures inside { IfSome result (λ task. task < length levels.now) }
    ensures least { IfSome result (λ task. (other : ℕ) → IsOnCycle edges.now other → task ≤ other) }
{
    let mut least = None;
    for edge in edges {
        let own = levels[edge.task as usize];
        let other = levels[edge.target as usize];
        if own < other {
            return None;
        }
        if own == other {
            least = Some(lesser(edge.task, least));
        }
    }
    least
}
