// What is reached from a root: the least set that is closed under the rule on references, over init
// tasks as symbols that keep what they wait for.
ghost use Rattle.std.specs.Prelude.{◌≡◌, ◌<◌, [], ◌∷◌, ◌++◌, OnOk, IfOk, map, filter_map, true, nat_lt};
ghost use Rattle.std.specs.List.{All, list_all};
ghost use Rattle.glk_closure.specs.Graph.{Keeps};
ghost use Rattle.glk_closure.specs.Kept.{AreMarked};
ghost use Rattle.glk_closure.specs.Views.{effect_view};
ghost use Rattle.glk_init.specs.Graph.{IsWithin};
ghost use Rattle.glk_init.specs.Reached.{awaited_graph};
ghost use Rattle.glk_init.specs.Tasks.{AreTasks};

use crate::program::{InitEdge, InitProgram};
use glk_base::OutOfMemory;
use glk_closure::{Effect, Program, kept_set};
use std::alloc::Global;

// A program whose symbols keep what they wait for, with these roots.
#[derive(Drop)]
struct Awaiting<'a, P: InitProgram> {
    alloc: Global,
    program: &'a P,
    roots: &'a [u32],
    ghost inside: { list_all (λ r. nat_lt r (P.graph program.now).keys) roots.now ≡ true },
}

// Appends what is kept by a reference: its target, if it has one.
fn push_target<'a>(edge: InitEdge, out: &mut Vec<Effect<'a>>) -> Result<(), OutOfMemory>
    ensures { OnOk result (map effect_view out.new.items
        ≡ map effect_view out.old.items ++ map Keeps (filter_map (λ e. e.target) (edge ∷ []))) }
{
    if let Some(target) = edge.target {
        out.push(Effect::Keeps(target))?;
    }
    Ok(())
}

// Appends what is kept by some references.
fn push_targets<'a>(edges: &[InitEdge], out: &mut Vec<Effect<'a>>) -> Result<(), OutOfMemory>
    ensures { OnOk result (map effect_view out.new.items
        ≡ map effect_view out.old.items ++ map Keeps (filter_map (λ e. e.target) edges.now)) }
{
    for edge in edges {
        push_target(*edge, out)?;
    }
    Ok(())
}

impl<P: InitProgram> Program for Awaiting<'_, P> {
    ghost graph = { λ s. awaited_graph (P.graph s.program.now) s.roots.now };

    fn keys(&self) -> u32 {
        self.program.keys()
    }

    fn roots(&self) -> &[u32] {
        self.roots
    }

    fn is_defined(&self, key: u32) -> bool {
        self.program.is_defined(key)
    }

    fn is_flagged(&self, _key: u32) -> bool {
        false
    }

    fn reflects(&self, _key: u32) -> bool {
        false
    }

    fn effects<'a>(&'a self, key: u32, out: &mut Vec<Effect<'a>>) -> Result<(), OutOfMemory> {
        let mut edges = Vec::new(self.alloc);
        self.program.edges(key, &mut edges)?;
        out.clear();
        push_targets(edges.as_slice(), out)
    }
}

// The tasks that are reached from a root, in the order of their keys.
pub(crate) fn reached_keys<P: InitProgram>(
    alloc: Global,
    program: &P,
    root: u32,
) -> Result<Vec<u32>, OutOfMemory>
    requires { root < (P.graph program.now).keys }
    ensures tasks { IfOk result (λ tasks. AreTasks (P.graph program.now) root tasks.items) }
    ensures keys { IfOk result (λ tasks. All (λ k. k < (P.graph program.now).keys) tasks.items) }
{
    let roots = [root];
    let awaiting = Awaiting {
        alloc,
        program,
        roots: &roots,
    };
    let kept = kept_set(alloc, &awaiting)?;
    kept.list(alloc)
}
