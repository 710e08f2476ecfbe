// A merged program as the search for kept symbols reads it.
ghost use Rattle.std.specs.Prelude.{◌≡◌, ◌<◌, IfOk, map, OnOk};
ghost use Rattle.std.specs.List.{All};
ghost use Rattle.glk_closure.specs.Views.{effect_view};
ghost use Rattle.glk_effects.specs.Views.{Appends};
ghost use Rattle.glk_keys.specs.Rows.{row_count};
ghost use Rattle.glk_merge.specs.Mergings.{IsDefinitionRow};
ghost use Rattle.glk_reach.specs.Chosen.{definition_row};
ghost use Rattle.glk_reach.specs.Effects.{effects_of};
ghost use Rattle.glk_reach.specs.Graphs.{graph_of, roots_of, is_flagged as is_flagged_in};

use crate::program::ReadProgram;
use crate::roots::roots;
use glk_base::{KeyId, OutOfMemory, SymId};
use glk_closure::{Effect, Program};
use glk_merge::Merged;
use glk_reach::{calls_by_reflection, definition, is_defined};
use std::alloc::Global;

/// A merged program as the search for kept symbols reads it, with the init tasks that are its roots.
/// Each time that it tells the effects of a symbol it goes once over the symbol's relocations and auxes.
#[derive(Drop)]
pub struct ReachGraph<'s, 'm, 'a> {
    read: &'s ReadProgram<'m, 'a>,
    tasks: &'s [u32],
    roots: Vec<u32>,
    alloc: Global,
    ghost roots_are: { roots.items ≡ roots_of read.now.merged.now.program tasks.now },
    ghost within: { All (λ k. k < row_count read.now.merged.now.program) roots.items },
}

// Whether an object says of a key that it is used in an interface.
fn is_flagged(merged: &Merged<'_>, key: u32) -> bool
    requires { key < row_count merged.now.program }
    ensures { result ≡ is_flagged_in merged.now.program key }
{
    if merged.key(SymId(key)).0 != key {
        return false;
    }
    merged.iface_flag(KeyId(key))
}

impl<'s, 'm, 'a> ReachGraph<'s, 'm, 'a> {
    /// The program with these init tasks as roots.
    ///
    /// # Errors
    /// Out of memory.
    pub fn new(
        alloc: Global,
        read: &'s ReadProgram<'m, 'a>,
        tasks: &'s [u32],
    ) -> Result<ReachGraph<'s, 'm, 'a>, OutOfMemory>
        requires { All (λ k. k < row_count read.now.merged.now.program) tasks.now }
        ensures read { IfOk result
            (λ graph. graph.read.now.merged.now.program ≡ read.now.merged.now.program) }
        ensures tasks { IfOk result (λ graph. graph.tasks.now ≡ tasks.now) }
    {
        let roots = roots(alloc, read.merged, tasks)?;
        Ok(ReachGraph {
            read,
            tasks,
            roots,
            alloc,
        })
    }

    // Adds all that a key does.
    fn push_effects<'t>(
        &'t self,
        key: u32,
        id: SymId,
        out: &mut Vec<Effect<'t>>,
    ) -> Result<(), OutOfMemory>
        requires key { key < row_count self.now.read.now.merged.now.program }
        requires row { IsDefinitionRow self.now.read.now.merged.now.program id.0 }
        requires chosen { definition_row self.now.read.now.merged.now.program key ≡ Some id.0 }
        ensures { OnOk result (Appends (row_count self.now.read.now.merged.now.program)
            out.old.items out.new.items (effects_of self.now.read.now.merged.now.program key)) }
    {
        self.read.push_relocs(key, id, out)?;
        self.read.push_methods(self.alloc, key, id, out)?;
        self.read.push_auxes(key, id, out)?;
        Ok(())
    }
}

impl Program for ReachGraph<'_, '_, '_> {
    ghost graph = { λ s. graph_of s.read.now.merged.now.program s.tasks.now };

    fn keys(&self) -> u32 {
        self.read.merged.rows()
    }

    fn roots(&self) -> &[u32] {
        self.roots.as_slice()
    }

    fn is_defined(&self, key: u32) -> bool {
        is_defined(self.read.merged, key)
    }

    fn is_flagged(&self, key: u32) -> bool {
        is_flagged(self.read.merged, key)
    }

    fn reflects(&self, key: u32) -> bool {
        calls_by_reflection(self.read.merged, key)
    }

    fn effects<'t>(&'t self, key: u32, out: &mut Vec<Effect<'t>>) -> Result<(), OutOfMemory> {
        out.clear();
        let Some(id) = definition(self.read.merged, key) else {
            return Ok(());
        };
        self.push_effects(key, id, out)?;
        Ok(())
    }
}
