// A merged program as init order reads it.
ghost use Rattle.std.specs.Prelude.{◌≡◌, ◌<◌, ◌==◌, length, get_or, OnOk, IfSome};
ghost use Rattle.std.specs.List.{All};
ghost use Rattle.glk_init.specs.Graph.{IsWithin};
ghost use Rattle.glk_keys.specs.Relocations.{relocs_of};
ghost use Rattle.glk_keys.specs.Rows.{row_count};
ghost use Rattle.glk_merge.specs.Accessors.{row_numbers};
ghost use Rattle.glk_merge.specs.Mergings.{IsDefinitionRow, IsRow, IsTargetKey};
ghost use Rattle.glk_obj.specs.declared.kinds.RelocKind.TheVariants.{InitOrder};
ghost use Rattle.glk_reach.specs.Chosen.{is_key as is_key_in, chosen_row, definition_row};
ghost use Rattle.glk_reach.specs.RelocKinds.{is_kind};
ghost use Rattle.glk_reach.specs.Views.{IsDefinition};
ghost use Rattle.glk_tasks.specs.Tasks.{edge_to as edge_to_of, edge_at as edge_at_of, init_graph, row_edges};

use glk_base::{KeyId, OutOfMemory, SymId};
use glk_init::{InitEdge, InitProgram};
use glk_keys::Target;
use glk_merge::Merged;
use glk_obj::RelocKind;
use glk_reach::is_defined;

/// A merged program as init order reads it: its symbols are its keys, and what is read of a key is read
/// of its chosen definition. A row that is not the number of a key has no definition.
#[derive(Drop)]
pub struct InitTasks<'m, 'a> {
    /// The program.
    pub merged: &'m Merged<'a>,
}

// Whether a row is the number of a key.
fn is_key(merged: &Merged<'_>, key: u32) -> bool
    requires { key < row_count merged.now.program }
    ensures { result ≡ is_key_in merged.now.program key }
{
    merged.key(SymId(key)).0 == key
}

// The row of the chosen definition of a key, a made name's among them.
#[tactic(auto, unfolding(glk_reach::specs::Chosen::chosen_row))]
fn chosen(merged: &Merged<'_>, key: u32) -> Option<SymId>
    requires { key < row_count merged.now.program }
    ensures value { row_numbers result ≡ chosen_row merged.now.program key }
    ensures within { IsRow merged.now.program (row_numbers result) }
{
    if merged.key(SymId(key)).0 != key {
        return None;
    }
    merged.chosen(KeyId(key))
}

// The row of the chosen definition of a key in an object.
#[tactic(auto, unfolding(glk_reach::specs::Chosen::definition_row))]
fn definition(merged: &Merged<'_>, key: u32) -> Option<SymId>
    requires { key < row_count merged.now.program }
    ensures value { row_numbers result ≡ definition_row merged.now.program key }
    ensures definition { IsDefinition merged.now.program (row_numbers result) }
{
    let id = chosen(merged, key)?;
    if !merged.is_def(id) {
        return None;
    }
    Some(id)
}

// Whether a relocation is an INITORDER.
fn is_init_order(kind: Option<RelocKind>) -> bool
    ensures { result ≡ is_kind InitOrder kind }
{
    match kind {
        Some(RelocKind::InitOrder) => true,
        _ => false,
    }
}

fn edge(relocation: u32, target: Option<u32>) -> InitEdge
    ensures { result ≡ record { relocation = relocation; target = target } }
{
    InitEdge { relocation, target }
}

// What is waited for by relocation `i`, if its reference means anything.
fn edge_to(i: u32, target: Target) -> Option<InitEdge>
    ensures { result ≡ edge_to_of i target }
{
    match target {
        Target::Nothing => None,
        Target::Key(key) => Some(edge(i, Some(key.0))),
        Target::Missing { .. } => Some(edge(i, None)),
    }
}

// What is waited for by relocation `i` of a definition, if it is an INITORDER.
fn edge_at(merged: &Merged<'_>, id: SymId, i: u32) -> Option<InitEdge>
    requires row { IsDefinitionRow merged.now.program id.0 }
    requires index { i < length (relocs_of merged.now.program id.0) }
    ensures value { result ≡ edge_at_of merged.now.program id.0 i }
    ensures within { IfSome result (IsWithin (row_count merged.now.program)) }
{
    if !is_init_order(merged.reloc_kind(id, i)) {
        return None;
    }
    edge_to(i, merged.reloc_target(id, i))
}

// Replaces what is in a buffer by what a definition waits for.
fn fill_edges(merged: &Merged<'_>, id: SymId, out: &mut Vec<InitEdge>) -> Result<(), OutOfMemory>
    requires { IsDefinitionRow merged.now.program id.0 }
    ensures value { OnOk result (out.new.items ≡ row_edges merged.now.program id.0) }
    ensures within { OnOk result (All (IsWithin (row_count merged.now.program)) out.new.items) }
{
    out.clear();
    for i in 0..merged.relocs(id) {
        let Some(edge) = edge_at(merged, id, i) else {
            continue;
        };
        out.push(edge)?;
    }
    Ok(())
}

impl InitProgram for InitTasks<'_, '_> {
    ghost graph = { λ s. init_graph s.merged.now.program };

    fn keys(&self) -> u32 {
        self.merged.rows()
    }

    fn is_defined(&self, key: u32) -> bool {
        is_defined(self.merged, key)
    }

    #[tactic(auto, unfolding(crate::specs::Tasks::name_of, glk_keys::specs::Names::key_name))]
    fn name(&self, key: u32) -> &[u8] {
        if !is_key(self.merged, key) {
            return &[];
        }
        match self.merged.chosen(KeyId(key)) {
            Some(id) => self.merged.row(id).name,
            None => self.merged.row(SymId(key)).name,
        }
    }

    #[tactic(auto, unfolding(crate::specs::Tasks::position_of))]
    fn position(&self, key: u32) -> u32 {
        match chosen(self.merged, key) {
            Some(id) => id.0,
            None => 0,
        }
    }

    #[tactic(auto, unfolding(crate::specs::Tasks::size_of))]
    fn size(&self, key: u32) -> u32 {
        match chosen(self.merged, key) {
            Some(id) => self.merged.row(id).size,
            None => 0,
        }
    }

    #[tactic(auto, unfolding(crate::specs::Tasks::edges_of))]
    fn edges(&self, key: u32, out: &mut Vec<InitEdge>) -> Result<(), OutOfMemory> {
        match definition(self.merged, key) {
            Some(id) => fill_edges(self.merged, id, out),
            None => {
                out.clear();
                Ok(())
            }
        }
    }
}
