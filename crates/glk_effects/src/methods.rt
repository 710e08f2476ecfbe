// What a type does by its methods.
ghost use Rattle.std.specs.Prelude.{◌≡◌, ◌<◌, ◌≤◌, length, get_or, OnOk, IfOk};
ghost use Rattle.std.specs.List.{All};
ghost use Rattle.glk_closure.specs.Views.{effect_view, name_view, IsWithin, AreBelow};
ghost use Rattle.glk_effects.specs.Views.{Appends, AreMethodsOf};
ghost use Rattle.glk_keys.specs.Rows.{row_count};
ghost use Rattle.glk_merge.specs.Mergings.{IsDefinitionRow};
ghost use Rattle.glk_readings.specs.Readings.{method_name_read as method_name_read_of};
ghost use Rattle.glk_readings.specs.Triples.{triples_of};
ghost use Rattle.glk_readings.specs.Views.{name_view as reading_view};
ghost use Rattle.glk_reach.specs.Chosen.{definition_row, relocations_of, symbols_of, target_key as target_key_of};
ghost use Rattle.glk_reach.specs.Effects.{found_of, method_effect as method_effect_of, method_effects, method_effects_from, triple_keys as triple_keys_of};
ghost use Rattle.glk_types.specs.Methods.{count_of};

use crate::program::ReadProgram;
use glk_base::{OutOfMemory, SymId};
use glk_closure::{Effect, Targets};
use glk_reach::is_type;
use glk_readings::{
    MethodTriple, TargetSymbol, Unreadable, method_name_read, method_triples, methodoff_offsets,
    methods_read,
};
use glk_types::Methods;
use std::alloc::Global;

/// The key that is meant, if one is.
pub fn target_key(target: Option<TargetSymbol>) -> Option<u32>
    ensures { result ≡ target_key_of target }
{
    match target {
        Some(TargetSymbol::Key(t)) => Some(t),
        Some(TargetSymbol::Missing { .. }) => None,
        None => None,
    }
}

// The keys that a triple refers to.
fn triple_keys(triple: MethodTriple) -> Targets
    ensures { result ≡ triple_keys_of triple }
{
    Targets {
        first: target_key(triple.first),
        second: target_key(triple.second),
        third: target_key(triple.third),
    }
}

// The name that is read, where one is.
fn found_name<'s>(name: Result<&'s [u8], Unreadable>) -> Option<&'s [u8]>
    ensures { name_view result ≡ found_of (reading_view name.entry) }
{
    match name {
        Ok(found) => Some(found),
        Err(_) => None,
    }
}

impl ReadProgram<'_, '_> {
    /// The methods of a type, or why they can't be read. It goes once over the type's relocations.
    ///
    /// # Errors
    /// Out of memory.
    pub fn methods(
        &self,
        alloc: Global,
        key: u32,
    ) -> Result<Result<Methods, Unreadable>, OutOfMemory>
        requires { key < row_count self.now.merged.now.program }
        ensures { IfOk result (AreMethodsOf self.now.merged.now.program key) }
    {
        let mut offsets = Vec::new(alloc);
        methodoff_offsets(&self.symbols, key, &mut offsets)?;
        Ok(methods_read(&self.symbols, key, offsets.as_slice()))
    }

    /// The name of method `j` of a type.
    ///
    /// # Errors
    /// Why it, or the type's methods, can't be read.
    #[tactic(auto, unfolding(glk_readings::specs::Readings::method_name_read))]
    pub fn method_name(
        &self,
        key: u32,
        methods: Result<Methods, Unreadable>,
        j: usize,
    ) -> Result<&[u8], Unreadable>
        requires key { key < row_count self.now.merged.now.program }
        requires methods { AreMethodsOf self.now.merged.now.program key methods }
        requires index { IfOk methods (λ entries. j < count_of entries) }
        ensures { reading_view result ≡ method_name_read_of (symbols_of self.now.merged.now.program) key j }
    {
        match methods {
            Ok(entries) => method_name_read(&self.symbols, key, entries, j as u32),
            Err(why) => Err(why),
        }
    }

    // Method `j` of a type.
    fn method(
        &self,
        key: u32,
        methods: Result<Methods, Unreadable>,
        j: usize,
        triple: MethodTriple,
    ) -> Effect<'_>
        requires key { key < row_count self.now.merged.now.program }
        requires methods { AreMethodsOf self.now.merged.now.program key methods }
        requires index { IfOk methods (λ entries. j < count_of entries) }
        ensures { effect_view result ≡ method_effect_of self.now.merged.now.program key j triple }
    {
        Effect::Method {
            name: found_name(self.method_name(key, methods, j)),
            targets: triple_keys(triple),
        }
    }

    // Adds the methods of these triples, of which the first is number 0.
    fn push_triples<'s>(
        &'s self,
        key: u32,
        methods: Result<Methods, Unreadable>,
        triples: &[MethodTriple],
        out: &mut Vec<Effect<'s>>,
    ) -> Result<(), OutOfMemory>
        requires key { key < row_count self.now.merged.now.program }
        requires methods { AreMethodsOf self.now.merged.now.program key methods }
        requires few { IfOk methods (λ entries. length triples.now ≤ count_of entries) }
        requires within { All (λ triple. AreBelow (row_count self.now.merged.now.program)
            (triple_keys_of triple)) triples.now }
        ensures { OnOk result (Appends (row_count self.now.merged.now.program) out.old.items out.new.items
            (method_effects_from self.now.merged.now.program key 0 triples.now)) }
    {
        for j in 0..triples.len() {
            out.push(self.method(key, methods, j, triples[j]))?;
        }
        Ok(())
    }

    // Adds what a type does by its methods. They are found in one pass over its relocations.
    #[tactic(auto, unfolding(glk_reach::specs::Effects::method_effects))]
    pub(crate) fn push_methods<'s>(
        &'s self,
        alloc: Global,
        key: u32,
        id: SymId,
        out: &mut Vec<Effect<'s>>,
    ) -> Result<(), OutOfMemory>
        requires key { key < row_count self.now.merged.now.program }
        requires row { IsDefinitionRow self.now.merged.now.program id.0 }
        requires chosen { definition_row self.now.merged.now.program key ≡ Some id.0 }
        ensures { OnOk result (Appends (row_count self.now.merged.now.program) out.old.items out.new.items
            (method_effects self.now.merged.now.program key)) }
    {
        if !is_type(self.merged, key) {
            return Ok(());
        }
        let mut triples = Vec::new(alloc);
        method_triples(&self.symbols, key, &mut triples)?;
        let methods = self.methods(alloc, key)?;
        self.push_triples(key, methods, triples.as_slice(), out)?;
        Ok(())
    }
}
