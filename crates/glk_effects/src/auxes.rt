// What a symbol does by its auxes.
ghost use Rattle.std.specs.Prelude.{◌≡◌, ◌<◌, length, get_or, map, OnOk, IfSome};
ghost use Rattle.std.specs.Option.{option_and_then};
ghost use Rattle.glk_closure.specs.Views.{effect_view, IsWithin};
ghost use Rattle.glk_effects.specs.Views.{effect_reading_if, effect_if, IsIfReadWithin, Appends};
ghost use Rattle.glk_keys.specs.Relocations.{auxes_of, no_aux, aux_target};
ghost use Rattle.glk_keys.specs.Rows.{row_count};
ghost use Rattle.glk_merge.specs.Mergings.{IsDefinitionRow};
ghost use Rattle.glk_readings.specs.Symbols.{IsWithin as IsSymbolWithin};
ghost use Rattle.glk_reach.specs.Chosen.{target_symbol as target_symbol_of};
ghost use Rattle.glk_reach.specs.Effects.{found_of, found_effects, aux_read as aux_read_of};

use crate::program::ReadProgram;
use glk_base::{OutOfMemory, SymId};
use glk_closure::Effect;
use glk_obj::AuxKind;
use glk_reach::target_symbol;
use glk_readings::{TargetSymbol, Unreadable};

impl ReadProgram<'_, '_> {
    // What aux `i` of a definition refers to, if anything.
    fn aux_symbol(&self, id: SymId, i: u32) -> Option<TargetSymbol>
        requires row { IsDefinitionRow self.now.merged.now.program id.0 }
        requires index { i < length (auxes_of self.now.merged.now.program id.0) }
        ensures value { result ≡ target_symbol_of (aux_target self.now.merged.now.program id.0
            (get_or (auxes_of self.now.merged.now.program id.0) i no_aux)) }
        ensures within { IsSymbolWithin (row_count self.now.merged.now.program) result }
    {
        target_symbol(self.merged.aux_target(id, i))
    }

    /// What aux `i` of a key does, if it is one of funcdata with a target; the key's chosen definition is
    /// row `id`.
    ///
    /// # Errors
    /// Its target has no definition.
    #[tactic(auto, unfolding(glk_reach::specs::Effects::aux_read))]
    pub fn aux_read(&self, key: u32, id: SymId, i: u32) -> Option<Result<Effect<'_>, Unreadable>>
        requires row { IsDefinitionRow self.now.merged.now.program id.0 }
        requires index { i < length (auxes_of self.now.merged.now.program id.0) }
        ensures value { effect_reading_if result ≡ aux_read_of self.now.merged.now.program key id.0
            (get_or (auxes_of self.now.merged.now.program id.0) i no_aux) }
        ensures within { IsIfReadWithin (row_count self.now.merged.now.program) result }
    {
        if self.merged.aux(id, i).kind != AuxKind::FuncData as u8 {
            return None;
        }
        let target = self.aux_symbol(id, i)?;
        match self.defined(key, target) {
            Ok(t) => Some(Ok(Effect::Funcdata(t))),
            Err(why) => Some(Err(why)),
        }
    }

    // What aux `i` of a key does, if that is found.
    fn aux_effect(&self, key: u32, id: SymId, i: u32) -> Option<Effect<'_>>
        requires row { IsDefinitionRow self.now.merged.now.program id.0 }
        requires index { i < length (auxes_of self.now.merged.now.program id.0) }
        ensures value { effect_if result
            ≡ option_and_then found_of (aux_read_of self.now.merged.now.program key id.0
            (get_or (auxes_of self.now.merged.now.program id.0) i no_aux)) }
        ensures within { IfSome result (λ effect.
            IsWithin (row_count self.now.merged.now.program) (effect_view effect)) }
    {
        match self.aux_read(key, id, i) {
            Some(Ok(effect)) => Some(effect),
            Some(Err(_)) => None,
            None => None,
        }
    }

    // Adds what a key does by its auxes.
    pub(crate) fn push_auxes<'s>(
        &'s self,
        key: u32,
        id: SymId,
        out: &mut Vec<Effect<'s>>,
    ) -> Result<(), OutOfMemory>
        requires { IsDefinitionRow self.now.merged.now.program id.0 }
        ensures { OnOk result (Appends (row_count self.now.merged.now.program) out.old.items out.new.items
            (found_effects (map (aux_read_of self.now.merged.now.program key id.0)
            (auxes_of self.now.merged.now.program id.0)))) }
    {
        for i in 0..self.merged.auxes(id) {
            let Some(effect) = self.aux_effect(key, id, i) else {
                continue;
            };
            out.push(effect)?;
        }
        Ok(())
    }
}
