// What a symbol does by its relocations.
ghost use Rattle.std.specs.Prelude.{◌≡◌, ◌<◌, length, get_or, map, OnOk, IfOk, IfSome};
ghost use Rattle.std.specs.Option.{option_and_then};
ghost use Rattle.glk_closure.specs.Views.{effect_view, IsWithin};
ghost use Rattle.glk_effects.specs.Views.{effect_reading, effect_reading_if, effect_if, IsReadWithin, IsIfReadWithin, Appends};
ghost use Rattle.glk_keys.specs.Relocations.{relocs_of, no_reloc, reloc_target};
ghost use Rattle.glk_keys.specs.Rows.{row_count};
ghost use Rattle.glk_merge.specs.Mergings.{IsDefinitionRow};
ghost use Rattle.glk_readings.specs.Symbols.{IsKeyBelow, IsWithin as IsSymbolWithin};
ghost use Rattle.glk_reach.specs.Chosen.{target_symbol as target_symbol_of};
ghost use Rattle.glk_reach.specs.Effects.{found_of, found_effects, plain_effect as plain_effect_of, plain_read, used_type_read, use_read, call_read, named_call_read, target_read as target_read_of, reloc_read as reloc_read_of};

use crate::program::ReadProgram;
use glk_base::{OutOfMemory, SymId};
use glk_closure::Effect;
use glk_obj::RelocKind;
use glk_reach::{data, is_interface_table, is_type, target_symbol};
use glk_readings::{TargetSymbol, Unreadable, imethod_read, itab_type_read};

// Y8: the target of a marker of an interface is neither a type nor an interface table.
const MARKER_RULE: u8 = 8;

impl ReadProgram<'_, '_> {
    // What a symbol does by keeping another: between types it links them as well.
    fn plain_effect(&self, key: u32, t: u32) -> Effect<'_>
        requires key { key < row_count self.now.merged.now.program }
        requires target { t < row_count self.now.merged.now.program }
        ensures value { effect_view result ≡ plain_effect_of self.now.merged.now.program key t }
        ensures within { IsWithin (row_count self.now.merged.now.program) (effect_view result) }
    {
        if is_type(self.merged, key) && is_type(self.merged, t) {
            Effect::Links(t)
        } else {
            Effect::Keeps(t)
        }
    }

    // K2, I2: what a symbol does by a relocation of a plain kind.
    fn plain(&self, key: u32, target: TargetSymbol) -> Result<Effect<'_>, Unreadable>
        requires key { key < row_count self.now.merged.now.program }
        requires target { IsKeyBelow (row_count self.now.merged.now.program) target }
        ensures value { effect_reading result ≡ plain_read self.now.merged.now.program key target }
        ensures within { IsReadWithin (row_count self.now.merged.now.program) result }
    {
        let t = self.defined(key, target)?;
        Ok(self.plain_effect(key, t))
    }

    // I3: the type that an interface table is of, or that a symbol is.
    fn used_type(&self, key: u32, offset: u32, t: u32) -> Result<u32, Unreadable>
        requires { t < row_count self.now.merged.now.program }
        ensures value { result ≡ used_type_read self.now.merged.now.program key offset t }
        ensures within { IfOk result (λ of. of < row_count self.now.merged.now.program) }
    {
        if is_interface_table(self.merged, t) {
            return itab_type_read(&self.symbols, t);
        }
        if is_type(self.merged, t) {
            return Ok(t);
        }
        Err(Unreadable::Breaks {
            holder: key,
            rule: MARKER_RULE,
            offset,
        })
    }

    // I3: what a symbol does by a marker of an interface.
    fn usage(&self, key: u32, offset: u32, target: TargetSymbol) -> Result<Effect<'_>, Unreadable>
        requires { IsKeyBelow (row_count self.now.merged.now.program) target }
        ensures value { effect_reading result ≡ use_read self.now.merged.now.program key offset target }
        ensures within { IsReadWithin (row_count self.now.merged.now.program) result }
    {
        let t = self.defined(key, target)?;
        let of = self.used_type(key, offset, t)?;
        Ok(Effect::Uses(of))
    }

    // S1: what a symbol does by a call of a method of an interface.
    fn call(&self, key: u32, addend: i64, target: TargetSymbol) -> Result<Effect<'_>, Unreadable>
        requires { IsKeyBelow (row_count self.now.merged.now.program) target }
        ensures value { effect_reading result ≡ call_read self.now.merged.now.program key addend target }
        ensures within { IsReadWithin (row_count self.now.merged.now.program) result }
    {
        let t = self.defined(key, target)?;
        match imethod_read(&self.symbols, t, addend) {
            Ok(method) => Ok(Effect::Calls {
                name: method.name,
                of: method.of,
            }),
            Err(why) => Err(why),
        }
    }

    // G1: what a symbol does by a call of methods by their name.
    fn named_call(&self, key: u32, target: TargetSymbol) -> Result<Effect<'_>, Unreadable>
        requires { IsKeyBelow (row_count self.now.merged.now.program) target }
        ensures value { effect_reading result ≡ named_call_read self.now.merged.now.program key target }
        ensures within { IsReadWithin (row_count self.now.merged.now.program) result }
    {
        let t = self.defined(key, target)?;
        Ok(Effect::Names(data(self.merged, t)))
    }

    // What a symbol does by a strong relocation of a kind, where the kind does something.
    fn by_kind(
        &self,
        key: u32,
        offset: u32,
        addend: i64,
        target: TargetSymbol,
        kind: RelocKind,
    ) -> Option<Result<Effect<'_>, Unreadable>>
        requires key { key < row_count self.now.merged.now.program }
        requires target { IsKeyBelow (row_count self.now.merged.now.program) target }
        ensures value { effect_reading_if result
            ≡ target_read_of self.now.merged.now.program key offset addend target kind }
        ensures within { IsIfReadWithin (row_count self.now.merged.now.program) result }
    {
        match kind {
            RelocKind::Addr => Some(self.plain(key, target)),
            RelocKind::Call => Some(self.plain(key, target)),
            RelocKind::PcRel => Some(self.plain(key, target)),
            RelocKind::AddrOff => Some(self.plain(key, target)),
            RelocKind::MethodOff => None,
            RelocKind::TlsLe => Some(self.plain(key, target)),
            RelocKind::UseIface => Some(self.usage(key, offset, target)),
            RelocKind::UseIfaceMethod => Some(self.call(key, addend, target)),
            RelocKind::UseNamedMethod => Some(self.named_call(key, target)),
            RelocKind::UseType => None,
            RelocKind::InitOrder => None,
            RelocKind::CallInd => None,
            RelocKind::Keep => Some(self.plain(key, target)),
            RelocKind::Ignore => None,
        }
    }

    // What relocation `i` of a definition refers to, if anything.
    pub fn reloc_symbol(&self, id: SymId, i: u32) -> Option<TargetSymbol>
        requires row { IsDefinitionRow self.now.merged.now.program id.0 }
        requires index { i < length (relocs_of self.now.merged.now.program id.0) }
        ensures value { result ≡ target_symbol_of (reloc_target self.now.merged.now.program id.0
            (get_or (relocs_of self.now.merged.now.program id.0) i no_reloc)) }
        ensures within { IsSymbolWithin (row_count self.now.merged.now.program) result }
    {
        target_symbol(self.merged.reloc_target(id, i))
    }

    /// What relocation `i` of a key does, if it is a strong one that does something; the key's chosen
    /// definition is row `id`.
    ///
    /// # Errors
    /// Its target has no definition; or what is read by it breaks a rule of type data.
    #[tactic(auto, unfolding(glk_reach::specs::Effects::reloc_read))]
    pub fn reloc_read(&self, key: u32, id: SymId, i: u32) -> Option<Result<Effect<'_>, Unreadable>>
        requires key { key < row_count self.now.merged.now.program }
        requires row { IsDefinitionRow self.now.merged.now.program id.0 }
        requires index { i < length (relocs_of self.now.merged.now.program id.0) }
        ensures value { effect_reading_if result ≡ reloc_read_of self.now.merged.now.program key id.0
            (get_or (relocs_of self.now.merged.now.program id.0) i no_reloc) }
        ensures within { IsIfReadWithin (row_count self.now.merged.now.program) result }
    {
        if self.merged.is_weak(id, i) {
            return None;
        }
        let kind = self.merged.reloc_kind(id, i)?;
        let target = self.reloc_symbol(id, i)?;
        let reloc = self.merged.reloc(id, i);
        self.by_kind(key, reloc.field_start(), reloc.add, target, kind)
    }

    // What relocation `i` of a key does, if that is found.
    fn reloc_effect(&self, key: u32, id: SymId, i: u32) -> Option<Effect<'_>>
        requires key { key < row_count self.now.merged.now.program }
        requires row { IsDefinitionRow self.now.merged.now.program id.0 }
        requires index { i < length (relocs_of self.now.merged.now.program id.0) }
        ensures value { effect_if result
            ≡ option_and_then found_of (reloc_read_of self.now.merged.now.program key id.0
            (get_or (relocs_of self.now.merged.now.program id.0) i no_reloc)) }
        ensures within { IfSome result (λ effect.
            IsWithin (row_count self.now.merged.now.program) (effect_view effect)) }
    {
        match self.reloc_read(key, id, i) {
            Some(Ok(effect)) => Some(effect),
            Some(Err(_)) => None,
            None => None,
        }
    }

    // Adds what a key does by its relocations.
    pub(crate) fn push_relocs<'s>(
        &'s self,
        key: u32,
        id: SymId,
        out: &mut Vec<Effect<'s>>,
    ) -> Result<(), OutOfMemory>
        requires key { key < row_count self.now.merged.now.program }
        requires row { IsDefinitionRow self.now.merged.now.program id.0 }
        ensures { OnOk result (Appends (row_count self.now.merged.now.program) out.old.items out.new.items
            (found_effects (map (reloc_read_of self.now.merged.now.program key id.0)
            (relocs_of self.now.merged.now.program id.0)))) }
    {
        for i in 0..self.merged.relocs(id) {
            let Some(effect) = self.reloc_effect(key, id, i) else {
                continue;
            };
            out.push(effect)?;
        }
        Ok(())
    }
}
