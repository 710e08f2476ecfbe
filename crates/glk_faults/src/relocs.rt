// The relocations of a kept symbol, as the rules Q1 to Q6 read them.
ghost use Rattle.std.specs.Prelude.{◌≡◌, ◌<◌, ◌^◌, length, is_some, Some, false};
ghost use Rattle.glk_keys.specs.Relocations.{reloc_kind};
ghost use Rattle.glk_keys.specs.Rows.{row_count};
ghost use Rattle.glk_merge.specs.Mergings.{IsDefinitionRow};
ghost use Rattle.glk_obj.specs.Records.{field_start};
ghost use Rattle.glk_readings.specs.Triples.{is_methodoff_at, target_at};
ghost use Rattle.glk_reach.specs.Chosen.{definition_row, key_relocs, relocations_of};
ghost use Rattle.glk_reach.specs.KindFaults.{is_zeros as is_zeros_in};
ghost use Rattle.glk_reach.specs.RelocFaults.{reloc_in, is_field as is_field_in};
ghost use Rattle.glk_reach.specs.RelocKinds.{is_field_kind as is_field_kind_in, is_kind};
ghost use Rattle.glk_obj.specs.declared.kinds.RelocKind.TheVariants.{MethodOff};
ghost use Rattle.std.specs.Option.{option_map_or};

use glk_base::SymId;
use glk_kept::is_zeros;
use glk_merge::Merged;
use glk_obj::RelocKind;
use glk_reach::target_symbol;

// The relocations of a key with a definition, as the rules read them.
#[derive(Drop)]
pub struct SymbolRelocs<'m, 'a> {
    pub(crate) merged: &'m Merged<'a>,
    pub(crate) key: u32,
    // the row of its chosen definition
    pub(crate) id: SymId,
    pub(crate) zeros: bool,
    ghost row: { IsDefinitionRow merged.now.program id.0 },
    ghost chosen: { definition_row merged.now.program key ≡ Some id.0 },
    ghost zeros_are: { zeros ≡ is_zeros_in merged.now.program key },
}

// A relocation, as the rules read it.
#[derive(Clone, Copy, Debug)]
pub(crate) struct RelocFacts {
    // its kind, if its number means one
    pub(crate) kind: Option<RelocKind>,
    // where its field starts, and its size in bytes
    pub(crate) start: u32,
    pub(crate) size: u8,
    // whether it refers to something
    pub(crate) has_target: bool,
}

// Whether relocations of this kind write bytes.
pub(crate) fn is_field_kind(kind: RelocKind) -> bool
    ensures { result ≡ is_field_kind_in kind }
{
    match kind {
        RelocKind::Addr => true,
        RelocKind::Call => true,
        RelocKind::PcRel => true,
        RelocKind::AddrOff => true,
        RelocKind::MethodOff => true,
        RelocKind::TlsLe => true,
        RelocKind::UseIface => false,
        RelocKind::UseIfaceMethod => false,
        RelocKind::UseNamedMethod => false,
        RelocKind::UseType => false,
        RelocKind::InitOrder => false,
        RelocKind::CallInd => false,
        RelocKind::Keep => false,
        RelocKind::Ignore => false,
    }
}

impl RelocFacts {
    // Whether it writes bytes.
    pub(crate) fn is_field(self) -> bool
        ensures { result ≡ option_map_or is_field_kind_in self.kind false }
    {
        match self.kind {
            Some(kind) => is_field_kind(kind),
            None => false,
        }
    }

    // Whether it is a METHODOFF.
    pub(crate) fn is_methodoff(self) -> bool
        ensures { result ≡ is_kind MethodOff self.kind }
    {
        match self.kind {
            Some(RelocKind::MethodOff) => true,
            _ => false,
        }
    }
}

impl<'m, 'a> SymbolRelocs<'m, 'a> {
    // The relocations of a key whose chosen definition is row `id`.
    pub(crate) fn new(merged: &'m Merged<'a>, key: u32, id: SymId) -> SymbolRelocs<'m, 'a>
        requires key { key < row_count merged.now.program }
        requires row { IsDefinitionRow merged.now.program id.0 }
        requires chosen { definition_row merged.now.program key ≡ Some id.0 }
        ensures program { result.merged.now.program ≡ merged.now.program }
        ensures key { result.key ≡ key }
    {
        SymbolRelocs {
            merged,
            key,
            id,
            zeros: is_zeros(merged, key),
        }
    }

    // How many they are.
    pub(crate) fn count(&self) -> u32
        ensures { result ≡ length (key_relocs self.now.merged.now.program self.now.key) }
    {
        self.merged.relocs(self.id)
    }

    // Relocation `i`.
    pub(crate) fn facts(&self, i: u32) -> RelocFacts
        requires { i < length (key_relocs self.now.merged.now.program self.now.key) }
        ensures kind { result.kind ≡ reloc_kind self.now.merged.now.program
            (reloc_in self.now.merged.now.program self.now.key i) }
        ensures start { result.start ≡ field_start (reloc_in self.now.merged.now.program self.now.key i) }
        ensures small { result.start < 2 ^ 32 }
        ensures size { result.size ≡ (reloc_in self.now.merged.now.program self.now.key i).size }
        ensures target { result.has_target
            ≡ is_some (target_at (relocations_of self.now.merged.now.program self.now.key) i) }
    {
        let reloc = self.merged.reloc(self.id, i);
        RelocFacts {
            kind: self.merged.reloc_kind(self.id, i),
            start: reloc.field_start(),
            size: reloc.size,
            has_target: target_symbol(self.merged.reloc_target(self.id, i)).is_some(),
        }
    }

    // Whether relocation `i` is a METHODOFF.
    pub(crate) fn is_methodoff(&self, i: u32) -> bool
        requires { i < length (key_relocs self.now.merged.now.program self.now.key) }
        ensures { result ≡ is_methodoff_at (relocations_of self.now.merged.now.program self.now.key) i }
    {
        self.facts(i).is_methodoff()
    }
}
