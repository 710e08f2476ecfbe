// The value of any field of a kept symbol.
ghost use Rattle.std.specs.Prelude.{◌≡◌, ◌<◌, ◌≤◌, ◌^◌, length, get_or};
ghost use Rattle.std.specs.Option.{option_map};
ghost use Rattle.glk_keys.specs.Relocations.{relocs_of, no_reloc};
ghost use Rattle.glk_keys.specs.Rows.{row_count};
ghost use Rattle.glk_merge.specs.Accessors.{key_numbers};
ghost use Rattle.glk_merge.specs.Mergings.{IsDefinitionRow, IsTargetKey, IsSomeKey};
ghost use Rattle.glk_obj.specs.Views.{reloc_view};
ghost use Rattle.glk_placing.specs.Locations.{key_location};
ghost use Rattle.glk_placing.specs.Indices.{IsInSection};
ghost use Rattle.glk_reach.specs.Graphs.{find_defined as find_defined_in, stand_in as stand_in_of};
ghost use Rattle.glk_fields.specs.Values.{located_target, kept_target as kept_target_of, stand_in_address as stand_in_address_of, reloc_field as reloc_field_of, value_by, field_of};

use glk_base::{KeyId, SymId};
use glk_elf::IMAGE_BASE;
use glk_keys::{MAP_INIT_NOOP, Target as KeyTarget, UNREACHABLE_METHOD};
use glk_merge::Merged;
use glk_placing::{Location, Placement};
use glk_reach::is_defined;
use glk_reloc::{Field, StandIns, Target, field_value};
use std::marker::Model;

/// The values of the fields of a placed program. Contracts see the program.
#[derive(Drop)]
pub struct FieldValues<'p, 'm, 'a> {
    placement: &'p Placement<'m, 'a>,
    stand_ins: StandIns,
}

impl<'p, 'm, 'a> Model for FieldValues<'p, 'm, 'a> {
    ghost use Rattle.std.specs.Prelude.{◌≡◌};
    ghost use Rattle.glk_placing.specs.Programs.{PlacedProgram};
    ghost use Rattle.glk_fields.specs.Values.{stand_ins_of};

    ghost Value = { PlacedProgram };

    ghost view = { λ v. v.placement.now };

    ghost invariant = { λ v. v.stand_ins ≡ stand_ins_of v.placement.now };
}

const ABI0: u16 = 0;

const ABI_INTERNAL: u16 = 1;

// The key of this name and ABI, where it has a definition.
#[tactic(auto, unfolding(glk_reach::specs::Graphs::find_defined))]
fn find_defined(merged: &Merged<'_>, name: &[u8], abi: u16) -> Option<KeyId>
    ensures value { key_numbers result ≡ find_defined_in merged.now.program name.now abi }
    ensures key { IsSomeKey merged.now.program (key_numbers result) }
{
    let key = merged.find(name, abi)?;
    if !is_defined(merged, key.0) {
        return None;
    }
    Some(key)
}

// What stands for a symbol that is not kept: the one of the internal ABI, else that of ABI0.
#[tactic(auto, unfolding(glk_reach::specs::Graphs::stand_in))]
fn stand_in(merged: &Merged<'_>, name: &[u8]) -> Option<KeyId>
    ensures value { key_numbers result ≡ stand_in_of merged.now.program name.now }
    ensures key { IsSomeKey merged.now.program (key_numbers result) }
{
    match find_defined(merged, name, ABI_INTERNAL) {
        Some(key) => Some(key),
        None => find_defined(merged, name, ABI0),
    }
}

// Its address, if it is kept itself.
#[tactic(auto, unfolding(crate::specs::Values::stand_in_address))]
fn stand_in_address(placement: &Placement<'_, '_>, name: &[u8]) -> Option<u64>
    ensures { result ≡ stand_in_address_of placement.now name.now }
{
    let key = stand_in(placement.merged(), name)?;
    let location = placement.key_location(key.0)?;
    Some(location.address)
}

// What a field refers to that is there.
fn located_target(placement: &Placement<'_, '_>, location: Location) -> Target
    requires { IsInSection location }
    ensures { result ≡ located_target placement.now location }
{
    Target {
        address: location.address,
        section: placement.section_start(location.section),
    }
}

// What a relocation refers to, if it is kept.
fn kept_target(placement: &Placement<'_, '_>, target: KeyTarget) -> Option<Target>
    requires { IsTargetKey placement.now.program target }
    ensures { result ≡ kept_target_of placement.now target }
{
    match target {
        KeyTarget::Key(key) => {
            let location = placement.key_location(key.0)?;
            Some(located_target(placement, location))
        }
        KeyTarget::Nothing | KeyTarget::Missing { .. } => None,
    }
}

impl<'p, 'm, 'a> FieldValues<'p, 'm, 'a> {
    /// The values of the fields of a placed program. The time is that of two look-ups of names.
    pub fn new(placement: &'p Placement<'m, 'a>) -> FieldValues<'p, 'm, 'a>
        ensures { result ≡ placement.now }
    {
        FieldValues {
            placement,
            stand_ins: StandIns {
                unreachable_method: stand_in_address(placement, UNREACHABLE_METHOD.as_bytes()),
                mapinit_noop: stand_in_address(placement, MAP_INIT_NOOP.as_bytes()),
            },
        }
    }

    /// The placement.
    pub fn placement(&self) -> &'p Placement<'m, 'a>
        ensures { result.now ≡ self.now }
    {
        self.placement
    }

    /// The field that relocation `j` of a definition writes, if it writes one and the definition is at an
    /// address: a field has no value where its target is not kept and nothing stands for that, and
    /// then it keeps the object's data. It takes constant time.
    #[tactic(auto, unfolding(crate::specs::Values::reloc_field))]
    pub fn reloc_field(&self, id: SymId, address: u64, j: u32) -> Option<Field>
        requires row { IsDefinitionRow self.now.program id.0 }
        requires index { j < length (relocs_of self.now.program id.0) }
        requires low { address ≤ 2 ^ 62 }
        ensures { result ≡ reloc_field_of self.now id.0 address
            (get_or (relocs_of self.now.program id.0) j no_reloc) }
    {
        let merged = self.placement.merged();
        let reloc = merged.reloc(id, j);
        let kind = merged.reloc_kind(id, j)?;
        let target = kept_target(self.placement, merged.reloc_target(id, j));
        let at = address + reloc.field_start() as u64;
        let value = field_value(kind, target, self.stand_ins, reloc.add, at, reloc.size)?;
        Some(Field {
            at: at.saturating_sub(IMAGE_BASE),
            size: reloc.size,
            kind,
            value,
        })
    }
}
