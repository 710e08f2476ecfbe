// The rules Q1 to Q5, each on one relocation.
ghost use Rattle.std.specs.Prelude.{◌≡◌, ◌<◌, ◌&&◌, length, not, false};
ghost use Rattle.std.specs.Option.{option_map_or};
ghost use Rattle.glk_faults.specs.Rules.{breaks as breaks_in, first_of};
ghost use Rattle.glk_reach.specs.Chosen.{key_relocs};
ghost use Rattle.glk_reach.specs.RelocKinds.{needs_no_target as needs_no_target_in, may_have_size as may_have_size_in};

use crate::relocs::{RelocFacts, SymbolRelocs};
use glk_obj::RelocKind;

// A rule on relocations.
#[derive(Clone, Copy, Debug, PartialEq, Eq)]
pub(crate) enum Rule {
    // Q1: its number is that of a kind.
    NoKind,
    // Q2: its size is one of its kind.
    OtherSize,
    // Q3: a longest run of METHODOFF relocations is made of threes.
    UnevenRun,
    // Q4: zeros have no fields.
    FieldInZeros,
    // Q5: it has a target, unless its kind needs none.
    NoTarget,
}

// Whether relocations of this kind may be without a target.
fn needs_no_target(kind: RelocKind) -> bool
    ensures { result ≡ needs_no_target_in kind }
{
    match kind {
        RelocKind::Addr => false,
        RelocKind::Call => false,
        RelocKind::PcRel => false,
        RelocKind::AddrOff => false,
        RelocKind::MethodOff => false,
        RelocKind::TlsLe => true,
        RelocKind::UseIface => false,
        RelocKind::UseIfaceMethod => false,
        RelocKind::UseNamedMethod => false,
        RelocKind::UseType => false,
        RelocKind::InitOrder => false,
        RelocKind::CallInd => true,
        RelocKind::Keep => false,
        RelocKind::Ignore => true,
    }
}

// Whether the fields of this kind may have this size in bytes; a kind without a field may have any.
fn may_have_size(kind: RelocKind, size: u8) -> bool
    ensures { result ≡ may_have_size_in kind size }
{
    match kind {
        RelocKind::Addr => size == 4 || size == 8,
        RelocKind::Call => size == 4,
        RelocKind::PcRel => size == 4,
        RelocKind::AddrOff => size == 4,
        RelocKind::MethodOff => size == 4,
        RelocKind::TlsLe => size == 4,
        RelocKind::UseIface => true,
        RelocKind::UseIfaceMethod => true,
        RelocKind::UseNamedMethod => true,
        RelocKind::UseType => true,
        RelocKind::InitOrder => true,
        RelocKind::CallInd => true,
        RelocKind::Keep => true,
        RelocKind::Ignore => true,
    }
}

impl RelocFacts {
    // Whether its kind has other sizes.
    pub(crate) fn has_other_size(self) -> bool
        ensures { result ≡ option_map_or (λ kind. not (may_have_size_in kind self.size)) self.kind false }
    {
        match self.kind {
            Some(kind) => !may_have_size(kind, self.size),
            None => false,
        }
    }

    // Whether it may be without a target.
    fn may_lack_target(self) -> bool
        ensures { result ≡ option_map_or needs_no_target_in self.kind false }
    {
        match self.kind {
            Some(kind) => needs_no_target(kind),
            None => false,
        }
    }

    // Whether it lacks a target that it needs.
    pub(crate) fn lacks_target(self) -> bool
        ensures { result ≡ (not self.has_target && not (option_map_or needs_no_target_in self.kind false)) }
    {
        !self.has_target && !self.may_lack_target()
    }
}

impl SymbolRelocs<'_, '_> {
    // Whether relocation `i` breaks a rule.
    fn breaks(&self, rule: Rule, i: u32) -> bool
        requires { i < length (key_relocs self.now.merged.now.program self.now.key) }
        ensures { result ≡ breaks_in self.now.merged.now.program self.now.key rule i }
    {
        match rule {
            Rule::NoKind => !self.facts(i).kind.is_some(),
            Rule::OtherSize => self.facts(i).has_other_size(),
            Rule::UnevenRun => self.begins_uneven_run(i),
            Rule::FieldInZeros => self.facts(i).is_field() && self.zeros,
            Rule::NoTarget => self.facts(i).lacks_target(),
        }
    }

    // The first relocation that breaks a rule.
    pub(crate) fn first_breaking(&self, rule: Rule) -> Option<u32>
        ensures { result ≡ first_of self.now.merged.now.program self.now.key
            (breaks_in self.now.merged.now.program self.now.key rule) }
    {
        for i in 0..self.count() {
            if self.breaks(rule, i) {
                return Some(i);
            }
        }
        None
    }
}
