// The first of the rules Q1 to Q6 that relocations break.
ghost use Rattle.std.specs.Prelude.{◌≡◌, ◌<◌, length, true, IfOk, IfSome};
ghost use Rattle.glk_faults.specs.Rules.{AreClean, IsNextEnd};
ghost use Rattle.glk_keys.specs.Rows.{row_count};
ghost use Rattle.glk_reach.specs.Chosen.{key_relocs};
ghost use Rattle.glk_reach.specs.RelocFaults.{reloc_fault as reloc_fault_of};

use crate::relocs::{RelocFacts, SymbolRelocs};
use crate::rules::Rule;
use glk_base::OutOfMemory;
use glk_merge::Merged;
use glk_reach::definition;
use std::alloc::Global;

const SHARED_BYTE: u8 = 6;

impl SymbolRelocs<'_, '_> {
    // Where the fields end, with one relocation more; none where its field is in zeros, or starts before
    // those end.
    fn next_end(&self, facts: RelocFacts, end: u64) -> Option<u64>
        ensures { IfSome result (IsNextEnd facts self.now.zeros end) }
    {
        if !facts.is_field() {
            return Some(end);
        }
        if self.zeros {
            return None;
        }
        if u64::from(facts.start) < end {
            return None;
        }
        Some(u64::from(facts.start) + u64::from(facts.size))
    }

    // Whether no relocation breaks a rule, but for Q3, and the fields rise. It goes over them once.
    fn are_clean(&self) -> bool
        ensures { result ≡ true → AreClean self.now.merged.now.program self.now.key
            (length (key_relocs self.now.merged.now.program self.now.key)) }
    {
        let mut end: u64 = 0;
        for i in 0..self.count() {
            let facts = self.facts(i);
            if !facts.kind.is_some() {
                return false;
            }
            if facts.has_other_size() {
                return false;
            }
            if facts.lacks_target() {
                return false;
            }
            let Some(next) = self.next_end(facts, end) else {
                return false;
            };
            end = next;
        }
        true
    }

    // The first of the rules that is broken, by looking for each.
    #[tactic(auto, unfolding(glk_reach::specs::RelocFaults::reloc_fault))]
    fn exact_fault(&self, alloc: Global) -> Result<Option<(u8, u32)>, OutOfMemory>
        ensures { IfOk result (λ fault. fault
            ≡ reloc_fault_of self.now.merged.now.program self.now.key) }
    {
        if let Some(i) = self.first_breaking(Rule::NoKind) {
            return Ok(Some((1, i)));
        }
        if let Some(i) = self.first_breaking(Rule::OtherSize) {
            return Ok(Some((2, i)));
        }
        if let Some(i) = self.first_breaking(Rule::UnevenRun) {
            return Ok(Some((3, i)));
        }
        if let Some(i) = self.first_breaking(Rule::FieldInZeros) {
            return Ok(Some((4, i)));
        }
        if let Some(i) = self.first_breaking(Rule::NoTarget) {
            return Ok(Some((5, i)));
        }
        let shared = self.first_shared(alloc)?;
        match shared {
            Some(i) => Ok(Some((SHARED_BYTE, i))),
            None => Ok(None),
        }
    }

    // The first of the rules that is broken, and the index of the first relocation that breaks it.
    #[tactic(auto, unfolding(glk_reach::specs::RelocFaults::reloc_fault))]
    fn first_fault(&self, alloc: Global) -> Result<Option<(u8, u32)>, OutOfMemory>
        ensures { IfOk result (λ fault. fault
            ≡ reloc_fault_of self.now.merged.now.program self.now.key) }
    {
        if !self.are_clean() {
            return self.exact_fault(alloc);
        }
        match self.first_breaking(Rule::UnevenRun) {
            Some(i) => Ok(Some((3, i))),
            None => Ok(None),
        }
    }
}

/// The first of the rules Q1 to Q6 that the relocations of a key break, by its number, and the index of
/// the first relocation that does. Where none is broken and fields rise, as compilers write them, it goes
/// over them twice, and takes no memory.
///
/// # Errors
/// Out of memory.
pub fn reloc_fault(
    alloc: Global,
    merged: &Merged<'_>,
    key: u32,
) -> Result<Option<(u8, u32)>, OutOfMemory>
    requires { key < row_count merged.now.program }
    ensures { IfOk result (λ fault. fault ≡ reloc_fault_of merged.now.program key) }
{
    match definition(merged, key) {
        Some(id) => SymbolRelocs::new(merged, key, id).first_fault(alloc),
        None => Ok(None),
    }
}
