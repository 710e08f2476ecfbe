// Q6: fields that share a byte with an earlier one.
ghost use Rattle.std.specs.Prelude.{◌≡◌, ◌<◌, ◌≤◌, ◌+◌, ◌^◌, ℕ, true, false, IfOk, Some, None, nat_eq};
ghost use Rattle.std.specs.Option.{option_map_or};
ghost use Rattle.std.specs.HashMap.{get};
ghost use Rattle.glk_faults.specs.Rules.{first_of};
ghost use Rattle.glk_faults.specs.Taken.{Sharer, shares as shares_in};
ghost use Rattle.glk_reach.specs.RelocFaults.{has_other_size, shares_byte_with_earlier};

use crate::relocs::SymbolRelocs;
use glk_base::OutOfMemory;
use std::alloc::Global;
use std::collections::HashMap;

// The most bytes that a field has.
const MAX_FIELD: u32 = 8;

// Whether a field shares a byte with the one that was met from `other` on, if one was.
fn shares_from(taken: &HashMap<u32, u8>, start: u32, size: u8, other: u32) -> bool
    ensures { result ≡ option_map_or (shares_in start size other) (get nat_eq taken.now other) false }
{
    match taken.get(&other) {
        Some(bytes) => {
            u64::from(other) < u64::from(start) + u64::from(size)
                && u64::from(start) < u64::from(other) + u64::from(*bytes)
        }
        None => false,
    }
}

// Whether a field shares a byte with one that was met: those start at most eight bytes before it.
fn is_taken(taken: &HashMap<u32, u8>, start: u32, size: u8) -> bool
    ensures some { result ≡ true → Sharer taken.now start size }
    ensures none { result ≡ false → (other bytes : ℕ) → start ≤ other + 8 → other < start + size
        → other < 2 ^ 32 → get nat_eq taken.now other ≡ Some bytes → shares_in start size other bytes ≡ false }
{
    let low = u64::from(start.saturating_sub(MAX_FIELD));
    let high = (u64::from(start) + u64::from(size)).min(1 << 32);
    for other in low..high {
        if shares_from(taken, start, size, other as u32) {
            return true;
        }
    }
    false
}

impl SymbolRelocs<'_, '_> {
    // The first field that shares a byte with an earlier one, where all have a size of their kind: so at
    // most eight bytes.
    pub(crate) fn first_shared(&self, alloc: Global) -> Result<Option<u32>, OutOfMemory>
        requires { first_of self.now.merged.now.program self.now.key
            (has_other_size self.now.merged.now.program self.now.key) ≡ None }
        ensures { IfOk result (λ first. first ≡ first_of self.now.merged.now.program self.now.key
            (shares_byte_with_earlier self.now.merged.now.program self.now.key)) }
    {
        let mut taken: HashMap<u32, u8> = HashMap::new(alloc);
        for i in 0..self.count() {
            let facts = self.facts(i);
            if !facts.is_field() {
                continue;
            }
            if is_taken(&taken, facts.start, facts.size) {
                return Ok(Some(i));
            }
            taken.insert(facts.start, facts.size)?;
        }
        Ok(None)
    }
}
