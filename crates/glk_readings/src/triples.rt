// The method triples of a symbol.
ghost use Rattle.std.specs.Prelude.{◌≡◌, ◌<◌, ◌+◌, ◌%◌, length, OnOk, if◌then◌else◌};
ghost use Rattle.glk_readings.specs.Triples.{run_before, triple_from as triple_in, triples_of};

use crate::symbols::{Symbols, TargetSymbol};
use glk_base::OutOfMemory;

/// A method triple: three METHODOFF relocations, which fill a method's entry.
#[derive(Clone, Copy, Debug, PartialEq, Eq)]
pub struct MethodTriple {
    /// The index of the first of them.
    pub index: u32,
    /// The method's type.
    pub first: Option<TargetSymbol>,
    /// The code for calls through an interface.
    pub second: Option<TargetSymbol>,
    /// The code for other calls.
    pub third: Option<TargetSymbol>,
}

// How many METHODOFF relocations stand directly before the next relocation, by threes.
fn next_phase(is_methodoff: bool, phase: u8) -> u8
    requires { phase < 3 }
    ensures { result ≡ (if is_methodoff then (phase + 1) % 3 else 0) }
{
    if is_methodoff { (phase + 1) % 3 } else { 0 }
}

// The triple that begins at a relocation, before which this many METHODOFFs stand by threes.
#[tactic(auto, unfolding(crate::specs::Triples::triple_from))]
fn triple_from<S: Symbols>(symbols: &S, key: u32, i: u32, phase: u8) -> Option<MethodTriple>
    requires key { key < (S.table symbols.now).keys }
    requires index { i < length ((S.table symbols.now).relocs key) }
    requires phase { phase ≡ run_before ((S.table symbols.now).relocs key) i % 3 }
    ensures { result ≡ triple_in ((S.table symbols.now).relocs key) i }
{
    if phase != 0 {
        return None;
    }
    if symbols.reloc_count(key) - i < 3 {
        return None;
    }
    let first = symbols.reloc(key, i);
    let second = symbols.reloc(key, i + 1);
    let third = symbols.reloc(key, i + 2);
    if !first.is_methodoff || !second.is_methodoff || !third.is_methodoff {
        return None;
    }
    Some(MethodTriple {
        index: i,
        first: first.target,
        second: second.target,
        third: third.target,
    })
}

/// Replaces what is in a buffer by the method triples of a key, in their order: three METHODOFF
/// relocations each, counted by threes from where a longest run of them begins.
///
/// # Errors
/// Out of memory: the buffer holds anything.
#[tactic(auto, unfolding(crate::specs::Triples::triples_of))]
pub fn method_triples<S: Symbols>(
    symbols: &S,
    key: u32,
    out: &mut Vec<MethodTriple>,
) -> Result<(), OutOfMemory>
    requires { key < (S.table symbols.now).keys }
    ensures { OnOk result (out.new.items ≡ triples_of ((S.table symbols.now).relocs key)) }
{
    out.clear();
    let mut phase = 0;
    for i in 0..symbols.reloc_count(key) {
        let triple = triple_from(symbols, key, i, phase);
        phase = next_phase(symbols.reloc(key, i).is_methodoff, phase);
        let Some(found) = triple else {
            continue;
        };
        out.push(found)?;
    }
    Ok(())
}
