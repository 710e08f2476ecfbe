// The relocations of a symbol by their offsets.
ghost use Rattle.std.specs.Prelude.{◌≡◌, ◌<◌, ◌≤◌, ◌^◌, ℕ, List, length, Some, IfOk, IfErr, IsTrue, slice_get};
ghost use Rattle.glk_readings.specs.declared.symbols.Relocation.{Relocation};
ghost use Rattle.glk_readings.specs.Offsets.{least_next as least_next_of, targets_of, IsRising, IsBoundary, IsIndexOf, keeps_nothing as keeps_nothing_in};
ghost use Rattle.glk_readings.specs.References.{reference_at};

use crate::symbols::Relocation;
use glk_base::OutOfMemory;
use glk_types::target_at;
use std::alloc::Global;

/// The relocations of one symbol.
pub trait Relocations {
    ghost list: { Self → List Relocation };

    /// How many they are.
    fn count(&self) -> u32
        ensures { result ≡ length (list self.now) };

    /// Relocation `i`.
    fn reloc(&self, i: u32) -> Relocation
        requires { i < length (list self.now) }
        ensures { slice_get (list self.now) i ≡ Some result };
}

/// Finds the relocations of a symbol by their offsets. Where the offsets rise, as compilers write
/// them, nothing is kept; else the relocations that have a target are, in order, in eight bytes each.
#[derive(Drop)]
pub struct OffsetIndex {
    // offsets and indices, by offset and then by index; none where the offsets rise
    pub(crate) sorted: Option<Vec<(u32, u32)>>,
}

// The least offset that may follow a relocation where offsets rise: a relocation without a target is
// passed over, so that the next one has to have another offset.
fn least_next(reloc: Relocation) -> u64
    ensures { result ≡ least_next_of reloc }
{
    if reloc.target.is_some() {
        return u64::from(reloc.offset);
    }
    u64::from(reloc.offset) + 1
}

// Whether the offsets rise.
fn is_rising<R: Relocations>(relocs: &R) -> bool
    ensures { IsTrue result → IsRising (R.list relocs.now) }
{
    let mut least = 0;
    for i in 0..relocs.count() {
        let reloc = relocs.reloc(i);
        if u64::from(reloc.offset) < least {
            return false;
        }
        least = least_next(reloc);
    }
    true
}

// Where the relocations begin whose offsets are not below this one, by halves.
fn boundary<R: Relocations>(relocs: &R, offset: u32) -> u32
    requires { IsRising (R.list relocs.now) }
    ensures { IsBoundary (R.list relocs.now) offset result }
{
    let mut low = 0;
    let mut high = relocs.count();
    while low < high {
        let middle = low + (high - low) / 2;
        if relocs.reloc(middle).offset < offset {
            low = middle + 1;
        } else {
            high = middle;
        }
    }
    low
}

// The first relocation with this offset and a target, where offsets rise.
fn rising_reloc<R: Relocations>(relocs: &R, offset: u32) -> Option<Relocation>
    requires { IsRising (R.list relocs.now) }
    ensures { result ≡ reference_at (R.list relocs.now) offset }
{
    let at = boundary(relocs, offset);
    if at == relocs.count() {
        return None;
    }
    let reloc = relocs.reloc(at);
    if reloc.offset != offset || reloc.target.is_none() {
        return None;
    }
    Some(reloc)
}

// The relocations with a target, by offset and index, in the order of their indices.
fn targets<R: Relocations>(alloc: Global, relocs: &R) -> Result<Vec<(u32, u32)>, OutOfMemory>
    ensures { IfOk result (λ pairs. pairs.items ≡ targets_of 0 (R.list relocs.now)) }
{
    let mut pairs = Vec::new(alloc);
    for i in 0..relocs.count() {
        let reloc = relocs.reloc(i);
        if reloc.target.is_none() {
            continue;
        }
        pairs.push((reloc.offset, i))?;
    }
    Ok(pairs)
}

impl OffsetIndex {
    /// The index of a symbol's relocations. It goes over them once, and sorts them where their
    /// offsets don't rise: so it is made once for a symbol that is read often.
    ///
    /// # Errors
    /// Out of memory.
    pub fn new<R: Relocations>(alloc: Global, relocs: &R) -> Result<OffsetIndex, OutOfMemory>
        ensures { IfOk result (λ index. IsIndexOf (R.list relocs.now) index) }
    {
        if is_rising(relocs) {
            return Ok(OffsetIndex { sorted: None });
        }
        let mut pairs = targets(alloc, relocs)?;
        pairs.sort_by_key(|pair| pair.0)?;
        Ok(OffsetIndex {
            sorted: Some(pairs),
        })
    }

    /// The index of relocations whose offsets rise, whatever they are. It keeps nothing.
    pub fn rising() -> OffsetIndex
        ensures { IsTrue (keeps_nothing_in result) }
    {
        OffsetIndex { sorted: None }
    }

    /// Whether it keeps nothing, since the offsets rise.
    pub fn keeps_nothing(&self) -> bool
        ensures { result ≡ keeps_nothing_in self.now }
    {
        self.sorted.is_none()
    }

    /// The first of the symbol's relocations that has this offset and a target, by halves.
    pub fn find<R: Relocations>(&self, relocs: &R, offset: u32) -> Option<Relocation>
        requires { IsIndexOf (R.list relocs.now) self.now }
        ensures { result ≡ reference_at (R.list relocs.now) offset }
    {
        match &self.sorted {
            None => rising_reloc(relocs, offset),
            Some(pairs) => match target_at(pairs.as_slice(), offset) {
                Ok(i) => Some(relocs.reloc(i)),
                Err(_) => None,
            },
        }
    }
}
