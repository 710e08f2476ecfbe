// What a field of a record holds: a string that is named, or a symbol that is meant.
ghost use Rattle.std.specs.Prelude.{◌≡◌, ◌+◌, ◌<◌, ◌≤◌, ◌↔◌, ℕ, length, slice_range, IsTrue};
ghost use Rattle.glk_obj.specs.Layout.{HasLayout};
ghost use Rattle.glk_obj.specs.Records.{text_at};
ghost use Rattle.glk_obj.specs.References.{PassesEnd, HoldsNul, in_range, IsOutOfRangeAt};
ghost use Rattle.glk_obj.specs.ReferenceRanges.{IsRangeOf};
ghost use Rattle.glk_obj.specs.Views.{ref_view};
ghost use Rattle.glk_obj.specs.NulIndex.{IsNulIndex};
ghost use Rattle.glk_base.specs.Least.{LeastOf};
ghost use Rattle.glk_base.specs.Rules.{IsIntact};
ghost use Rattle.glk_obj.specs.Rules.{Breaks, HasStringWithNul};

use crate::blocks::{Block, count};
use crate::fields::{Field, FieldTest, first_failing};
use crate::nul_index::{chunk_width, fill_nul_index, has_nul};
use crate::packages::{
    BUILTIN_PACKAGE, HASHED_PACKAGE, HASHED64_PACKAGE, NIL_PACKAGE, NONE_PACKAGE, SELF_PACKAGE,
};
use crate::records::{SymRef, reference};
use glk_base::le32;

/// Where the string that is named here begins and ends.
#[tactic(auto, unfolding(crate::specs::Records::text_at, crate::specs::References::PassesEnd))]
pub(crate) fn text_range(bytes: &[u8], at: usize) -> (usize, usize)
    requires room { at + 8 ≤ length bytes.now }
    requires inside { PassesEnd bytes.now at → ⊥ }
    ensures text { text_at bytes.now at ≡ slice_range bytes.now result.0 result.1 }
    ensures order { result.0 ≤ result.1 }
    ensures within { result.1 ≤ length bytes.now }
{
    let from = le32(bytes, at + 4).unwrap() as usize;
    (from, from + le32(bytes, at).unwrap() as usize)
}

/// The string that is named here.
pub(crate) fn text(bytes: &[u8], at: usize) -> &[u8]
    requires room { at + 8 ≤ length bytes.now }
    requires inside { PassesEnd bytes.now at → ⊥ }
    ensures { result.now ≡ text_at bytes.now at }
{
    let (from, to) = text_range(bytes, at);
    &bytes[from..to]
}

/// A string ends past the object's end.
#[derive(Drop)]
pub(crate) struct StringPastEnd;

impl FieldTest for StringPastEnd {
    ghost knows = { λ _ _. Unit {0} };

    ghost can = { λ _ _. Unit {0} };

    ghost bad = { PassesEnd };

    #[tactic(auto, unfolding(crate::specs::References::PassesEnd))]
    fn fails(&self, bytes: &[u8], at: usize) -> bool {
        let start = le32(bytes, at + 4).unwrap() as usize;
        bytes.len() < start + le32(bytes, at).unwrap() as usize
    }
}

/// A string has a zero byte. The table is an index of the zero bytes, so a string that millions of
/// records share is not read for each of them.
#[derive(Drop)]
pub(crate) struct StringHasNul<'t> {
    width: usize,
    table: &'t [usize],
}

impl<'t> FieldTest for StringHasNul<'t> {
    ghost knows = { λ test b. IsNulIndex b test.width test.table.now };

    ghost can = { λ b at. PassesEnd b at → ⊥ };

    ghost bad = { HoldsNul };

    fn fails(&self, bytes: &[u8], at: usize) -> bool {
        let (from, to) = text_range(bytes, at);
        has_nul(bytes, from, to, self.width, self.table)
    }
}

//// The ranges of an object's references. The numbers of records are read once, since an object may
/// have millions of references.
#[derive(Clone, Copy, Debug)]
pub(crate) struct ReferenceRange {
    // How many symbols have no package, in two blocks.
    without_package: u64,
    hashed64: u32,
    hashed: u32,
    own: u32,
    // How many entries PkgIdx has.
    packages: u32,
}

impl ReferenceRange {
    /// The ranges of this object.
    pub(crate) fn of(bytes: &[u8]) -> ReferenceRange
        requires { HasLayout bytes.now }
        ensures { IsRangeOf bytes.now result }
    {
        ReferenceRange {
            without_package: count(bytes, Block::Nonpkgdef) as u64
                + count(bytes, Block::Nonpkgref) as u64,
            hashed64: count(bytes, Block::Hashed64def),
            hashed: count(bytes, Block::Hasheddef),
            own: count(bytes, Block::Symdef),
            packages: count(bytes, Block::PkgIdx),
        }
    }

    /// Whether a reference is in range.
    #[tactic(auto, unfolding(crate::specs::References::in_range))]
    pub(crate) fn has(&self, bytes: &[u8], r: SymRef) -> bool
        requires { IsRangeOf bytes.now self.now }
        ensures { result ≡ in_range bytes.now (ref_view r) }
    {
        let _ = bytes;
        let SymRef { pkg, sym } = r;
        match pkg {
            NIL_PACKAGE => sym == 0,
            NONE_PACKAGE => (sym as u64) < self.without_package,
            HASHED64_PACKAGE => sym < self.hashed64,
            HASHED_PACKAGE => sym < self.hashed,
            BUILTIN_PACKAGE => true,
            SELF_PACKAGE => sym < self.own,
            _ => pkg < self.packages,
        }
    }
}

/// A reference is out of range.
#[derive(Drop)]
pub(crate) struct TargetOutOfRange {
    range: ReferenceRange,
}

impl TargetOutOfRange {
    /// The test for references of this object.
    pub(crate) fn of(bytes: &[u8]) -> TargetOutOfRange
        requires { HasLayout bytes.now }
        ensures { IsRangeOf bytes.now result.range }
    {
        TargetOutOfRange {
            range: ReferenceRange::of(bytes),
        }
    }
}

impl FieldTest for TargetOutOfRange {
    ghost knows = { λ test b. IsRangeOf b test.range };

    ghost can = { λ _ _. Unit {0} };

    ghost bad = { IsOutOfRangeAt };

    #[tactic(auto, unfolding(crate::specs::References::IsOutOfRangeAt))]
    fn fails(&self, bytes: &[u8], at: usize) -> bool {
        !self.range.has(bytes, reference(bytes, at))
    }
}

// How many chunks an object is cut into at most, for the index of its zero bytes.
const CHUNKS: usize = 16_384;

// The same of a small object.
const FEW_CHUNKS: usize = 256;

// How long a small object is at most, in bytes.
const SMALL: usize = 1 << 16;

// V12, with an index in this table.
fn string_with_nul_with(bytes: &[u8], table: &mut [usize]) -> Option<u64>
    requires before { IsIntact (Breaks bytes.now) 11 }
    requires layout { HasLayout bytes.now }
    requires room { 0 < length table.old }
    ensures { LeastOf (HasStringWithNul bytes.now) result }
{
    let width = chunk_width(bytes.len(), table.len());
    fill_nul_index(bytes, width, table);
    first_failing(bytes, Field::Text, &StringHasNul { width, table })
}

// V12 of a small object: thousands are checked in a link, so it pays for no large table.
#[inline(never)]
fn string_with_nul_of_small(bytes: &[u8]) -> Option<u64>
    requires before { IsIntact (Breaks bytes.now) 11 }
    requires layout { HasLayout bytes.now }
    ensures { LeastOf (HasStringWithNul bytes.now) result }
{
    string_with_nul_with(bytes, &mut [0; FEW_CHUNKS])
}

// V12 of any object.
#[inline(never)]
fn string_with_nul_of_large(bytes: &[u8]) -> Option<u64>
    requires before { IsIntact (Breaks bytes.now) 11 }
    requires layout { HasLayout bytes.now }
    ensures { LeastOf (HasStringWithNul bytes.now) result }
{
    string_with_nul_with(bytes, &mut [0; CHUNKS])
}

/// V12: a string has a zero byte.
pub(crate) fn string_with_nul(bytes: &[u8]) -> Option<u64>
    requires before { IsIntact (Breaks bytes.now) 11 }
    requires layout { HasLayout bytes.now }
    ensures { LeastOf (HasStringWithNul bytes.now) result }
{
    if bytes.len() <= SMALL {
        string_with_nul_of_small(bytes)
    } else {
        string_with_nul_of_large(bytes)
    }
}
