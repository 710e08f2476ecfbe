// Objects that break no rule, read in place.
ghost use Rattle.std.specs.Prelude.{◌≡◌, ◌+◌, ◌<◌, ◌≤◌, length, slice_range, IsTrue, IfOk, OnOk, IfErr, OnErr};
ghost use Rattle.std.specs.Option.{option_copied};
ghost use Rattle.glk_base.specs.Rules.{FirstBroken};
ghost use Rattle.glk_obj.specs.Blocks.{count as count_of, autolib, pkg_idx, file, ref_flags, hash64, hasheddef, ref_name as ref_name_block};
ghost use Rattle.glk_obj.specs.Object.{IsObject};
ghost use Rattle.glk_obj.specs.Positive.{IsTarget, HasDataWithin, HasFieldWithin};
ghost use Rattle.glk_obj.specs.References.{in_range};
ghost use Rattle.glk_obj.specs.Records.{fingerprint, flags, symbols, definitions, symbol_at, data_at, data_length, reloc_count, reloc_at, aux_count, aux_at, autolib_at, pkg_at, file_at, hash64_at, hash_at, ref_flags_at, ref_name, ref_name_at, hash_width};
ghost use Rattle.glk_obj.specs.Rules.{Breaks, IsContentKind, IsAlign};
ghost use Rattle.glk_obj.specs.Views.{IsShapeOf, number_of, ref_view, symbol_view, reloc_view, aux_view, ref_flags_view};

use crate::blocks::{Block, FINGERPRINT, FLAGS, Offsets, count};
use crate::check::{ObjBad, check};
use crate::offsets::{
    aux_offset, data_part, eight_bytes, entries, find_name, hash_part, name_range, named_offset,
    record_offset, ref_flags_offset, ref_name_offset, reloc_offset, symbol_of,
};
use crate::records::{
    AuxRec, RefFlagsRec, RelocRec, SymRec, SymRef, auxiliary, reference, reference_flags,
    relocation,
};
use crate::references::{ReferenceRange, text};
use crate::rules::{definitions as definition_count, symbols as symbol_count};
use glk_base::le32;
use std::marker::Model;

/// Where the blocks of a checked object begin, from which the numbers of their records follow. It is
/// kept beside the object's bytes, and makes a view of them at any time without another check.
#[derive(Clone, Copy, Debug)]
pub struct ObjShape {
    offsets: Offsets,
}

impl ObjShape {
    /// The shape of an object. The time is linear in the bytes, but for the strings: of each that is
    /// named at most one chunk is read, 64 bytes or a 16,384th part of the object, and of a small
    /// object a 256th, however long the string is and however many records share it.
    ///
    /// # Errors
    ///
    /// The first of the rules V1 to V16 that the bytes break, and the least offset at which they
    /// break it.
    pub fn check(bytes: &[u8]) -> Result<ObjShape, ObjBad>
        ensures ok { IfOk result (IsShapeOf bytes.now) }
        ensures object { OnOk result (IsObject bytes.now) }
        ensures err { IfErr result (λ bad. FirstBroken (Breaks bytes.now) bad.rule bad.offset) }
        ensures refused { OnErr result (¬ IsObject bytes.now) }
    {
        check(bytes)?;
        Ok(ObjShape {
            offsets: Offsets::read(bytes),
        })
    }

    /// The object whose shape this is.
    pub fn view<'a>(&self, bytes: &'a [u8]) -> ObjView<'a>
        requires { IsShapeOf bytes.now self.now }
        ensures { result ≡ bytes.now }
    {
        ObjView {
            bytes,
            offsets: self.offsets,
        }
    }
}

/// An object that breaks no rule. Contracts see it as its bytes.
#[derive(Drop)]
pub struct ObjView<'a> {
    bytes: &'a [u8],
    offsets: Offsets,
}

impl<'a> Model for ObjView<'a> {
    ghost use Rattle.std.specs.Prelude.{List, ℕ};
    ghost use Rattle.glk_obj.specs.Object.{Fits};

    ghost Value = { List ℕ };

    ghost view = { λ o. o.bytes.now };

    ghost invariant = { λ o. Fits o.bytes.now o.offsets.starts };
}

impl<'a> ObjView<'a> {
    /// The object in these bytes. The time is that of `ObjShape::check`.
    ///
    /// # Errors
    ///
    /// The first of the rules V1 to V16 that the bytes break, and the least offset at which they
    /// break it.
    pub fn read(bytes: &'a [u8]) -> Result<ObjView<'a>, ObjBad>
        ensures ok { IfOk result (λ o. o ≡ bytes.now) }
        ensures object { OnOk result (IsObject bytes.now) }
        ensures err { IfErr result (λ bad. FirstBroken (Breaks bytes.now) bad.rule bad.offset) }
        ensures refused { OnErr result (¬ IsObject bytes.now) }
    {
        let shape = ObjShape::check(bytes)?;
        Ok(shape.view(bytes))
    }

    /// The bytes by which this compilation of the package differs from others.
    pub fn fingerprint(&self) -> [u8; 8]
        ensures { result ≡ fingerprint self.now }
    {
        eight_bytes(self.bytes, FINGERPRINT)
    }

    /// The flags of the header; bit 2 marks an object from assembly.
    pub fn flags(&self) -> u32
        ensures { result ≡ flags self.now }
    {
        le32(self.bytes, FLAGS).unwrap()
    }

    /// How many records the block has: for `Hash` the number of Hasheddef, for `End` 0.
    #[tactic(auto, unfolding(crate::specs::Blocks::count))]
    pub fn count(&self, block: Block) -> u32
        ensures object { IsObject self.now }
        ensures value { result ≡ count_of self.now (number_of block) }
    {
        match block {
            Block::Hash => count(self.bytes, Block::Hasheddef),
            Block::End => 0,
            _ => count(self.bytes, block),
        }
    }

    /// How many definitions there are: local indices below this number.
    pub fn definitions(&self) -> u32
        ensures object { IsObject self.now }
        ensures value { result ≡ definitions self.now }
    {
        definition_count(self.bytes)
    }

    /// How many symbols there are, definitions and references without a package.
    pub fn symbols(&self) -> u32
        ensures object { IsObject self.now }
        ensures value { result ≡ symbols self.now }
    {
        symbol_count(self.bytes)
    }

    /// Package `k` that the object was compiled against: its path, and its fingerprint then.
    #[tactic(auto, unfolding(crate::specs::Blocks::width_of))]
    pub fn autolib(&self, k: u32) -> (&'a [u8], [u8; 8])
        requires { k < count_of self.now autolib }
        ensures path { result.0.now ≡ (autolib_at self.now k).path }
        ensures fingerprint { result.1 ≡ (autolib_at self.now k).fingerprint }
    {
        let at = named_offset(
            self.bytes,
            Block::Autolib,
            self.offsets.of(Block::Autolib),
            k,
        );
        (text(self.bytes, at), eight_bytes(self.bytes, at + 8))
    }

    /// The path of package `k` of PkgIdx as it is stored, plain or escaped; entry 0 is a dummy.
    #[tactic(auto, unfolding(crate::specs::Blocks::width_of))]
    pub fn pkg(&self, k: u32) -> &'a [u8]
        requires { k < count_of self.now pkg_idx }
        ensures { result.now ≡ pkg_at self.now k }
    {
        let at = named_offset(self.bytes, Block::PkgIdx, self.offsets.of(Block::PkgIdx), k);
        text(self.bytes, at)
    }

    /// The name of source file `k`.
    #[tactic(auto, unfolding(crate::specs::Blocks::width_of))]
    pub fn file(&self, k: u32) -> &'a [u8]
        requires { k < count_of self.now file }
        ensures { result.now ≡ file_at self.now k }
    {
        let at = named_offset(self.bytes, Block::File, self.offsets.of(Block::File), k);
        text(self.bytes, at)
    }

    /// The symbol of local index `i`, which runs through Symdef, Hashed64def, Hasheddef, Nonpkgdef
    /// and Nonpkgref.
    pub fn sym(&self, i: u32) -> SymRec<'a>
        requires { i < symbols self.now }
        ensures object { IsObject self.now }
        ensures value { symbol_view result ≡ symbol_at self.now i }
        ensures aligned { IsContentKind result.kind → IsAlign result.align }
    {
        symbol_of(self.bytes, self.offsets.of(Block::Symdef), i)
    }

    /// Where the name of symbol `i` is in the object. Symbols that share one string have one range,
    /// so a caller can tell that two names are equal before it looks at their bytes.
    pub fn name_range(&self, i: u32) -> (usize, usize)
        requires { i < symbols self.now }
        ensures name { (symbol_at self.now i).name ≡ slice_range self.now result.0 result.1 }
        ensures order { result.0 ≤ result.1 }
        ensures within { result.1 ≤ length self.now }
    {
        name_range(self.bytes, self.offsets.of(Block::Symdef), i)
    }

    /// The data of definition `i`.
    pub fn data(&self, i: u32) -> &'a [u8]
        requires { i < definitions self.now }
        ensures object { IsObject self.now }
        ensures value { result.now ≡ data_at self.now i }
        ensures len { length result.now ≡ data_length self.now i }
        ensures within { HasDataWithin (symbol_at self.now i) (length result.now) }
    {
        let (from, to) = entries(
            self.bytes,
            Block::DataIdx,
            self.offsets.of(Block::DataIdx),
            i,
        );
        data_part(self.bytes, self.offsets.of(Block::Data), i, from, to)
    }

    /// How many relocations definition `i` has.
    pub fn relocs(&self, i: u32) -> u32
        requires { i < definitions self.now }
        ensures object { IsObject self.now }
        ensures value { result ≡ reloc_count self.now i }
    {
        let (from, to) = entries(
            self.bytes,
            Block::RelocIdx,
            self.offsets.of(Block::RelocIdx),
            i,
        );
        to - from
    }

    /// Relocation `k` of definition `i`.
    pub fn reloc(&self, i: u32, k: u32) -> RelocRec
        requires definition { i < definitions self.now }
        requires index { k < reloc_count self.now i }
        ensures value { reloc_view result ≡ reloc_at self.now i k }
        ensures target { IsTarget self.now (ref_view result.target) }
        ensures within { HasFieldWithin (symbol_at self.now i) (reloc_view result) }
    {
        let (from, _) = entries(
            self.bytes,
            Block::RelocIdx,
            self.offsets.of(Block::RelocIdx),
            i,
        );
        let at = reloc_offset(self.bytes, self.offsets.of(Block::Reloc), from, i, k);
        relocation(self.bytes, at)
    }

    /// How many auxes definition `i` has.
    pub fn auxes(&self, i: u32) -> u32
        requires { i < definitions self.now }
        ensures object { IsObject self.now }
        ensures value { result ≡ aux_count self.now i }
    {
        let (from, to) = entries(self.bytes, Block::AuxIdx, self.offsets.of(Block::AuxIdx), i);
        to - from
    }

    /// Aux `k` of definition `i`.
    pub fn aux(&self, i: u32, k: u32) -> AuxRec
        requires definition { i < definitions self.now }
        requires index { k < aux_count self.now i }
        ensures value { aux_view result ≡ aux_at self.now i k }
        ensures target { IsTarget self.now (ref_view result.target) }
    {
        let (from, _) = entries(self.bytes, Block::AuxIdx, self.offsets.of(Block::AuxIdx), i);
        let at = aux_offset(self.bytes, self.offsets.of(Block::Aux), from, i, k);
        auxiliary(self.bytes, at)
    }

    /// The hash of Hashed64def `k`.
    #[tactic(auto, unfolding(crate::specs::Blocks::width_of))]
    pub fn hash64(&self, k: u32) -> [u8; 8]
        requires { k < count_of self.now hash64 }
        ensures { result ≡ hash64_at self.now k }
    {
        let at = record_offset(self.bytes, Block::Hash64, self.offsets.of(Block::Hash64), k);
        eight_bytes(self.bytes, at)
    }

    /// The hash of Hasheddef `k`; all of an object have one length, from 8 to 64.
    pub fn hash(&self, k: u32) -> &'a [u8]
        requires { k < count_of self.now hasheddef }
        ensures { result.now ≡ hash_at self.now k }
    {
        let start = self.offsets.of(Block::Hash);
        let extent = self.offsets.of(Block::RelocIdx) - start;
        let hashes = count(self.bytes, Block::Hasheddef);
        hash_part(self.bytes, start, extent, hashes, k)
    }

    /// The width of the long hashes in bytes, from 8 to 64, where there are any.
    #[tactic(auto, unfolding(crate::specs::Records::hash_width))]
    pub fn hash_width(&self) -> Option<u32>
        ensures { result ≡ hash_width self.now }
    {
        let hashes = count(self.bytes, Block::Hasheddef);
        if hashes == 0 {
            return None;
        }
        let extent = self.offsets.of(Block::RelocIdx) - self.offsets.of(Block::Hash);
        Some(extent / hashes)
    }

    /// Whether a reference is in range in the object, as rule V13 wants it of those in records. It
    /// serves references inside data, which no rule looks at.
    pub fn in_range(&self, r: SymRef) -> bool
        ensures value { result ≡ in_range self.now (ref_view r) }
        ensures target { IsTrue result → IsTarget self.now (ref_view r) }
    {
        ReferenceRange::of(self.bytes).has(self.bytes, r)
    }

    /// Flags record `k` of symbols of other packages.
    pub fn ref_flags(&self, k: u32) -> RefFlagsRec
        requires { k < count_of self.now ref_flags }
        ensures value { ref_flags_view result ≡ ref_flags_at self.now k }
        ensures target { IsTarget self.now (ref_view result.target) }
    {
        let at = ref_flags_offset(self.bytes, self.offsets.of(Block::RefFlags), k);
        reference_flags(self.bytes, at)
    }

    /// The name that the first RefName record of this reference gives it, if there is one. It looks
    /// at the records one by one.
    pub fn ref_name(&self, r: SymRef) -> Option<&'a [u8]>
        ensures { option_copied result ≡ ref_name self.now (ref_view r) }
    {
        find_name(
            self.bytes,
            self.offsets.of(Block::RefName),
            count(self.bytes, Block::RefName),
            r,
        )
    }

    /// Record `k` of RefName: a symbol of another package, and its name. So a caller with many names
    /// to look up can make an index of them.
    #[tactic(auto, unfolding(crate::specs::Blocks::width_of))]
    pub fn ref_name_at(&self, k: u32) -> (SymRef, &'a [u8])
        requires { k < count_of self.now ref_name_block }
        ensures target { ref_view result.0 ≡ (ref_name_at self.now k).target }
        ensures name { result.1.now ≡ (ref_name_at self.now k).name }
    {
        let at = ref_name_offset(self.bytes, self.offsets.of(Block::RefName), k);
        (reference(self.bytes, at), text(self.bytes, at + 8))
    }
}
