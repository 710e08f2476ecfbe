// Describes objects.
ghost use Rattle.std.specs.Prelude.{◌≡◌, ◌+◌, ◌-◌, ◌<◌, ◌≤◌, ◌^◌, [], List, ℕ, IfOk, map};
ghost use Rattle.glk_obj.specs.Blocks.{count, autolib, pkg_idx, file, symdef, hashed64def, hasheddef, nonpkgdef, nonpkgref, ref_flags, ref_name};
ghost use Rattle.glk_obj.specs.Object.{IsObject};
ghost use Rattle.glk_obj.specs.Records.{definitions, symbols, symbol_at, reloc_count, reloc_at, aux_count, aux_at, autolib_at, pkg_at, file_at, ref_flags_at, hash64_at, hash_at};
ghost use Rattle.glk_objdesc.specs.Described.{autolib_of, pkgs_of, files_of, plain_from, hash64_from, hashed_from, refs_of, ref_flags_of, ref_names_of, autolib_desc, symbol_desc, reloc_desc, aux_desc, ref_flags_desc, relocs_of, auxes_of, def_desc, ref_name_desc, first_hash64, first_hashed, first_ndef, first_ref, description_of};

use crate::desc::{AutolibDesc, DefDesc, ObjDesc, RefNameDesc, SymDesc};
use glk_base::{OutOfMemory, Seq, Text};
use glk_obj::{AuxRec, Block, ObjView, RefFlagsRec, RelocRec};
use std::alloc::Global;

// Package `k` that the object was compiled against.
fn compiled_against(alloc: Global, view: &ObjView<'_>, k: u32) -> Result<AutolibDesc, OutOfMemory>
    requires { k < count view.now autolib }
    ensures { IfOk result (λ a. a ≡ autolib_desc (autolib_at view.now k)) }
{
    let (path, fingerprint) = view.autolib(k);
    Ok(AutolibDesc {
        path: Text::new(alloc, path)?,
        fingerprint,
    })
}

// The packages that the object was compiled against.
fn autolib(alloc: Global, view: &ObjView<'_>) -> Result<Vec<AutolibDesc>, OutOfMemory>
    ensures { IfOk result (λ v. v.items ≡ autolib_of view.now) }
{
    let mut items = Vec::new(alloc);
    for k in 0..view.count(Block::Autolib) {
        items.push(compiled_against(alloc, view, k)?)?;
    }
    Ok(items)
}

// The packages of PkgIdx from 1 on.
fn pkgs(alloc: Global, view: &ObjView<'_>) -> Result<Vec<Text>, OutOfMemory>
    ensures { IfOk result (λ v. v.items ≡ pkgs_of view.now) }
{
    let mut items = Vec::new(alloc);
    for k in 1..view.count(Block::PkgIdx) {
        items.push(Text::new(alloc, view.pkg(k))?)?;
    }
    Ok(items)
}

// The source files.
fn files(alloc: Global, view: &ObjView<'_>) -> Result<Vec<Text>, OutOfMemory>
    ensures { IfOk result (λ v. v.items ≡ files_of view.now) }
{
    let mut items = Vec::new(alloc);
    for k in 0..view.count(Block::File) {
        items.push(Text::new(alloc, view.file(k))?)?;
    }
    Ok(items)
}

// The symbol of local index `i`.
fn symbol(alloc: Global, view: &ObjView<'_>, i: u32) -> Result<SymDesc, OutOfMemory>
    requires { i < symbols view.now }
    ensures { IfOk result (λ s. s ≡ symbol_desc (symbol_at view.now i)) }
{
    let symbol = view.sym(i);
    Ok(SymDesc {
        name: Text::new(alloc, symbol.name)?,
        abi: symbol.abi,
        kind: symbol.kind,
        flag: symbol.flag,
        flag2: symbol.flag2,
        size: symbol.size,
        align: symbol.align,
    })
}

// Relocation `k` of definition `i`.
fn relocation(view: &ObjView<'_>, i: u32, k: u32) -> RelocRec
    requires definition { i < definitions view.now }
    requires index { k < reloc_count view.now i }
    ensures { result ≡ reloc_desc (reloc_at view.now i k) }
{
    view.reloc(i, k)
}

// Aux `k` of definition `i`.
fn auxiliary(view: &ObjView<'_>, i: u32, k: u32) -> AuxRec
    requires definition { i < definitions view.now }
    requires index { k < aux_count view.now i }
    ensures { result ≡ aux_desc (aux_at view.now i k) }
{
    view.aux(i, k)
}

// Flags record `k` of symbols of other packages.
fn reference_flags(view: &ObjView<'_>, k: u32) -> RefFlagsRec
    requires { k < count view.now ref_flags }
    ensures { result ≡ ref_flags_desc (ref_flags_at view.now k) }
{
    view.ref_flags(k)
}

// The relocations of definition `i`.
#[tactic(auto, unfolding(crate::specs::Described::relocs_of))]
fn relocs(alloc: Global, view: &ObjView<'_>, i: u32) -> Result<Vec<RelocRec>, OutOfMemory>
    requires { i < definitions view.now }
    ensures { IfOk result (λ v. v.items ≡ relocs_of view.now i) }
{
    let mut items = Vec::new(alloc);
    for k in 0..view.relocs(i) {
        items.push(relocation(view, i, k))?;
    }
    Ok(items)
}

// The auxes of definition `i`.
#[tactic(auto, unfolding(crate::specs::Described::auxes_of))]
fn auxes(alloc: Global, view: &ObjView<'_>, i: u32) -> Result<Vec<AuxRec>, OutOfMemory>
    requires { i < definitions view.now }
    ensures { IfOk result (λ v. v.items ≡ auxes_of view.now i) }
{
    let mut items = Vec::new(alloc);
    for k in 0..view.auxes(i) {
        items.push(auxiliary(view, i, k))?;
    }
    Ok(items)
}

// Definition `i`, which has this hash.
fn definition(
    alloc: Global,
    view: &ObjView<'_>,
    i: u32,
    hash: &[u8],
) -> Result<DefDesc, OutOfMemory>
    requires { i < definitions view.now }
    ensures { IfOk result (λ def. def ≡ def_desc view.now i hash.now) }
{
    Ok(DefDesc {
        sym: symbol(alloc, view, i)?,
        hash: Text::new(alloc, hash)?,
        content: Text::new(alloc, view.data(i))?,
        relocs: Seq::new(relocs(alloc, view, i)?),
        auxes: Seq::new(auxes(alloc, view, i)?),
    })
}

// `count` definitions without a hash, from local index `first` on.
fn plain_definitions(
    alloc: Global,
    view: &ObjView<'_>,
    first: u32,
    count: u32,
) -> Result<Vec<DefDesc>, OutOfMemory>
    requires inside { first + count ≤ definitions view.now }
    requires small { definitions view.now < 2 ^ 32 }
    ensures { IfOk result (λ v. v.items ≡ plain_from view.now first count) }
{
    let mut items = Vec::new(alloc);
    for k in 0..count {
        items.push(definition(alloc, view, first + k, &[])?)?;
    }
    Ok(items)
}

// Definitions by short hashes, from local index `first` on.
fn hash64(alloc: Global, view: &ObjView<'_>, first: u32) -> Result<Vec<DefDesc>, OutOfMemory>
    requires first { first ≡ first_hash64 view.now }
    requires small { definitions view.now < 2 ^ 32 }
    ensures { IfOk result (λ v. v.items ≡ hash64_from view.now first) }
{
    let mut items = Vec::new(alloc);
    for k in 0..view.count(Block::Hashed64def) {
        let hash = view.hash64(k);
        items.push(definition(alloc, view, first + k, &hash)?)?;
    }
    Ok(items)
}

// Definitions by long hashes, from local index `first` on.
fn hashed(alloc: Global, view: &ObjView<'_>, first: u32) -> Result<Vec<DefDesc>, OutOfMemory>
    requires first { first ≡ first_hashed view.now }
    requires small { definitions view.now < 2 ^ 32 }
    ensures { IfOk result (λ v. v.items ≡ hashed_from view.now first) }
{
    let mut items = Vec::new(alloc);
    for k in 0..view.count(Block::Hasheddef) {
        items.push(definition(alloc, view, first + k, view.hash(k))?)?;
    }
    Ok(items)
}

// References without a package.
fn references(alloc: Global, view: &ObjView<'_>) -> Result<Vec<SymDesc>, OutOfMemory>
    ensures { IfOk result (λ v. v.items ≡ refs_of view.now) }
{
    let first = view.definitions();
    let end = view.symbols();
    let mut items = Vec::new(alloc);
    for k in 0..end - first {
        items.push(symbol(alloc, view, first + k)?)?;
    }
    Ok(items)
}

// Flags of symbols of other packages.
fn ref_flags(alloc: Global, view: &ObjView<'_>) -> Result<Vec<RefFlagsRec>, OutOfMemory>
    ensures { IfOk result (λ v. v.items ≡ ref_flags_of view.now) }
{
    let mut items = Vec::new(alloc);
    for k in 0..view.count(Block::RefFlags) {
        items.push(reference_flags(view, k))?;
    }
    Ok(items)
}

// Record `k` of RefName.
#[tactic(auto, unfolding(crate::specs::Described::ref_name_desc))]
fn named(alloc: Global, view: &ObjView<'_>, k: u32) -> Result<RefNameDesc, OutOfMemory>
    requires { k < count view.now ref_name }
    ensures { IfOk result (λ r. r ≡ ref_name_desc view.now k) }
{
    let (target, name) = view.ref_name_at(k);
    Ok(RefNameDesc {
        target,
        name: Text::new(alloc, name)?,
    })
}

// Names of symbols of other packages.
fn ref_names(alloc: Global, view: &ObjView<'_>) -> Result<Vec<RefNameDesc>, OutOfMemory>
    ensures { IfOk result (λ v. v.items ≡ ref_names_of view.now) }
{
    let mut items = Vec::new(alloc);
    for k in 0..view.count(Block::RefName) {
        items.push(named(alloc, view, k)?)?;
    }
    Ok(items)
}

/// All that an object says. Entry 0 of PkgIdx is not among the packages, whatever it holds.
///
/// # Errors
///
/// Memory ran out.
#[tactic(auto, unfolding(crate::specs::Described::description_of))]
pub fn describe(alloc: Global, view: &ObjView<'_>) -> Result<ObjDesc, OutOfMemory>
    ensures { IfOk result (λ d. d ≡ description_of view.now) }
{
    let first_ndef = view.definitions() - view.count(Block::Nonpkgdef);
    let first_hashed = first_ndef - view.count(Block::Hasheddef);
    let first_hash64 = first_hashed - view.count(Block::Hashed64def);
    Ok(ObjDesc {
        flags: view.flags(),
        fingerprint: view.fingerprint(),
        autolib: Seq::new(autolib(alloc, view)?),
        pkgs: Seq::new(pkgs(alloc, view)?),
        files: Seq::new(files(alloc, view)?),
        defs: Seq::new(plain_definitions(alloc, view, 0, first_hash64)?),
        hash64: Seq::new(hash64(alloc, view, first_hash64)?),
        hashed: Seq::new(hashed(alloc, view, first_hashed)?),
        ndefs: Seq::new(plain_definitions(alloc, view, first_ndef, view.count(Block::Nonpkgdef))?),
        refs: Seq::new(references(alloc, view)?),
        ref_flags: Seq::new(ref_flags(alloc, view)?),
        ref_names: Seq::new(ref_names(alloc, view)?),
    })
}
