// Writes the records of the blocks.
ghost use Rattle.std.specs.Prelude.{◌≡◌, ◌+◌, ◌<◌, ◌≤◌, ◌^◌, ◌++◌, ◌∷◌, [], List, ℕ, All, IfOk, OnOk, length, map, flat_map};
ghost use Rattle.glk_objdesc.specs.FirstUse.{concat_of};
ghost use Rattle.glk_objdesc.specs.Written.{AddsEntries};
ghost use Rattle.glk_objdesc.specs.Fields.{u32s_bytes, prefix_sums};
ghost use Rattle.glk_base.specs.Fields.{fields_bytes, u32};
ghost use Rattle.glk_objdesc.specs.Canonical.{autolib_bytes, name_bytes, symbol_bytes, def_bytes, ref_flags_bytes, reloc_bytes, aux_bytes, ref_name_bytes, hash_of, content_of, relocs_bytes, auxes_bytes, amount, object_limit};
ghost use Rattle.glk_objdesc.specs.Sizes.{IsShort, total_of};

use crate::desc::{AutolibDesc, DefDesc, RefNameDesc, SymDesc};
use crate::parts::Part;
use crate::pool::Pool;
use glk_base::{Field, OutOfMemory, Text, push_fields};
use glk_obj::{AuxRec, RefFlagsRec, RelocRec};

/// A record of a block, with a string of the object, or none.
pub(crate) trait Record {
    ghost bytes: { List (List ℕ) → Self → List ℕ };

    ghost short: { Self → Type 0 };

    // Adds the record at the end.
    fn push(&self, out: &mut Vec<u8>, pool: &Pool<'_>) -> Result<(), OutOfMemory>
        requires pool { length (concat_of pool.now) ≤ object_limit }
        requires name { short self.now }
        ensures { OnOk result (out.new.items ≡ out.old.items ++ bytes pool.now self.now) };
}

// Adds the record of a package's or a file's name.
#[tactic(auto, unfolding(crate::specs::Sizes::IsShort))]
fn push_name(out: &mut Vec<u8>, pool: &Pool<'_>, name: &[u8]) -> Result<(), OutOfMemory>
    requires pool { length (concat_of pool.now) ≤ object_limit }
    requires name { IsShort name.now }
    ensures { OnOk result (out.new.items ≡ out.old.items ++ name_bytes pool.now name.now) }
{
    push_fields(
        out,
        &[Field::U32(name.len() as u32), Field::U32(pool.offset(name))],
    )
}

// Adds the record of a symbol.
#[tactic(auto, unfolding(crate::specs::Sizes::IsShort))]
fn push_symbol(out: &mut Vec<u8>, pool: &Pool<'_>, symbol: &SymDesc) -> Result<(), OutOfMemory>
    requires pool { length (concat_of pool.now) ≤ object_limit }
    requires name { IsShort symbol.now.name }
    ensures { OnOk result (out.new.items ≡ out.old.items ++ symbol_bytes pool.now symbol.now) }
{
    let name = symbol.name.as_bytes();
    push_fields(
        out,
        &[
            Field::U32(name.len() as u32),
            Field::U32(pool.offset(name)),
            Field::U16(symbol.abi),
            Field::Byte(symbol.kind),
            Field::Byte(symbol.flag),
            Field::Byte(symbol.flag2),
            Field::U32(symbol.size),
            Field::U32(symbol.align),
        ],
    )
}

// A package that the object was compiled against.
impl Record for AutolibDesc {
    ghost bytes = { autolib_bytes };

    ghost short = { λ a. IsShort a.path };

    #[tactic(auto, unfolding(crate::specs::Sizes::IsShort))]
    fn push(&self, out: &mut Vec<u8>, pool: &Pool<'_>) -> Result<(), OutOfMemory> {
        let path = self.path.as_bytes();
        push_fields(
            out,
            &[Field::U32(path.len() as u32), Field::U32(pool.offset(path))],
        )?;
        out.extend_from_slice(&self.fingerprint)?;
        Ok(())
    }
}

// A package's or a file's name.
impl Record for Text {
    ghost bytes = { name_bytes };

    ghost short = { IsShort };

    fn push(&self, out: &mut Vec<u8>, pool: &Pool<'_>) -> Result<(), OutOfMemory> {
        push_name(out, pool, self.as_bytes())
    }
}

// A reference without a package.
impl Record for SymDesc {
    ghost bytes = { symbol_bytes };

    ghost short = { λ s. IsShort s.name };

    fn push(&self, out: &mut Vec<u8>, pool: &Pool<'_>) -> Result<(), OutOfMemory> {
        push_symbol(out, pool, self)
    }
}

// The symbol of a definition.
impl Record for DefDesc {
    ghost bytes = { def_bytes };

    ghost short = { λ def. IsShort def.sym.name };

    fn push(&self, out: &mut Vec<u8>, pool: &Pool<'_>) -> Result<(), OutOfMemory> {
        push_symbol(out, pool, &self.sym)
    }
}

// The flags of a reference.
impl Record for RefFlagsRec {
    ghost bytes = { λ _ r. ref_flags_bytes r };

    ghost short = { λ _. Unit {0} };

    fn push(&self, out: &mut Vec<u8>, pool: &Pool<'_>) -> Result<(), OutOfMemory> {
        let _ = pool;
        push_fields(
            out,
            &[
                Field::U32(self.target.pkg),
                Field::U32(self.target.sym),
                Field::Byte(self.flag),
                Field::Byte(self.flag2),
            ],
        )
    }
}

// A relocation.
impl Record for RelocRec {
    ghost bytes = { λ _ r. reloc_bytes r };

    ghost short = { λ _. Unit {0} };

    fn push(&self, out: &mut Vec<u8>, pool: &Pool<'_>) -> Result<(), OutOfMemory> {
        let _ = pool;
        push_fields(
            out,
            &[
                Field::U32(self.off.cast_unsigned()),
                Field::Byte(self.size),
                Field::U16(self.kind),
                Field::U64(self.add.cast_unsigned()),
                Field::U32(self.target.pkg),
                Field::U32(self.target.sym),
            ],
        )
    }
}

// An aux.
impl Record for AuxRec {
    ghost bytes = { λ _ a. aux_bytes a };

    ghost short = { λ _. Unit {0} };

    fn push(&self, out: &mut Vec<u8>, pool: &Pool<'_>) -> Result<(), OutOfMemory> {
        let _ = pool;
        push_fields(
            out,
            &[
                Field::Byte(self.kind),
                Field::U32(self.target.pkg),
                Field::U32(self.target.sym),
            ],
        )
    }
}

// A name of a symbol of another package.
impl Record for RefNameDesc {
    ghost bytes = { ref_name_bytes };

    ghost short = { λ r. IsShort r.name };

    #[tactic(auto, unfolding(crate::specs::Sizes::IsShort))]
    fn push(&self, out: &mut Vec<u8>, pool: &Pool<'_>) -> Result<(), OutOfMemory> {
        let name = self.name.as_bytes();
        push_fields(
            out,
            &[
                Field::U32(self.target.pkg),
                Field::U32(self.target.sym),
                Field::U32(name.len() as u32),
                Field::U32(pool.offset(name)),
            ],
        )
    }
}

/// Adds records.
pub(crate) fn push_records<R: Record>(
    out: &mut Vec<u8>,
    pool: &Pool<'_>,
    records: &[R],
) -> Result<(), OutOfMemory>
    requires pool { length (concat_of pool.now) ≤ object_limit }
    requires names { All R.short records.now }
    ensures { OnOk result (out.new.items ≡ out.old.items ++ flat_map (R.bytes pool.now) records.now) }
{
    for entry in records {
        entry.push(out, pool)?;
    }
    Ok(())
}

/// Adds the records of PkgIdx: that of the empty string, then those of the packages.
#[tactic(auto, unfolding(crate::specs::Sizes::IsShort))]
pub(crate) fn push_pkgs(
    out: &mut Vec<u8>,
    pool: &Pool<'_>,
    names: &[Text],
) -> Result<(), OutOfMemory>
    requires pool { length (concat_of pool.now) ≤ object_limit }
    requires names { All IsShort names.now }
    ensures { OnOk result (out.new.items ≡ out.old.items ++ flat_map (name_bytes pool.now) ([] ∷ names.now)) }
{
    push_name(out, pool, &[])?;
    push_records(out, pool, names)
}

/// Adds the hashes of definitions.
pub(crate) fn push_hashes(out: &mut Vec<u8>, defs: &[DefDesc]) -> Result<(), OutOfMemory>
    ensures { OnOk result (out.new.items ≡ out.old.items ++ flat_map hash_of defs.now) }
{
    for def in defs {
        out.extend_from_slice(def.hash.as_bytes())?;
    }
    Ok(())
}

/// Adds entries of a table: where the part of each definition begins, the first one's at `from`.
/// It answers where the last one's ends.
#[tactic(auto, unfolding(glk_base::specs::Fields::fields_bytes, crate::specs::Fields::prefix_sums, crate::specs::Sizes::total_of))]
pub(crate) fn push_entries(
    out: &mut Vec<u8>,
    part: Part,
    from: u32,
    defs: &[DefDesc],
) -> Result<u32, OutOfMemory>
    requires { from + total_of part defs.now < 2 ^ 32 }
    ensures sum { IfOk result (λ to. to ≡ from + total_of part defs.now) }
    ensures entries { IfOk result (λ to. AddsEntries part from defs.now to out.old.items out.new.items) }
{
    let mut at = from;
    for def in defs {
        push_fields(out, &[Field::U32(at)])?;
        at += part.amount(def) as u32;
    }
    Ok(at)
}

// Adds relocations.
fn push_relocs_of(
    out: &mut Vec<u8>,
    pool: &Pool<'_>,
    relocs: &[RelocRec],
) -> Result<(), OutOfMemory>
    requires { length (concat_of pool.now) ≤ object_limit }
    ensures { OnOk result (out.new.items ≡ out.old.items ++ flat_map reloc_bytes relocs.now) }
{
    push_records(out, pool, relocs)
}

/// Adds the relocations of definitions.
#[tactic(auto, unfolding(crate::specs::Canonical::relocs_bytes))]
pub(crate) fn push_relocs(
    out: &mut Vec<u8>,
    pool: &Pool<'_>,
    defs: &[DefDesc],
) -> Result<(), OutOfMemory>
    requires { length (concat_of pool.now) ≤ object_limit }
    ensures { OnOk result (out.new.items ≡ out.old.items ++ flat_map relocs_bytes defs.now) }
{
    for def in defs {
        push_relocs_of(out, pool, def.relocs.as_slice())?;
    }
    Ok(())
}

// Adds auxes.
fn push_auxes_of(out: &mut Vec<u8>, pool: &Pool<'_>, auxes: &[AuxRec]) -> Result<(), OutOfMemory>
    requires { length (concat_of pool.now) ≤ object_limit }
    ensures { OnOk result (out.new.items ≡ out.old.items ++ flat_map aux_bytes auxes.now) }
{
    push_records(out, pool, auxes)
}

/// Adds the auxes of definitions.
#[tactic(auto, unfolding(crate::specs::Canonical::auxes_bytes))]
pub(crate) fn push_auxes(
    out: &mut Vec<u8>,
    pool: &Pool<'_>,
    defs: &[DefDesc],
) -> Result<(), OutOfMemory>
    requires { length (concat_of pool.now) ≤ object_limit }
    ensures { OnOk result (out.new.items ≡ out.old.items ++ flat_map auxes_bytes defs.now) }
{
    for def in defs {
        push_auxes_of(out, pool, def.auxes.as_slice())?;
    }
    Ok(())
}

/// Adds the data of definitions.
pub(crate) fn push_contents(out: &mut Vec<u8>, defs: &[DefDesc]) -> Result<(), OutOfMemory>
    ensures { OnOk result (out.new.items ≡ out.old.items ++ flat_map content_of defs.now) }
{
    for def in defs {
        out.extend_from_slice(def.content.as_bytes())?;
    }
    Ok(())
}
