// Writes canonical objects.
ghost use Rattle.std.specs.Prelude.{◌≡◌, ◌+◌, ◌<◌, ◌≤◌, ◌^◌, ◌++◌, All, IfOk, OnOk, IfErr, length, map, flat_map};
ghost use Rattle.glk_obj.specs.Blocks.{header_length};
ghost use Rattle.glk_objdesc.specs.FirstUse.{concat_of};
ghost use Rattle.glk_objdesc.specs.Fields.{u32s_bytes, prefix_sums};
ghost use Rattle.glk_objdesc.specs.Canonical.{pool_of, blocks_of, header_of, object_bytes, table_bytes, relocs_bytes, auxes_bytes, content_of, definitions_of, Refuses, object_limit, clamped};
ghost use Rattle.glk_objdesc.specs.Written.{with_named_blocks, with_other_blocks};
ghost use Rattle.glk_objdesc.specs.Sizes.{HasShortNames, IsSmall, total_of, sum_of, clamped_lengths};

use crate::desc::ObjDesc;
use crate::parts::Part;
use crate::pool::{Pool, pool_of};
use crate::records::{
    push_auxes, push_contents, push_entries, push_hashes, push_pkgs, push_records, push_relocs,
};
use crate::sizes::{block_lengths, sum_from};
use glk_base::{Fault, Field, OutOfMemory, TooBig, push_fields};
use glk_obj::{HEADER_LENGTH, MAGIC};
use std::alloc::Global;

/// The most bytes that an object may have.
pub const OBJECT_LIMIT: u64 = (1 << 30) - 128;

// Adds numbers of four bytes: where blocks of these lengths begin, the first one at `start`, and
// where the last one ends.
#[tactic(auto, unfolding(glk_base::specs::Fields::fields_bytes, crate::specs::Fields::prefix_sums, crate::specs::Sizes::sum_of))]
fn push_offsets(out: &mut Vec<u8>, start: u64, lengths: &[u64]) -> Result<(), OutOfMemory>
    requires { start + sum_of lengths.now < 2 ^ 32 }
    ensures { OnOk result (out.new.items ≡ out.old.items ++ u32s_bytes (prefix_sums start lengths.now)) }
{
    let mut at = start;
    for length in lengths {
        push_fields(out, &[Field::U32(at as u32)])?;
        at += *length;
    }
    push_fields(out, &[Field::U32(at as u32)])
}

// Adds the header.
fn push_header(
    out: &mut Vec<u8>,
    d: &ObjDesc,
    strings: u64,
    lengths: &[u64],
) -> Result<(), OutOfMemory>
    requires strings { strings ≡ length (concat_of (pool_of d.now)) }
    requires lengths { lengths.now ≡ map length (blocks_of d.now) }
    requires small { header_length + strings + sum_of lengths.now ≤ object_limit }
    ensures { OnOk result (out.new.items ≡ out.old.items ++ header_of d.now) }
{
    out.extend_from_slice(&MAGIC)?;
    out.extend_from_slice(&d.fingerprint)?;
    push_fields(out, &[Field::U32(d.flags)])?;
    push_offsets(out, HEADER_LENGTH as u64 + strings, lengths)?;
    Ok(())
}

// Adds a table of indices.
#[tactic(auto, unfolding(crate::specs::Canonical::table_bytes))]
fn push_table(out: &mut Vec<u8>, part: Part, d: &ObjDesc) -> Result<(), OutOfMemory>
    requires { total_of part (definitions_of d.now) ≤ object_limit }
    ensures { OnOk result (out.new.items ≡ out.old.items ++ table_bytes part d.now) }
{
    let at = push_entries(out, part, 0, d.defs.as_slice())?;
    let at = push_entries(out, part, at, d.hash64.as_slice())?;
    let at = push_entries(out, part, at, d.hashed.as_slice())?;
    let at = push_entries(out, part, at, d.ndefs.as_slice())?;
    push_fields(out, &[Field::U32(at)])?;
    Ok(())
}

// Adds the relocations of all definitions.
fn push_all_relocs(out: &mut Vec<u8>, pool: &Pool<'_>, d: &ObjDesc) -> Result<(), OutOfMemory>
    requires { length (concat_of pool.now) ≤ object_limit }
    ensures { OnOk result (out.new.items ≡ out.old.items ++ flat_map relocs_bytes (definitions_of d.now)) }
{
    push_relocs(out, pool, d.defs.as_slice())?;
    push_relocs(out, pool, d.hash64.as_slice())?;
    push_relocs(out, pool, d.hashed.as_slice())?;
    push_relocs(out, pool, d.ndefs.as_slice())?;
    Ok(())
}

// Adds the auxes of all definitions.
fn push_all_auxes(out: &mut Vec<u8>, pool: &Pool<'_>, d: &ObjDesc) -> Result<(), OutOfMemory>
    requires { length (concat_of pool.now) ≤ object_limit }
    ensures { OnOk result (out.new.items ≡ out.old.items ++ flat_map auxes_bytes (definitions_of d.now)) }
{
    push_auxes(out, pool, d.defs.as_slice())?;
    push_auxes(out, pool, d.hash64.as_slice())?;
    push_auxes(out, pool, d.hashed.as_slice())?;
    push_auxes(out, pool, d.ndefs.as_slice())?;
    Ok(())
}

// Adds the data of all definitions.
fn push_all_contents(out: &mut Vec<u8>, d: &ObjDesc) -> Result<(), OutOfMemory>
    ensures { OnOk result (out.new.items ≡ out.old.items ++ flat_map content_of (definitions_of d.now)) }
{
    push_contents(out, d.defs.as_slice())?;
    push_contents(out, d.hash64.as_slice())?;
    push_contents(out, d.hashed.as_slice())?;
    push_contents(out, d.ndefs.as_slice())?;
    Ok(())
}

// Adds the blocks of names and symbols.
#[tactic(auto, unfolding(crate::specs::Written::with_named_blocks))]
fn push_named_blocks(out: &mut Vec<u8>, pool: &Pool<'_>, d: &ObjDesc) -> Result<(), OutOfMemory>
    requires names { HasShortNames d.now }
    requires pool { pool.now ≡ pool_of d.now }
    requires small { length (concat_of (pool_of d.now)) ≤ object_limit }
    ensures { OnOk result (out.new.items ≡ with_named_blocks d.now out.old.items) }
{
    push_records(out, pool, d.autolib.as_slice())?;
    push_pkgs(out, pool, d.pkgs.as_slice())?;
    push_records(out, pool, d.files.as_slice())?;
    push_records(out, pool, d.defs.as_slice())?;
    push_records(out, pool, d.hash64.as_slice())?;
    push_records(out, pool, d.hashed.as_slice())?;
    push_records(out, pool, d.ndefs.as_slice())?;
    push_records(out, pool, d.refs.as_slice())?;
    Ok(())
}

// Adds the blocks after the symbols.
#[tactic(auto, unfolding(crate::specs::Written::with_other_blocks))]
fn push_other_blocks(out: &mut Vec<u8>, pool: &Pool<'_>, d: &ObjDesc) -> Result<(), OutOfMemory>
    requires names { HasShortNames d.now }
    requires pool { pool.now ≡ pool_of d.now }
    requires small { length (concat_of (pool_of d.now)) ≤ object_limit }
    requires relocs { total_of Part.Relocs (definitions_of d.now) ≤ object_limit }
    requires auxes { total_of Part.Auxes (definitions_of d.now) ≤ object_limit }
    requires content { total_of Part.Content (definitions_of d.now) ≤ object_limit }
    ensures { OnOk result (out.new.items ≡ with_other_blocks d.now out.old.items) }
{
    push_records(out, pool, d.ref_flags.as_slice())?;
    push_hashes(out, d.hash64.as_slice())?;
    push_hashes(out, d.hashed.as_slice())?;
    push_table(out, Part::Relocs, d)?;
    push_table(out, Part::Auxes, d)?;
    push_table(out, Part::Content, d)?;
    push_all_relocs(out, pool, d)?;
    push_all_auxes(out, pool, d)?;
    push_all_contents(out, d)?;
    push_records(out, pool, d.ref_names.as_slice())?;
    Ok(())
}

// The object's length, clamped to u64.
fn object_length(d: &ObjDesc, strings: u64, lengths: &[u64]) -> u64
    requires strings { strings ≡ clamped (length (concat_of (pool_of d.now))) }
    requires lengths { lengths.now ≡ clamped_lengths d.now }
    ensures value { result ≡ clamped (length (object_bytes d.now)) }
    ensures small { result ≤ object_limit → IsSmall d.now }
{
    sum_from((HEADER_LENGTH as u64).saturating_add(strings), lengths)
}

/// The canonical bytes of an object: its header, its strings in the order of their first use, each
/// once, then its blocks without gaps (the format of Go's `cmd/internal/goobj`).
///
/// # Errors
///
/// An object that would have more than 2^30 - 128 bytes is refused with its length, before its bytes
/// are made; else memory ran out.
pub fn write_object(alloc: Global, d: &ObjDesc) -> Result<Vec<u8>, Fault<TooBig>>
    ensures bytes { IfOk result (λ bytes. bytes.items ≡ object_bytes d.now) }
    ensures small { OnOk result (length (object_bytes d.now) ≤ object_limit) }
    ensures refused { IfErr result (Refuses d.now) }
{
    let pool = pool_of(alloc, d)?;
    let strings = pool.size();
    let lengths = block_lengths(d);
    let number = object_length(d, strings, &lengths);
    if number > OBJECT_LIMIT {
        return Err(Fault::Bad(TooBig { number }));
    }
    let mut out = Vec::with_capacity(alloc, number as usize)?;
    push_header(&mut out, d, strings, &lengths)?;
    pool.write(&mut out)?;
    push_named_blocks(&mut out, &pool, d)?;
    push_other_blocks(&mut out, &pool, d)?;
    Ok(out)
}
