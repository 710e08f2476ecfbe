// How long the blocks of an object are. Sums and products stop at the greatest number.
ghost use Rattle.std.specs.Prelude.{◌≡◌, ◌+◌, ◌*◌, ◌≤◌, length};
ghost use Rattle.glk_obj.specs.Blocks.{name_width, symbol_width, ref_flags_width, entry_width, reloc_width, aux_width, ref_name_width};
ghost use Rattle.glk_objdesc.specs.Canonical.{clamped, definitions_of};
ghost use Rattle.glk_objdesc.specs.Sizes.{total_of, packages_length, clamped_lengths, sum_of};

use crate::desc::{AutolibDesc, DefDesc, ObjDesc};
use crate::parts::Part;
use glk_obj::{
    AUX_WIDTH, BLOCK_COUNT, ENTRY_WIDTH, NAME_WIDTH, REF_FLAGS_WIDTH, REF_NAME_WIDTH, RELOC_WIDTH,
    SYMBOL_WIDTH,
};

// The length of a package's record.
fn package_length(entry: &AutolibDesc) -> u64
    ensures value { result ≡ name_width + length entry.now.fingerprint }
    ensures small { result ≤ 16 }
{
    NAME_WIDTH as u64 + entry.fingerprint.len() as u64
}

// The length of the records of packages.
#[tactic(auto, unfolding(crate::specs::Canonical::clamped, crate::specs::Sizes::packages_length))]
fn packages_length(packages: &[AutolibDesc]) -> u64
    ensures { result ≡ clamped (packages_length packages.now) }
{
    let mut total: u64 = 0;
    for package in packages {
        total = total.saturating_add(package_length(package));
    }
    total
}

// How much definitions have of a part.
#[tactic(auto, unfolding(crate::specs::Canonical::clamped, crate::specs::Sizes::total_of))]
fn total(part: Part, defs: &[DefDesc]) -> u64
    ensures { result ≡ clamped (total_of part defs.now) }
{
    let mut total: u64 = 0;
    for def in defs {
        total = total.saturating_add(part.amount(def) as u64);
    }
    total
}

// How much all definitions have of a part.
fn whole(part: Part, d: &ObjDesc) -> u64
    ensures { result ≡ clamped (total_of part (definitions_of d.now)) }
{
    total(part, d.defs.as_slice())
        .saturating_add(total(part, d.hash64.as_slice()))
        .saturating_add(total(part, d.hashed.as_slice()))
        .saturating_add(total(part, d.ndefs.as_slice()))
}

// How many definitions there are.
fn definitions(d: &ObjDesc) -> u64
    ensures { result ≡ clamped (length (definitions_of d.now)) }
{
    (d.defs.as_slice().len() as u64)
        .saturating_add(d.hash64.as_slice().len() as u64)
        .saturating_add(d.hashed.as_slice().len() as u64)
        .saturating_add(d.ndefs.as_slice().len() as u64)
}

// The length of a table with an entry for each definition, and one more.
fn table_length(d: &ObjDesc) -> u64
    ensures { result ≡ clamped (entry_width * (length (definitions_of d.now) + 1)) }
{
    (ENTRY_WIDTH as u64).saturating_mul(definitions(d).saturating_add(1))
}

// The length of `count` symbols.
#[tactic(auto, unfolding(crate::specs::Canonical::clamped))]
fn symbols_length(count: usize) -> u64
    ensures { result ≡ clamped (symbol_width * count) }
{
    (SYMBOL_WIDTH as u64).saturating_mul(count as u64)
}

// The length of PkgIdx, which has one entry more than there are packages.
#[tactic(auto, unfolding(crate::specs::Canonical::clamped))]
fn pkgs_length(count: usize) -> u64
    ensures { result ≡ clamped (name_width * (count + 1)) }
{
    (NAME_WIDTH as u64).saturating_mul((count as u64).saturating_add(1))
}

// The length of `count` names of files.
#[tactic(auto, unfolding(crate::specs::Canonical::clamped))]
fn files_length(count: usize) -> u64
    ensures { result ≡ clamped (name_width * count) }
{
    (NAME_WIDTH as u64).saturating_mul(count as u64)
}

// The length of `count` records of RefFlags.
#[tactic(auto, unfolding(crate::specs::Canonical::clamped))]
fn ref_flags_length(count: usize) -> u64
    ensures { result ≡ clamped (ref_flags_width * count) }
{
    (REF_FLAGS_WIDTH as u64).saturating_mul(count as u64)
}

// The length of `count` records of RefName.
#[tactic(auto, unfolding(crate::specs::Canonical::clamped))]
fn ref_names_length(count: usize) -> u64
    ensures { result ≡ clamped (ref_name_width * count) }
{
    (REF_NAME_WIDTH as u64).saturating_mul(count as u64)
}

// The length of all relocations.
fn relocs_length(d: &ObjDesc) -> u64
    ensures { result ≡ clamped (reloc_width * total_of Part.Relocs (definitions_of d.now)) }
{
    (RELOC_WIDTH as u64).saturating_mul(whole(Part::Relocs, d))
}

// The length of all auxes.
fn auxes_length(d: &ObjDesc) -> u64
    ensures { result ≡ clamped (aux_width * total_of Part.Auxes (definitions_of d.now)) }
{
    (AUX_WIDTH as u64).saturating_mul(whole(Part::Auxes, d))
}

/// The lengths of the blocks in order.
pub(crate) fn block_lengths(d: &ObjDesc) -> [u64; BLOCK_COUNT]
    ensures { result ≡ clamped_lengths d.now }
{
    let table = table_length(d);
    [
        packages_length(d.autolib.as_slice()),
        pkgs_length(d.pkgs.as_slice().len()),
        files_length(d.files.as_slice().len()),
        symbols_length(d.defs.as_slice().len()),
        symbols_length(d.hash64.as_slice().len()),
        symbols_length(d.hashed.as_slice().len()),
        symbols_length(d.ndefs.as_slice().len()),
        symbols_length(d.refs.as_slice().len()),
        ref_flags_length(d.ref_flags.as_slice().len()),
        total(Part::Hash, d.hash64.as_slice()),
        total(Part::Hash, d.hashed.as_slice()),
        table,
        table,
        table,
        relocs_length(d),
        auxes_length(d),
        whole(Part::Content, d),
        ref_names_length(d.ref_names.as_slice().len()),
    ]
}

/// The sum of lengths and what is before them.
#[tactic(auto, unfolding(crate::specs::Canonical::clamped, crate::specs::Sizes::sum_of))]
pub(crate) fn sum_from(before: u64, lengths: &[u64]) -> u64
    ensures { result ≡ clamped (before + sum_of lengths.now) }
{
    let mut total = before;
    for length in lengths {
        total = total.saturating_add(*length);
    }
    total
}
