// What the fields of a line mean.
ghost use Rattle.std.specs.Prelude.{◌≡◌, []};
ghost use Rattle.glk_objtext.specs.Answers.{Gives};
ghost use Rattle.glk_objtext.specs.Fields.{fields, field_at};
ghost use Rattle.glk_objtext.specs.Numbers.{number_of, signed_of};
ghost use Rattle.glk_objtext.specs.Values.{u8_limit, u16_limit, u32_limit, i32_limit, i64_limit, header_of, import_of, symbol_of, reloc_of, aux_of, ref_flags_of, ref_name_of, short_hashed_of, long_hashed_of, as_line, value_of};
ghost use Rattle.glk_objtext.specs.declared.line.Line.TheVariants.{Symbol};

use crate::fields::nth_field;
use crate::line::{DefBlock, Line};
use crate::numbers::{read_number, read_signed};
use crate::octets::{read_fingerprint, read_octets, read_short_hash};
use crate::strings::read_string;
use crate::targets::read_target;
use crate::words::Word;
use glk_base::{Fault, Text};
use glk_obj::{AuxRec, RefFlagsRec, RelocRec};
use glk_objdesc::{AutolibDesc, RefNameDesc, SymDesc};
use std::alloc::Global;

// The number of one byte in the field of this number.
fn u8_at(line: &[u8], n: usize) -> Result<u8, Fault<u8>>
    ensures { Gives (number_of u8_limit (field_at (fields line.now) n)) result }
{
    let number = read_number(nth_field(line, n), 1 << 8)?;
    Ok(number as u8)
}

// The number of two bytes in the field of this number.
fn u16_at(line: &[u8], n: usize) -> Result<u16, Fault<u8>>
    ensures { Gives (number_of u16_limit (field_at (fields line.now) n)) result }
{
    let number = read_number(nth_field(line, n), 1 << 16)?;
    Ok(number as u16)
}

// The number of four bytes in the field of this number.
fn u32_at(line: &[u8], n: usize) -> Result<u32, Fault<u8>>
    ensures { Gives (number_of u32_limit (field_at (fields line.now) n)) result }
{
    let number = read_number(nth_field(line, n), 1 << 32)?;
    Ok(number as u32)
}

// The number of four bytes with a sign in the field of this number.
fn i32_at(line: &[u8], n: usize) -> Result<i32, Fault<u8>>
    ensures { Gives (signed_of i32_limit (field_at (fields line.now) n)) result }
{
    let number = read_signed(nth_field(line, n), 1 << 31)?;
    Ok(number as i32)
}

#[tactic(auto, unfolding(crate::specs::Values::header_of))]
fn read_header(line: &[u8]) -> Result<Line, Fault<u8>>
    ensures { Gives (header_of (fields line.now)) result }
{
    let flags = u32_at(line, 1)?;
    let fingerprint = read_fingerprint(nth_field(line, 2))?;
    Ok(Line::Header { flags, fingerprint })
}

#[tactic(auto, unfolding(crate::specs::Values::import_of))]
fn read_import(alloc: Global, line: &[u8]) -> Result<AutolibDesc, Fault<u8>>
    ensures { Gives (import_of (fields line.now)) result }
{
    let path = read_string(alloc, nth_field(line, 1))?;
    let fingerprint = read_fingerprint(nth_field(line, 2))?;
    Ok(AutolibDesc { path, fingerprint })
}

#[tactic(auto, unfolding(crate::specs::Values::symbol_of))]
fn read_symbol(alloc: Global, line: &[u8]) -> Result<SymDesc, Fault<u8>>
    ensures { Gives (symbol_of (fields line.now)) result }
{
    let abi = u16_at(line, 2)?;
    let kind = u8_at(line, 3)?;
    let flag = u8_at(line, 4)?;
    let flag2 = u8_at(line, 5)?;
    let size = u32_at(line, 6)?;
    let align = u32_at(line, 7)?;
    let name = read_string(alloc, nth_field(line, 1))?;
    Ok(SymDesc {
        name,
        abi,
        kind,
        flag,
        flag2,
        size,
        align,
    })
}

#[tactic(auto, unfolding(crate::specs::Values::reloc_of))]
fn read_reloc(line: &[u8]) -> Result<RelocRec, Fault<u8>>
    ensures { Gives (reloc_of (fields line.now)) result }
{
    let off = i32_at(line, 1)?;
    let size = u8_at(line, 2)?;
    let kind = u16_at(line, 3)?;
    let add = read_signed(nth_field(line, 4), 1 << 63)?;
    let target = read_target(nth_field(line, 5))?;
    Ok(RelocRec {
        off,
        size,
        kind,
        add,
        target,
    })
}

#[tactic(auto, unfolding(crate::specs::Values::aux_of))]
fn read_aux(line: &[u8]) -> Result<AuxRec, Fault<u8>>
    ensures { Gives (aux_of (fields line.now)) result }
{
    let kind = u8_at(line, 1)?;
    let target = read_target(nth_field(line, 2))?;
    Ok(AuxRec { kind, target })
}

#[tactic(auto, unfolding(crate::specs::Values::ref_flags_of))]
fn read_ref_flags(line: &[u8]) -> Result<RefFlagsRec, Fault<u8>>
    ensures { Gives (ref_flags_of (fields line.now)) result }
{
    let target = read_target(nth_field(line, 1))?;
    let flag = u8_at(line, 2)?;
    let flag2 = u8_at(line, 3)?;
    Ok(RefFlagsRec {
        target,
        flag,
        flag2,
    })
}

#[tactic(auto, unfolding(crate::specs::Values::ref_name_of))]
fn read_ref_name(alloc: Global, line: &[u8]) -> Result<RefNameDesc, Fault<u8>>
    ensures { Gives (ref_name_of (fields line.now)) result }
{
    let target = read_target(nth_field(line, 1))?;
    let name = read_string(alloc, nth_field(line, 2))?;
    Ok(RefNameDesc { target, name })
}

#[tactic(auto, unfolding(crate::specs::Values::short_hashed_of))]
fn read_short_hashed(alloc: Global, line: &[u8]) -> Result<Line, Fault<u8>>
    ensures { Gives (short_hashed_of (fields line.now)) result }
{
    let sym = read_symbol(alloc, line)?;
    let hash = read_short_hash(alloc, nth_field(line, 8))?;
    Ok(Line::Symbol {
        block: DefBlock::Hashed64def,
        sym,
        hash,
    })
}

#[tactic(auto, unfolding(crate::specs::Values::long_hashed_of))]
fn read_long_hashed(alloc: Global, line: &[u8]) -> Result<Line, Fault<u8>>
    ensures { Gives (long_hashed_of (fields line.now)) result }
{
    let sym = read_symbol(alloc, line)?;
    let hash = read_octets(alloc, nth_field(line, 8))?;
    Ok(Line::Symbol {
        block: DefBlock::Hasheddef,
        sym,
        hash,
    })
}

// A definition without a hash.
#[tactic(auto, unfolding(crate::specs::Values::as_line))]
fn read_named(alloc: Global, block: DefBlock, line: &[u8]) -> Result<Line, Fault<u8>>
    ensures { Gives (as_line (λ sym. Symbol block sym []) (symbol_of (fields line.now))) result }
{
    let sym = read_symbol(alloc, line)?;
    Ok(Line::Symbol {
        block,
        sym,
        hash: Text::of(Vec::new(alloc)),
    })
}

/// What a line with this word says; it has as many fields as the word asks for.
#[tactic(auto, unfolding(crate::specs::Values::value_of, crate::specs::Values::as_line))]
pub(crate) fn read_value(alloc: Global, word: Word, line: &[u8]) -> Result<Line, Fault<u8>>
    ensures { Gives (value_of word (fields line.now)) result }
{
    match word {
        Word::Object => read_header(line),
        Word::Autolib => Ok(Line::Import(read_import(alloc, line)?)),
        Word::Pkg => Ok(Line::Package(read_string(alloc, nth_field(line, 1))?)),
        Word::File => Ok(Line::Source(read_string(alloc, nth_field(line, 1))?)),
        Word::Def => read_named(alloc, DefBlock::Symdef, line),
        Word::Hash64 => read_short_hashed(alloc, line),
        Word::Hash => read_long_hashed(alloc, line),
        Word::Data => Ok(Line::Content(read_octets(alloc, nth_field(line, 1))?)),
        Word::Reloc => Ok(Line::Relocation(read_reloc(line)?)),
        Word::Aux => Ok(Line::Auxiliary(read_aux(line)?)),
        Word::Ndef => read_named(alloc, DefBlock::Nonpkgdef, line),
        Word::Ref => Ok(Line::Reference(read_symbol(alloc, line)?)),
        Word::RefFlags => Ok(Line::Flags(read_ref_flags(line)?)),
        Word::RefName => Ok(Line::Named(read_ref_name(alloc, line)?)),
    }
}
