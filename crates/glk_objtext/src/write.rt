// Writing a description's canonical text.
ghost use Rattle.std.specs.Prelude.{◌≡◌, ◌++◌, ◌∷◌, [], map, OnOk, IfOk};
ghost use Rattle.std.specs.List.{flat_map};
ghost use Rattle.glk_objtext.specs.CanonicalText.{canonical_text};
ghost use Rattle.glk_objtext.specs.Numbers.{number_text, signed_text};
ghost use Rattle.glk_objtext.specs.Octets.{octets_text};
ghost use Rattle.glk_objtext.specs.Strings.{string_text};
ghost use Rattle.glk_objtext.specs.Targets.{target_text};
ghost use Rattle.glk_objtext.specs.Text.{symbol_fields, hash_fields, after_space, whole_line, AppendsLine, AppendsFields, content_lines, def_lines, texts, text_of};
ghost use Rattle.glk_base.specs.Lines.{newline};
ghost use Rattle.glk_objtext.specs.Words.{spelling as spelling_of};
ghost use Rattle.glk_objtext.specs.declared.line.Line.TheVariants.{Header, Import, Package, Source, Symbol, Content, Relocation, Auxiliary, Reference, Flags, Named};

use crate::line::DefBlock;
use crate::numbers::{push_number, push_signed};
use crate::octets::push_octets;
use crate::strings::push_string;
use crate::targets::push_target;
use crate::words::Word;
use glk_base::{OutOfMemory, Text};
use glk_obj::{AuxRec, RefFlagsRec, RelocRec, SymRef};
use glk_objdesc::{AutolibDesc, DefDesc, ObjDesc, RefNameDesc, SymDesc};
use std::alloc::Global;

// The fields, each after a space.

fn number_field(out: &mut Vec<u8>, number: u64) -> Result<(), OutOfMemory>
    ensures { OnOk result (out.new.items ≡ out.old.items ++ after_space (number_text number)) }
{
    out.push(b' ')?;
    push_number(out, number)
}

fn signed_field(out: &mut Vec<u8>, number: i64) -> Result<(), OutOfMemory>
    ensures { OnOk result (out.new.items ≡ out.old.items ++ after_space (signed_text number)) }
{
    out.push(b' ')?;
    push_signed(out, number)
}

fn string_field(out: &mut Vec<u8>, string: &Text) -> Result<(), OutOfMemory>
    ensures { OnOk result (out.new.items ≡ out.old.items ++ after_space (string_text string.now)) }
{
    out.push(b' ')?;
    push_string(out, string.as_bytes())
}

fn octets_field(alloc: Global, out: &mut Vec<u8>, bytes: &[u8]) -> Result<(), OutOfMemory>
    ensures { OnOk result (out.new.items ≡ out.old.items ++ after_space (octets_text bytes.now)) }
{
    out.push(b' ')?;
    push_octets(alloc, out, bytes)
}

fn target_field(out: &mut Vec<u8>, target: SymRef) -> Result<(), OutOfMemory>
    ensures { OnOk result (out.new.items ≡ out.old.items ++ after_space (target_text target)) }
{
    out.push(b' ')?;
    push_target(out, target)
}

fn symbol_field_list(out: &mut Vec<u8>, sym: &SymDesc) -> Result<(), OutOfMemory>
    ensures { OnOk result (AppendsFields out.old.items (symbol_fields sym.now) out.new.items) }
{
    string_field(out, &sym.name)?;
    number_field(out, sym.abi as u64)?;
    number_field(out, sym.kind as u64)?;
    number_field(out, sym.flag as u64)?;
    number_field(out, sym.flag2 as u64)?;
    number_field(out, sym.size as u64)?;
    number_field(out, sym.align as u64)?;
    Ok(())
}

// The lines.

fn push_word(out: &mut Vec<u8>, word: Word) -> Result<(), OutOfMemory>
    ensures { OnOk result (out.new.items ≡ out.old.items ++ spelling_of word) }
{
    out.extend_from_slice(word.spelling())?;
    Ok(())
}

fn end_line(out: &mut Vec<u8>) -> Result<(), OutOfMemory>
    ensures { OnOk result (out.new.items ≡ out.old.items ++ newline ∷ []) }
{
    out.push(b'\n')?;
    Ok(())
}

#[tactic(auto, unfolding(crate::specs::Text::whole_line))]
fn push_header(alloc: Global, out: &mut Vec<u8>, d: &ObjDesc) -> Result<(), OutOfMemory>
    ensures { OnOk result (AppendsLine out.old.items (Header d.now.flags d.now.fingerprint) out.new.items) }
{
    push_word(out, Word::Object)?;
    number_field(out, d.flags as u64)?;
    octets_field(alloc, out, &d.fingerprint)?;
    end_line(out)
}

#[tactic(auto, unfolding(crate::specs::Text::whole_line))]
fn push_import(alloc: Global, out: &mut Vec<u8>, a: &AutolibDesc) -> Result<(), OutOfMemory>
    ensures { OnOk result (AppendsLine out.old.items (Import a.now) out.new.items) }
{
    push_word(out, Word::Autolib)?;
    string_field(out, &a.path)?;
    octets_field(alloc, out, &a.fingerprint)?;
    end_line(out)
}

#[tactic(auto, unfolding(crate::specs::Text::whole_line))]
fn push_package(out: &mut Vec<u8>, path: &Text) -> Result<(), OutOfMemory>
    ensures { OnOk result (AppendsLine out.old.items (Package path.now) out.new.items) }
{
    push_word(out, Word::Pkg)?;
    string_field(out, path)?;
    end_line(out)
}

#[tactic(auto, unfolding(crate::specs::Text::whole_line))]
fn push_source(out: &mut Vec<u8>, file: &Text) -> Result<(), OutOfMemory>
    ensures { OnOk result (AppendsLine out.old.items (Source file.now) out.new.items) }
{
    push_word(out, Word::File)?;
    string_field(out, file)?;
    end_line(out)
}

#[tactic(auto, unfolding(crate::specs::Text::whole_line))]
fn push_symbol(
    alloc: Global,
    out: &mut Vec<u8>,
    block: DefBlock,
    def: &DefDesc,
) -> Result<(), OutOfMemory>
    ensures { OnOk result (AppendsLine out.old.items (Symbol block def.now.sym def.now.hash) out.new.items) }
{
    push_word(out, block.word())?;
    symbol_field_list(out, &def.sym)?;
    hash_field(alloc, out, block, &def.hash)?;
    end_line(out)
}

// The hash of a definition, where its block has hashes.
fn hash_field(
    alloc: Global,
    out: &mut Vec<u8>,
    block: DefBlock,
    hash: &Text,
) -> Result<(), OutOfMemory>
    ensures { OnOk result (AppendsFields out.old.items (hash_fields block hash.now) out.new.items) }
{
    match block {
        DefBlock::Symdef | DefBlock::Nonpkgdef => Ok(()),
        DefBlock::Hashed64def | DefBlock::Hasheddef => octets_field(alloc, out, hash.as_bytes()),
    }
}

#[tactic(auto, unfolding(crate::specs::Text::whole_line))]
fn push_content(alloc: Global, out: &mut Vec<u8>, content: &Text) -> Result<(), OutOfMemory>
    ensures { OnOk result (out.new.items ≡ out.old.items ++ texts (content_lines content.now)) }
{
    let bytes = content.as_bytes();
    match bytes {
        [] => Ok(()),
        _ => {
            push_word(out, Word::Data)?;
            octets_field(alloc, out, bytes)?;
            end_line(out)
        }
    }
}

#[tactic(auto, unfolding(crate::specs::Text::whole_line))]
fn push_reloc(out: &mut Vec<u8>, r: RelocRec) -> Result<(), OutOfMemory>
    ensures { OnOk result (AppendsLine out.old.items (Relocation r) out.new.items) }
{
    push_word(out, Word::Reloc)?;
    signed_field(out, r.off as i64)?;
    number_field(out, r.size as u64)?;
    number_field(out, r.kind as u64)?;
    signed_field(out, r.add)?;
    target_field(out, r.target)?;
    end_line(out)?;
    Ok(())
}

#[tactic(auto, unfolding(crate::specs::Text::whole_line))]
fn push_aux(out: &mut Vec<u8>, a: AuxRec) -> Result<(), OutOfMemory>
    ensures { OnOk result (AppendsLine out.old.items (Auxiliary a) out.new.items) }
{
    push_word(out, Word::Aux)?;
    number_field(out, a.kind as u64)?;
    target_field(out, a.target)?;
    end_line(out)
}

#[tactic(auto, unfolding(crate::specs::Text::whole_line))]
fn push_reference(out: &mut Vec<u8>, sym: &SymDesc) -> Result<(), OutOfMemory>
    ensures { OnOk result (AppendsLine out.old.items (Reference sym.now) out.new.items) }
{
    push_word(out, Word::Ref)?;
    symbol_field_list(out, sym)?;
    end_line(out)
}

#[tactic(auto, unfolding(crate::specs::Text::whole_line))]
fn push_flags(out: &mut Vec<u8>, r: RefFlagsRec) -> Result<(), OutOfMemory>
    ensures { OnOk result (AppendsLine out.old.items (Flags r) out.new.items) }
{
    push_word(out, Word::RefFlags)?;
    target_field(out, r.target)?;
    number_field(out, r.flag as u64)?;
    number_field(out, r.flag2 as u64)?;
    end_line(out)
}

#[tactic(auto, unfolding(crate::specs::Text::whole_line))]
fn push_name(out: &mut Vec<u8>, r: &RefNameDesc) -> Result<(), OutOfMemory>
    ensures { OnOk result (AppendsLine out.old.items (Named r.now) out.new.items) }
{
    push_word(out, Word::RefName)?;
    target_field(out, r.target)?;
    string_field(out, &r.name)?;
    end_line(out)
}

// The lists of lines.

fn push_imports(alloc: Global, out: &mut Vec<u8>, xs: &[AutolibDesc]) -> Result<(), OutOfMemory>
    ensures { OnOk result (out.new.items ≡ out.old.items ++ texts (map Import xs.now)) }
{
    for x in xs {
        push_import(alloc, out, x)?;
    }
    Ok(())
}

fn push_packages(out: &mut Vec<u8>, xs: &[Text]) -> Result<(), OutOfMemory>
    ensures { OnOk result (out.new.items ≡ out.old.items ++ texts (map Package xs.now)) }
{
    for x in xs {
        push_package(out, x)?;
    }
    Ok(())
}

fn push_sources(out: &mut Vec<u8>, xs: &[Text]) -> Result<(), OutOfMemory>
    ensures { OnOk result (out.new.items ≡ out.old.items ++ texts (map Source xs.now)) }
{
    for x in xs {
        push_source(out, x)?;
    }
    Ok(())
}

fn push_relocs(out: &mut Vec<u8>, xs: &[RelocRec]) -> Result<(), OutOfMemory>
    ensures { OnOk result (out.new.items ≡ out.old.items ++ texts (map Relocation xs.now)) }
{
    for x in xs {
        push_reloc(out, *x)?;
    }
    Ok(())
}

fn push_auxes(out: &mut Vec<u8>, xs: &[AuxRec]) -> Result<(), OutOfMemory>
    ensures { OnOk result (out.new.items ≡ out.old.items ++ texts (map Auxiliary xs.now)) }
{
    for x in xs {
        push_aux(out, *x)?;
    }
    Ok(())
}

fn push_references(out: &mut Vec<u8>, xs: &[SymDesc]) -> Result<(), OutOfMemory>
    ensures { OnOk result (out.new.items ≡ out.old.items ++ texts (map Reference xs.now)) }
{
    for x in xs {
        push_reference(out, x)?;
    }
    Ok(())
}

fn push_flag_records(out: &mut Vec<u8>, xs: &[RefFlagsRec]) -> Result<(), OutOfMemory>
    ensures { OnOk result (out.new.items ≡ out.old.items ++ texts (map Flags xs.now)) }
{
    for x in xs {
        push_flags(out, *x)?;
    }
    Ok(())
}

fn push_names(out: &mut Vec<u8>, xs: &[RefNameDesc]) -> Result<(), OutOfMemory>
    ensures { OnOk result (out.new.items ≡ out.old.items ++ texts (map Named xs.now)) }
{
    for x in xs {
        push_name(out, x)?;
    }
    Ok(())
}

// A definition with its data, its relocations and its auxes.
#[tactic(auto, unfolding(crate::specs::Text::def_lines))]
fn push_def(
    alloc: Global,
    out: &mut Vec<u8>,
    block: DefBlock,
    def: &DefDesc,
) -> Result<(), OutOfMemory>
    ensures { OnOk result (out.new.items ≡ out.old.items ++ texts (def_lines block def.now)) }
{
    push_symbol(alloc, out, block, def)?;
    push_content(alloc, out, &def.content)?;
    push_relocs(out, def.relocs.as_slice())?;
    push_auxes(out, def.auxes.as_slice())
}

fn push_defs(
    alloc: Global,
    out: &mut Vec<u8>,
    block: DefBlock,
    xs: &[DefDesc],
) -> Result<(), OutOfMemory>
    ensures { OnOk result (out.new.items ≡ out.old.items ++ texts (flat_map (def_lines block) xs.now)) }
{
    for x in xs {
        push_def(alloc, out, block, x)?;
    }
    Ok(())
}

/// The canonical text of a description: one space between fields, strings bare wherever that is
/// allowed, escapes only where they are needed, no line for empty data, a newline after each line.
///
/// # Errors
/// `OutOfMemory`.
pub fn print(alloc: Global, d: &ObjDesc) -> Result<Vec<u8>, OutOfMemory>
    ensures canonical { IfOk result (λ text. text.items ≡ canonical_text d.now) }
    ensures lines { IfOk result (λ text. text.items ≡ text_of d.now) }
{
    let mut out = Vec::new(alloc);
    push_header(alloc, &mut out, d)?;
    push_imports(alloc, &mut out, d.autolib.as_slice())?;
    push_packages(&mut out, d.pkgs.as_slice())?;
    push_sources(&mut out, d.files.as_slice())?;
    push_defs(alloc, &mut out, DefBlock::Symdef, d.defs.as_slice())?;
    push_defs(alloc, &mut out, DefBlock::Hashed64def, d.hash64.as_slice())?;
    push_defs(alloc, &mut out, DefBlock::Hasheddef, d.hashed.as_slice())?;
    push_defs(alloc, &mut out, DefBlock::Nonpkgdef, d.ndefs.as_slice())?;
    push_references(&mut out, d.refs.as_slice())?;
    push_flag_records(&mut out, d.ref_flags.as_slice())?;
    push_names(&mut out, d.ref_names.as_slice())?;
    Ok(out)
}
