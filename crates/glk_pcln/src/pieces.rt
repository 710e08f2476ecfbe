// The pieces of an image that tell the runtime of its functions, built.
ghost use Rattle.std.specs.Prelude.{◌≡◌, ◌<◌, IfOk, IfErr, OnOk, map, length};
ghost use Rattle.glk_pctab.specs.Parts.{ArePartsOf, Refuses};
ghost use Rattle.glk_pctab.specs.Section.{section, trees, starts};
ghost use Rattle.glk_pctab.specs.Sound.{AreApart, section_limit};
ghost use Rattle.glk_pctab.specs.Views.{view, functions_view};
ghost use Rattle.glk_pcln.specs.Laws.{AreReadBack, TellsPieces};
ghost use Rattle.glk_pcln.specs.ModuleData.{module_bytes, AreSmall};
ghost use Rattle.glk_pcln.specs.Pieces.{buckets, AreSoundFunctions};

use crate::laws::{pieces_read_back, pieces_told};
use crate::module_data::{ModuleAddresses, write_module};
use glk_base::{Fault, OutOfMemory};
use glk_pctab::{Function, FunctionTables, Pclntab, SectionTooLong, push_findfunctab};
use std::alloc::Global;

/// What an image has for the runtime about its functions: the section `.gopclntab`, the inline trees and findfunctab, which are in
/// `.rodata`, and the section `.go.module`.
#[derive(Debug, Drop)]
pub struct Pcln {
    pub section: Vec<u8>,
    pub trees: Vec<u8>,
    pub findfunctab: Vec<u8>,
    pub module: Vec<u8>,
}

// Where functions start, as offsets in the text.
fn starts_of(alloc: Global, functions: &[Function<'_>]) -> Result<Vec<u32>, OutOfMemory>
    ensures { IfOk result (λ list. list.items ≡ starts (functions_view functions.now)) }
{
    let mut list = Vec::with_capacity(alloc, functions.len())?;
    let mut rest = functions;
    while let [first, after @ ..] = rest {
        list.push(first.start)?;
        rest = after;
    }
    Ok(list)
}

// Findfunctab of functions.
#[tactic(auto, unfolding(crate::specs::Pieces::buckets))]
fn write_findfunctab(alloc: Global, t: &Pclntab<'_>) -> Result<Vec<u8>, OutOfMemory>
    requires some { 0 < length t.now.functions.now }
    requires short { length (section (view t.now)) < section_limit }
    requires apart { AreApart (view t.now) }
    ensures { IfOk result (λ made. made.items ≡ buckets (view t.now)) }
{
    let starts = starts_of(alloc, t.functions)?;
    let mut out = Vec::new(alloc);
    push_findfunctab(&mut out, &starts, t.text_size)?;
    Ok(out)
}

// All pieces, with the section and the trees that are made.
fn with_tables(
    alloc: Global,
    t: &Pclntab<'_>,
    a: &ModuleAddresses,
    tables: FunctionTables,
) -> Result<Pcln, OutOfMemory>
    requires some { 0 < length t.now.functions.now }
    requires short { length (section (view t.now)) < section_limit }
    requires apart { AreApart (view t.now) }
    requires small { AreSmall (view t.now) a.now }
    requires parts { ArePartsOf (view t.now) tables.parts }
    ensures section { IfOk result (λ made. made.section.items ≡ tables.section.items) }
    ensures trees { IfOk result (λ made. made.trees.items ≡ tables.trees.items) }
    ensures findfunctab { IfOk result (λ made. made.findfunctab.items ≡ buckets (view t.now)) }
    ensures module_data { IfOk result (λ made. made.module.items ≡ module_bytes (view t.now) a.now) }
{
    let findfunctab = write_findfunctab(alloc, t)?;
    let module = write_module(alloc, t, &tables.parts, a)?;
    Ok(Pcln {
        section: tables.section,
        trees: tables.trees,
        findfunctab,
        module,
    })
}

/// What an image has for the runtime about its functions. Names, files and pc tables stand once each. The time is a pass over the
/// functions for each part, and over the text for findfunctab.
///
/// # Errors
/// The section would have 2^32 bytes or more; or out of memory.
pub fn build(
    alloc: Global,
    t: &Pclntab<'_>,
    a: &ModuleAddresses,
) -> Result<Pcln, Fault<SectionTooLong>>
    requires sound { AreSoundFunctions (view t.now) }
    requires apart { AreApart (view t.now) }
    requires some { 0 < length t.now.functions.now }
    requires small { AreSmall (view t.now) a.now }
    ensures section { IfOk result (λ made. made.section.items ≡ section (view t.now)) }
    ensures trees { IfOk result (λ made. made.trees.items ≡ trees (view t.now)) }
    ensures findfunctab { IfOk result (λ made. made.findfunctab.items ≡ buckets (view t.now)) }
    ensures module_data { IfOk result (λ made. made.module.items ≡ module_bytes (view t.now) a.now) }
    ensures read_back { OnOk result (AreReadBack (view t.now) a.now) }
    ensures told { OnOk result (TellsPieces (view t.now) a.now) }
    ensures short { OnOk result (length (section (view t.now)) < section_limit) }
    ensures refuses { IfErr result (Refuses (view t.now)) }
{
    pieces_read_back();
    pieces_told();
    let tables = glk_pctab::build(alloc, t)?;
    let made = with_tables(alloc, t, a, tables)?;
    Ok(made)
}
