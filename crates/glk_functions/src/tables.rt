// The tables of a function, and their first fault.
ghost use Rattle.std.specs.Prelude.{◌≡◌, ◌<◌, ◌^◌, map, length, IfOk};
ghost use Rattle.std.specs.List.{All};
ghost use Rattle.std.specs.Option.{option_map};
ghost use Rattle.glk_keys.specs.Rows.{row_at, row_count, object_at};
ghost use Rattle.glk_merge.specs.Mergings.{IsDefinitionRow, IsTargetKey};
ghost use Rattle.glk_obj.specs.Symbols.{funcdata as funcdata_aux, pcdata as pcdata_aux};
ghost use Rattle.glk_tables.specs.Function.{IsSmall};
ghost use Rattle.glk_tables.specs.Rules.{first_broken as first_broken_of};
ghost use Rattle.glk_tables.specs.Views.{target_view, tables_view, broken_view, HasSmallTables};
ghost use Rattle.glk_functions.specs.Auxes.{all_named, bytes_of as bytes_named, funcdata_of as funcdata_named};
ghost use Rattle.glk_functions.specs.Tables.{tables_of as tables_named, row_fault as row_fault_of, key_fault as key_fault_of};

use crate::auxes::{NamedAux, fill_auxes, fill_bytes, fill_funcdata, first_bytes, named_count};
use crate::definition::is_function;
use glk_base::{Fault, OutOfMemory, SymId};
use glk_merge::Merged;
use glk_obj::{AuxKind, ObjView};
use glk_reach::definition;
use glk_tables::{AuxTarget, BrokenTable, FuncTables, FuncdataTarget, check_tables};
use std::alloc::Global;

/// Buffers for the auxes of one function after the other.
#[derive(Debug, Drop)]
pub(crate) struct Buffers<'a> {
    auxes: Vec<NamedAux>,
    pcdata: Vec<AuxTarget<'a>>,
    funcdata: Vec<FuncdataTarget>,
}

impl<'a> Buffers<'a> {
    /// Nothing in them.
    pub(crate) fn new(alloc: Global) -> Buffers<'a> {
        Buffers {
            auxes: Vec::new(alloc),
            pcdata: Vec::new(alloc),
            funcdata: Vec::new(alloc),
        }
    }
}

// The tables that these auxes name, with the bytes of their pcdata and with their funcdata.
fn tables_of<'s, 'a: 's>(
    merged: &Merged<'a>,
    auxes: &[NamedAux],
    pcdata: &'s [AuxTarget<'a>],
    funcdata: &'s [FuncdataTarget],
) -> FuncTables<'s>
    requires few { length auxes.now < 2 ^ 32 }
    requires keys { All (λ aux. IsTargetKey merged.now.program aux.target) auxes.now }
    requires pcdata { map target_view pcdata.now
        ≡ map (bytes_named merged.now.program) (all_named pcdata_aux auxes.now) }
    requires small { All (λ target. IsSmall (target_view target)) pcdata.now }
    requires funcdata { funcdata.now
        ≡ map (funcdata_named merged.now.program) (all_named funcdata_aux auxes.now) }
    ensures value { tables_view result ≡ tables_named merged.now.program auxes.now }
    ensures small { HasSmallTables result }
{
    FuncTables {
        infos: named_count(auxes, AuxKind::FuncInfo.number()),
        info: first_bytes(merged, auxes, AuxKind::FuncInfo.number()),
        pcsp: first_bytes(merged, auxes, AuxKind::PcSp.number()),
        pcfile: first_bytes(merged, auxes, AuxKind::PcFile.number()),
        pcline: first_bytes(merged, auxes, AuxKind::PcLine.number()),
        pcinline: first_bytes(merged, auxes, AuxKind::PcInline.number()),
        pcdata,
        funcdata,
    }
}

// The object of a definition.
fn object_of<'m, 'a>(merged: &'m Merged<'a>, id: SymId) -> &'m ObjView<'a>
    requires { IsDefinitionRow merged.now.program id.0 }
    ensures { result.now ≡ object_at merged.now.program (row_at merged.now.program id.0).object }
{
    let (o, _) = merged.owner(id);
    merged.object(o)
}

// The first rule that these tables break, and the first table that breaks it.
fn first_broken(
    alloc: Global,
    object: &ObjView<'_>,
    f: &FuncTables<'_>,
) -> Result<Option<BrokenTable>, OutOfMemory>
    requires { HasSmallTables f.now }
    ensures { IfOk result (λ found.
        option_map broken_view found ≡ first_broken_of object.now (tables_view f.now)) }
{
    match check_tables(alloc, object, f) {
        Ok(()) => Ok(None),
        Err(Fault::Bad(broken)) => Ok(Some(broken)),
        Err(Fault::OutOfMemory) => Err(OutOfMemory),
    }
}

// The fault of the tables of a definition, a function.
#[tactic(auto, unfolding(crate::specs::Tables::row_tables, crate::specs::Tables::row_fault))]
fn row_fault<'a>(
    alloc: Global,
    merged: &Merged<'a>,
    id: SymId,
    buffers: &mut Buffers<'a>,
) -> Result<Option<BrokenTable>, OutOfMemory>
    requires { IsDefinitionRow merged.now.program id.0 }
    ensures { IfOk result (λ found.
        option_map broken_view found ≡ row_fault_of merged.now.program id.0) }
{
    let pcdata = AuxKind::PcData.number();
    let funcdata = AuxKind::FuncData.number();
    fill_auxes(merged, id, &mut buffers.auxes)?;
    fill_bytes(merged, &buffers.auxes, pcdata, &mut buffers.pcdata)?;
    fill_funcdata(merged, &buffers.auxes, funcdata, &mut buffers.funcdata)?;
    let f = tables_of(merged, &buffers.auxes, &buffers.pcdata, &buffers.funcdata);
    first_broken(alloc, object_of(merged, id), &f)
}

/// The fault of a key's tables; what is no function has none.
#[tactic(auto, unfolding(crate::specs::Tables::key_fault))]
pub(crate) fn key_fault<'a>(
    alloc: Global,
    merged: &Merged<'a>,
    key: u32,
    buffers: &mut Buffers<'a>,
) -> Result<Option<BrokenTable>, OutOfMemory>
    requires { key < row_count merged.now.program }
    ensures { IfOk result (λ found.
        option_map broken_view found ≡ key_fault_of merged.now.program key) }
{
    if !is_function(merged, key) {
        return Ok(None);
    }
    match definition(merged, key) {
        Some(id) => row_fault(alloc, merged, id, buffers),
        None => Ok(None),
    }
}
