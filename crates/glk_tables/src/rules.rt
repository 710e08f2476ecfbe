// The rules P1 to P9.
ghost use Rattle.std.specs.Prelude.{◌≡◌, map, All, IfOk, IfErr, OnOk, None, not};
ghost use Rattle.std.specs.Option.{option_map};
ghost use Rattle.glk_obj.specs.FuncInfos.{node_count, node_at};
ghost use Rattle.glk_obj.specs.References.{in_range};
ghost use Rattle.glk_tables.specs.Calls.{any_below};
ghost use Rattle.glk_tables.specs.Function.{IsSmall, info_of};
ghost use Rattle.glk_tables.specs.Rules.{any, is_short as is_short_of, is_no_table as is_no_table_of, is_undefined as is_undefined_of, is_not_rodata as is_not_rodata_of, has_long_chain as has_long_chain_of, has_stray_call as has_stray_call_of, p1 as p1_of, p2 as p2_of, p3 as p3_of, p4 as p4_of, p5 as p5_of, p6 as p6_of, p7 as p7_of, p8 as p8_of, p9 as p9_of, by_rule as by_rule_of, after_p5 as after_p5_of, first_broken as first_broken_of};
ghost use Rattle.glk_tables.specs.Views.{target_view, tables_view, broken_view, HasSmallTables, RefusesFirst};

use crate::calls::has_long_chain;
use crate::function::{AuxTarget, FuncTables, FuncdataTarget, nodes_of, read_info, table_bytes};
use crate::table::{BrokenTable, Table};
use crate::values::{has_outside, is_no_table};
use glk_base::{Fault, OutOfMemory};
use glk_obj::{Block, FuncInfo, ObjView, SymKind};
use std::alloc::Global;

// The most funcdata and pcdata.
const MOST_FUNCDATA: usize = 255;

const MOST_PCDATA: usize = 65535;

// Whether the data are too short for a FuncInfo.
#[tactic(auto, unfolding(crate::specs::Function::holds_info))]
fn is_short(target: AuxTarget<'_>) -> bool
    ensures { result ≡ is_short_of (target_view target.entry) }
{
    match target {
        AuxTarget::Absent => false,
        AuxTarget::Undefined => false,
        AuxTarget::Defined(bytes) => FuncInfo::read(bytes).is_none(),
    }
}

// Whether a target has no definition.
fn is_undefined(target: AuxTarget<'_>) -> bool
    ensures { result ≡ is_undefined_of (target_view target.entry) }
{
    match target {
        AuxTarget::Absent => false,
        AuxTarget::Undefined => true,
        AuxTarget::Defined(_) => false,
    }
}

// Whether a funcdata names what is not read-only data.
fn is_not_rodata(target: FuncdataTarget) -> bool
    ensures { result ≡ is_not_rodata_of target }
{
    match target {
        FuncdataTarget::Empty => false,
        FuncdataTarget::Untyped => true,
        FuncdataTarget::Typed(SymKind::Rodata) => false,
        FuncdataTarget::Typed(_) => true,
    }
}

// Whether a pcdata is no pc table.
fn any_no_table(targets: &[AuxTarget<'_>]) -> bool
    requires { All (λ target. IsSmall (target_view target)) targets.now }
    ensures { result ≡ any is_no_table_of (map target_view targets.now) }
{
    for target in targets {
        if is_no_table(*target) {
            return true;
        }
    }
    false
}

// Whether a pcdata has no definition.
fn any_undefined(targets: &[AuxTarget<'_>]) -> bool
    ensures { result ≡ any is_undefined_of (map target_view targets.now) }
{
    let mut rest = targets;
    while let [first, after @ ..] = rest {
        if is_undefined(*first) {
            return true;
        }
        rest = after;
    }
    false
}

// Whether a funcdata names what is not read-only data.
fn any_not_rodata(targets: &[FuncdataTarget]) -> bool
    ensures { result ≡ any is_not_rodata_of targets.now }
{
    let mut rest = targets;
    while let [first, after @ ..] = rest {
        if is_not_rodata(*first) {
            return true;
        }
        rest = after;
    }
    false
}

// Whether a node is of a symbol that is out of range in the object.
fn any_stray(object: &ObjView<'_>, info: &FuncInfo<'_>) -> bool
    ensures { result
        ≡ any_below (λ k. not (in_range object.now (node_at info.now k).func)) (node_count info.now) }
{
    for k in 0..info.nodes() {
        if !object.in_range(info.node(k).func) {
            return true;
        }
    }
    false
}

// P1: there are two funcinfo auxes, or the FuncInfo is too short.
#[tactic(auto, unfolding(crate::specs::Rules::p1))]
fn p1(f: &FuncTables<'_>) -> Option<Table>
    ensures { result ≡ p1_of (tables_view f.now) }
{
    if f.infos > 1 || is_short(f.info) {
        Some(Table::Info)
    } else {
        None
    }
}

// P2: a pc table is none.
#[tactic(auto, unfolding(crate::specs::Rules::p2))]
fn p2(f: &FuncTables<'_>) -> Option<Table>
    requires { HasSmallTables f.now }
    ensures { result ≡ p2_of (tables_view f.now) }
{
    if is_no_table(f.pcsp) {
        Some(Table::Pcsp)
    } else if is_no_table(f.pcfile) {
        Some(Table::Pcfile)
    } else if is_no_table(f.pcline) {
        Some(Table::Pcline)
    } else if is_no_table(f.pcinline) {
        Some(Table::Pcinline)
    } else if any_no_table(f.pcdata) {
        Some(Table::Pcdata)
    } else {
        None
    }
}

// P3: a value of pcfile is below -1 or not below the number of the object's files.
#[tactic(auto, unfolding(crate::specs::Rules::p3))]
fn p3(object: &ObjView<'_>, f: &FuncTables<'_>) -> Option<Table>
    ensures { result ≡ p3_of object.now (tables_view f.now) }
{
    if has_outside(object.count(Block::File), f.pcfile) {
        Some(Table::Pcfile)
    } else {
        None
    }
}

// P4: a value of pcinline is below -1 or not below the number of nodes.
#[tactic(auto, unfolding(crate::specs::Rules::p4))]
fn p4(f: &FuncTables<'_>) -> Option<Table>
    ensures { result ≡ p4_of (tables_view f.now) }
{
    if has_outside(nodes_of(&read_info(f.info)), f.pcinline) {
        Some(Table::Pcinline)
    } else {
        None
    }
}

// Whether a chain of inlined calls is too long.
#[tactic(auto, unfolding(crate::specs::Rules::has_long_chain))]
fn is_too_deep(alloc: Global, f: &FuncTables<'_>) -> Result<bool, OutOfMemory>
    ensures { IfOk result (λ deep.
        let t = tables_view f.now in deep ≡ has_long_chain_of (info_of t.info) t.pcinline) }
{
    match read_info(f.info) {
        Some(info) => has_long_chain(alloc, &info, table_bytes(f.pcinline)),
        None => Ok(false),
    }
}

// P5: a chain of nodes, on to pcinline's value where each was called, has more than 65,535.
#[tactic(auto, unfolding(crate::specs::Rules::p5))]
fn p5(alloc: Global, f: &FuncTables<'_>) -> Result<Option<Table>, OutOfMemory>
    ensures { IfOk result (λ found. found ≡ p5_of (tables_view f.now)) }
{
    let deep = is_too_deep(alloc, f)?;
    if deep {
        Ok(Some(Table::Tree))
    } else {
        Ok(None)
    }
}

// P6: there are more than 65,535 pcdata, or more than 255 funcdata.
#[tactic(auto, unfolding(crate::specs::Rules::p6))]
fn p6(f: &FuncTables<'_>) -> Option<Table>
    ensures { result ≡ p6_of (tables_view f.now) }
{
    if f.pcdata.len() > MOST_PCDATA {
        Some(Table::Pcdata)
    } else if f.funcdata.len() > MOST_FUNCDATA {
        Some(Table::Funcdata)
    } else {
        None
    }
}

// P7: a funcdata names what is not read-only data.
#[tactic(auto, unfolding(crate::specs::Rules::p7))]
fn p7(f: &FuncTables<'_>) -> Option<Table>
    ensures { result ≡ p7_of (tables_view f.now) }
{
    if any_not_rodata(f.funcdata) {
        Some(Table::Funcdata)
    } else {
        None
    }
}

// P8: the function of a node is out of range in the object.
#[tactic(auto, unfolding(crate::specs::Rules::p8, crate::specs::Rules::has_stray_call))]
fn p8(object: &ObjView<'_>, f: &FuncTables<'_>) -> Option<Table>
    ensures { result ≡ p8_of object.now (tables_view f.now) }
{
    let info = read_info(f.info)?;
    if any_stray(object, &info) {
        Some(Table::Tree)
    } else {
        None
    }
}

// P9: what an aux names has no definition.
#[tactic(auto, unfolding(crate::specs::Rules::p9))]
fn p9(f: &FuncTables<'_>) -> Option<Table>
    ensures { result ≡ p9_of (tables_view f.now) }
{
    if is_undefined(f.info) {
        Some(Table::Info)
    } else if is_undefined(f.pcsp) {
        Some(Table::Pcsp)
    } else if is_undefined(f.pcfile) {
        Some(Table::Pcfile)
    } else if is_undefined(f.pcline) {
        Some(Table::Pcline)
    } else if is_undefined(f.pcinline) {
        Some(Table::Pcinline)
    } else if any_undefined(f.pcdata) {
        Some(Table::Pcdata)
    } else {
        None
    }
}

// A table that breaks this rule, or what comes of the rules after it.
fn by_rule(rule: u8, found: Option<Table>, later: Option<BrokenTable>) -> Option<BrokenTable>
    ensures { option_map broken_view result ≡ by_rule_of rule found (option_map broken_view later) }
{
    match found {
        Some(table) => Some(BrokenTable { table, rule }),
        None => later,
    }
}

// What comes of the rules that take no memory and follow the one that does.
fn after_p5(object: &ObjView<'_>, f: &FuncTables<'_>) -> Option<BrokenTable>
    ensures { let t = tables_view f.now in option_map broken_view result ≡ after_p5_of object.now t }
{
    let ninth = by_rule(9, p9(f), None);
    let eighth = by_rule(8, p8(object, f), ninth);
    let seventh = by_rule(7, p7(f), eighth);
    by_rule(6, p6(f), seventh)
}

// The first rule that is broken, and the first table that breaks it.
#[tactic(auto, unfolding(crate::specs::Rules::first_broken))]
fn first_broken(
    alloc: Global,
    object: &ObjView<'_>,
    f: &FuncTables<'_>,
) -> Result<Option<BrokenTable>, OutOfMemory>
    requires { HasSmallTables f.now }
    ensures { IfOk result (λ found.
        option_map broken_view found ≡ first_broken_of object.now (tables_view f.now)) }
{
    let fifth = by_rule(5, p5(alloc, f)?, after_p5(object, f));
    let fourth = by_rule(4, p4(f), fifth);
    let third = by_rule(3, p3(object, f), fourth);
    let second = by_rule(2, p2(f), third);
    Ok(by_rule(1, p1(f), second))
}

/// Whether what an object says of a function's tables can be joined into an image's tables. The time
/// is linear in the tables and the inline tree, but for a search by halves in pcinline for each node.
///
/// # Errors
/// The least of the rules P1 to P9 that the function breaks, and the first table that breaks it; or
/// out of memory.
pub fn check_tables(
    alloc: Global,
    object: &ObjView<'_>,
    f: &FuncTables<'_>,
) -> Result<(), Fault<BrokenTable>>
    requires { HasSmallTables f.now }
    ensures ok { OnOk result (first_broken_of object.now (tables_view f.now) ≡ None) }
    ensures bad { IfErr result (RefusesFirst object.now (tables_view f.now)) }
{
    match first_broken(alloc, object, f)? {
        Some(broken) => Err(Fault::Bad(broken)),
        None => Ok(()),
    }
}
