// The symbols of a world: functions, data without a package, and the entry.
ghost use Rattle.std.specs.Prelude.{◌≡◌, ◌+◌, ◌*◌, ◌<◌, ◌≤◌, ◌^◌, ◌/◌, [], ◌∷◌, pos, IfOk, length, replicate};
ghost use Rattle.glk_obj.specs.Symbols.{abi_number};
ghost use Rattle.glk_gen.specs.Calls.{imports, calls_each};
ghost use Rattle.glk_gen.specs.Objects.{function_ref, relocation, code, function_symbol, function_with, function_calling, function_of, data_size, data_of, entry};

use crate::calls::{CALLS_EACH, Calls};
use crate::imports::package_number;
use crate::names::{DATA_NAMES, data_name, function_name};
use crate::world::PACKAGE_SIZE;
use glk_base::{OutOfMemory, Seq, Text};
use glk_obj::{Abi, NONE_PACKAGE, RelocKind, RelocRec, SymKind, SymRef};
use glk_objdesc::{DefDesc, SymDesc};
use std::alloc::Global;

// How long a field is.
const FIELD_SIZE: u8 = 4;

// Where a function's fields are.
const FIRST_CALL_OFFSET: u8 = 1;

const SECOND_CALL_OFFSET: u8 = 6;

const DATA_OFFSET: u8 = 13;

// How long a function is.
const FUNCTION_SIZE: u32 = 32;
// The instruction that does nothing.
const NOP: u8 = 0x90;

// The data without a package.
const DATA_SIZES: u32 = 4;

const DATA_ALIGN: u32 = 8;

const DATA_BYTE: u8 = 0x64;

const DUPOK: u8 = 1 << 0;

// The name of the program's entry.
const ENTRY_NAME: &[u8] = b"_rt0_amd64_linux";

// Package k's reference to function i.
fn function_ref(k: u32, imported: &[u32], i: u32) -> SymRef
    requires { length imported.now < 2 ^ 31 }
    ensures { result ≡ function_ref k imported.now i }
{
    SymRef {
        pkg: package_number(k, imported, i / PACKAGE_SIZE),
        sym: i % PACKAGE_SIZE,
    }
}

// A relocation of this kind at an offset.
fn relocation(at: u8, kind: RelocKind, target: SymRef) -> RelocRec
    ensures { result ≡ relocation at kind target }
{
    RelocRec {
        off: i32::from(at),
        size: FIELD_SIZE,
        kind: kind.standard_number(),
        add: 0,
        target,
    }
}

// A function's code.
#[tactic(auto, unfolding(crate::specs::Objects::code))]
fn code(alloc: Global) -> Result<Text, OutOfMemory>
    ensures { IfOk result (λ text. text ≡ code) }
{
    Ok(Text::of(vec![in alloc; NOP; FUNCTION_SIZE as usize]?))
}

// The symbol of a function.
fn function_symbol(name: Text, abi: Abi) -> SymDesc
    ensures { result ≡ function_symbol name (abi_number abi) }
{
    SymDesc {
        name,
        abi: abi.number(),
        kind: SymKind::Text.number(),
        flag: 0,
        flag2: 0,
        size: FUNCTION_SIZE,
        align: 0,
    }
}

// A function with these relocations.
fn function_with(
    alloc: Global,
    symbol: SymDesc,
    relocs: Vec<RelocRec>,
) -> Result<DefDesc, OutOfMemory>
    ensures { IfOk result (λ def. def ≡ function_with symbol relocs.items) }
{
    Ok(DefDesc {
        sym: symbol,
        hash: Text::of(Vec::new(alloc)),
        content: code(alloc)?,
        relocs: Seq::new(relocs),
        auxes: Seq::new(Vec::new(alloc)),
    })
}

// Function i of package k, which calls these two.
fn function_calling(
    alloc: Global,
    k: u32,
    imported: &[u32],
    i: u32,
    first: u32,
    second: u32,
) -> Result<DefDesc, OutOfMemory>
    requires { length imported.now < 2 ^ 31 }
    ensures { IfOk result (λ def. def ≡ function_calling k imported.now i first second) }
{
    let data = SymRef {
        pkg: NONE_PACKAGE,
        sym: 0,
    };
    let relocs = vec![in alloc;
        relocation(
            FIRST_CALL_OFFSET,
            RelocKind::Call,
            function_ref(k, imported, first)
        ),
        relocation(
            SECOND_CALL_OFFSET,
            RelocKind::Call,
            function_ref(k, imported, second)
        ),
        relocation(DATA_OFFSET, RelocKind::PcRel, data),
    ]?;
    let symbol = function_symbol(function_name(alloc, k, i)?, Abi::Internal);
    function_with(alloc, symbol, relocs)
}

/// Function i, which is one of package k, with the calls that are drawn for it.
#[tactic(auto, unfolding(crate::specs::Objects::function_of))]
pub(crate) fn function(
    alloc: Global,
    calls: &Calls,
    k: u32,
    imported: &[u32],
    i: u32,
) -> Result<DefDesc, OutOfMemory>
    requires imported { imported.now ≡ imports calls.now.seed calls.now.functions k }
    requires few { length imported.now < 2 ^ 31 }
    requires inside { i < calls.now.functions }
    ensures { IfOk result (λ def. def ≡ function_of calls.now.seed calls.now.functions k i) }
{
    let call = CALLS_EACH * i;
    let first = calls.callee(call);
    let second = calls.callee(call + 1);
    function_calling(alloc, k, imported, i, first, second)
}

// How long the data of package k are.
fn data_size(k: u32) -> u32
    ensures value { result ≡ data_size k }
    ensures small { result ≤ 32 }
{
    8 + 8 * (k / DATA_NAMES % DATA_SIZES)
}

/// The data of package k.
#[tactic(auto, unfolding(crate::specs::Objects::data_of))]
pub(crate) fn data(alloc: Global, k: u32) -> Result<DefDesc, OutOfMemory>
    ensures { IfOk result (λ def. def ≡ data_of k) }
{
    let size = data_size(k);
    Ok(DefDesc {
        sym: SymDesc {
            name: data_name(alloc, k)?,
            abi: Abi::Abi0.number(),
            kind: SymKind::Rodata.number(),
            flag: DUPOK,
            flag2: 0,
            size,
            align: DATA_ALIGN,
        },
        hash: Text::of(Vec::new(alloc)),
        content: Text::of(vec![in alloc; DATA_BYTE; size as usize]?),
        relocs: Seq::new(Vec::new(alloc)),
        auxes: Seq::new(Vec::new(alloc)),
    })
}

/// The program's entry, which calls function 0.
#[tactic(auto, unfolding(crate::specs::Objects::entry))]
pub(crate) fn entry(alloc: Global) -> Result<DefDesc, OutOfMemory>
    ensures { IfOk result (λ def. def ≡ entry) }
{
    let function_zero = SymRef { pkg: 1, sym: 0 };
    let relocs = vec![in alloc; relocation(FIRST_CALL_OFFSET, RelocKind::Call, function_zero)]?;
    let symbol = function_symbol(Text::new(alloc, ENTRY_NAME)?, Abi::Abi0);
    function_with(alloc, symbol, relocs)
}
