// A function with two inlined calls, in an object with one file.
use glk_base::{Fault, OutOfMemory};
use glk_obj::ObjView;
use glk_tables::{AuxTarget, BrokenTable, FuncTables, FuncdataTarget, Table, check_tables};
use std::process::Abort;
use std::test::Fail;

// The object: a file `a.go`, and nothing else.
const OBJECT: &[u8; 128] = b"\x00go120ld\0\0\0\0\0\0\0\0\0\0\0\0\
    \x64\0\0\0\x64\0\0\0\x6c\0\0\0\x74\0\0\0\x74\0\0\0\x74\0\0\0\x74\0\0\0\x74\0\0\0\x74\0\0\0\x74\0\0\0\
    \x74\0\0\0\x74\0\0\0\x78\0\0\0\x7c\0\0\0\x80\0\0\0\x80\0\0\0\x80\0\0\0\x80\0\0\0\x80\0\0\0\
    a.go\0\0\0\0\0\0\0\0\x04\0\0\0\x60\0\0\0\0\0\0\0\0\0\0\0\0\0\0\0";

// The function's FuncInfo: two calls of builtin functions, the one at offset 3 and the other, in it,
// at offset 7.
const INFO: &[u8; 72] = b"\0\0\0\0\0\0\0\0\0\0\0\0\x0a\0\0\0\0\0\0\0\x02\0\0\0\
    \xff\xff\xff\xff\0\0\0\0\x0a\0\0\0\xfc\xff\xff\x7f\0\0\0\0\x03\0\0\0\
    \0\0\0\0\0\0\0\0\x14\0\0\0\xfc\xff\xff\x7f\0\0\0\0\x07\0\0\0";

// The same with the first call at offset 5, in itself.
const CYCLE: &[u8; 72] = b"\0\0\0\0\0\0\0\0\0\0\0\0\x0a\0\0\0\0\0\0\0\x02\0\0\0\
    \xff\xff\xff\xff\0\0\0\0\x0a\0\0\0\xfc\xff\xff\x7f\0\0\0\0\x05\0\0\0\
    \0\0\0\0\0\0\0\0\x14\0\0\0\xfc\xff\xff\x7f\0\0\0\0\x07\0\0\0";

// Its tables: the value 0 up to 12; lines 10, 20 and 22, for 4 bytes each; and its calls none, 0 and 1.
const ZERO: &[u8] = b"\x02\x0c\x00";

const LINES: &[u8] = b"\x16\x04\x14\x04\x04\x04\x00";

const CALLS: &[u8] = b"\x00\x04\x02\x04\x02\x04\x00";

// What is refused of a function with this FuncInfo, this pcsp and these funcdata.
fn answer(
    rt: &impl Abort,
    alloc: std::alloc::Global,
    info: &[u8],
    pcsp: &[u8],
    funcdata: &[FuncdataTarget],
) -> Result<Option<BrokenTable>, Fail> {
    assert!(rt; pcsp.len() < 100);
    let object = ObjView::read(OBJECT)?;
    let tables = FuncTables {
        infos: 1,
        info: AuxTarget::Defined(info),
        pcsp: AuxTarget::Defined(pcsp),
        pcfile: AuxTarget::Defined(ZERO),
        pcline: AuxTarget::Defined(LINES),
        pcinline: AuxTarget::Defined(CALLS),
        pcdata: &[],
        funcdata,
    };
    match check_tables(alloc, &object, &tables) {
        Ok(()) => Ok(None),
        Err(Fault::Bad(bad)) => Ok(Some(bad)),
        Err(Fault::OutOfMemory) => Err(OutOfMemory)?,
    }
}

#[test]
fn a_sound_function_is_accepted(rt: HostRuntime) -> Result<(), Fail> {
    let found = answer(&rt, rt.alloc(), INFO, ZERO, &[FuncdataTarget::Empty])?;
    assert_eq!(rt; found, None);
    Ok(())
}

#[test]
fn a_call_in_itself_is_refused(rt: HostRuntime) -> Result<(), Fail> {
    let found = answer(&rt, rt.alloc(), CYCLE, ZERO, &[])?;
    assert_eq!(rt;
        found,
        Some(BrokenTable {
            table: Table::Tree,
            rule: 5,
        })
    );
    Ok(())
}

#[test]
fn a_table_without_its_end_is_refused(rt: HostRuntime) -> Result<(), Fail> {
    let found = answer(&rt, rt.alloc(), CYCLE, b"\x02\x0c", &[])?;
    assert_eq!(rt;
        found,
        Some(BrokenTable {
            table: Table::Pcsp,
            rule: 2,
        })
    );
    Ok(())
}

#[test]
fn a_funcdata_without_a_type_is_refused(rt: HostRuntime) -> Result<(), Fail> {
    let found = answer(&rt, rt.alloc(), INFO, ZERO, &[FuncdataTarget::Untyped])?;
    assert_eq!(rt;
        found,
        Some(BrokenTable {
            table: Table::Funcdata,
            rule: 7,
        })
    );
    Ok(())
}
