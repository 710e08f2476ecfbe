// Objects byte by byte, and what refuses them. The objects are made by hand from Go's `cmd/internal/goobj`.
use glk_obj::{
    Abi, AuxKind, Block, FuncInfo, InlNode, NONE_PACKAGE, Numbers, ObjView, RelocKind, RelocRec,
    SELF_PACKAGE, SymKind, SymRec, SymRef,
};
use std::test::Fail;

// The object of a program's entry that only exits: one definition with nine bytes of code.
const LEAST: [u8; 174] = [
    // the magic, no fingerprint, no flags
    0, 103, 111, 49, 50, 48, 108, 100, 0, 0, 0, 0, 0, 0, 0, 0, 0, 0, 0, 0,
    // where the blocks begin
    112, 0, 0, 0, 112, 0, 0, 0, 120, 0, 0, 0, 120, 0, 0, 0, 141, 0, 0, 0, 141, 0, 0, 0, 141, 0, 0,
    0, 141, 0, 0, 0, 141, 0, 0, 0, 141, 0, 0, 0, 141, 0, 0, 0, 141, 0, 0, 0, 149, 0, 0, 0, 157, 0,
    0, 0, 165, 0, 0, 0, 165, 0, 0, 0, 165, 0, 0, 0, 174, 0, 0, 0, 174, 0, 0, 0,
    // a string
    95, 114, 116, 48, 95, 97, 109, 100, 54, 52, 95, 108, 105, 110, 117, 120,
    // PkgIdx: the dummy
    0, 0, 0, 0, 0, 0, 0, 0,
    // Symdef
    16, 0, 0, 0, 96, 0, 0, 0, 0, 0, 1, 0, 0, 9, 0, 0, 0, 0, 0, 0, 0,
    // RelocIdx, AuxIdx, DataIdx
    0, 0, 0, 0, 0, 0, 0, 0, 0, 0, 0, 0, 0, 0, 0, 0, 0, 0, 0, 0, 9, 0, 0, 0,
    // Data
    49, 255, 184, 60, 0, 0, 0, 15, 5,
];

// An object with a record in each block, 468 bytes.
const FULL: [u8; 468] = [
    // the magic, the fingerprint, the flags
    0, 103, 111, 49, 50, 48, 108, 100, 240, 241, 242, 243, 244, 245, 246, 247, 4, 0, 0, 0,
    // where the blocks begin
    121, 0, 0, 0, 137, 0, 0, 0, 153, 0, 0, 0, 161, 0, 0, 0, 182, 0, 0, 0, 203, 0, 0, 0, 224, 0, 0,
    0, 245, 0, 0, 0, 10, 1, 0, 0, 20, 1, 0, 0, 28, 1, 0, 0, 48, 1, 0, 0, 68, 1, 0, 0, 88, 1, 0, 0,
    108, 1, 0, 0, 154, 1, 0, 0, 172, 1, 0, 0, 180, 1, 0, 0, 212, 1, 0, 0,
    // the strings: fmt, os, m.go, f, g, h, k, r, first, second
    102, 109, 116, 111, 115, 109, 46, 103, 111, 102, 103, 104, 107, 114, 102, 105, 114, 115, 116,
    115, 101, 99, 111, 110, 100,
    // Autolib
    3, 0, 0, 0, 96, 0, 0, 0, 1, 2, 3, 4, 5, 6, 7, 8,
    // PkgIdx
    0, 0, 0, 0, 0, 0, 0, 0, 2, 0, 0, 0, 99, 0, 0, 0,
    // File
    4, 0, 0, 0, 101, 0, 0, 0,
    // Symdef
    1, 0, 0, 0, 105, 0, 0, 0, 1, 0, 1, 2, 3, 16, 0, 0, 0, 32, 0, 0, 0,
    // Hashed64def
    1, 0, 0, 0, 106, 0, 0, 0, 0, 0, 2, 64, 0, 4, 0, 0, 0, 4, 0, 0, 0,
    // Hasheddef
    1, 0, 0, 0, 107, 0, 0, 0, 0, 0, 2, 0, 0, 2, 0, 0, 0, 1, 0, 0, 0,
    // Nonpkgdef
    1, 0, 0, 0, 108, 0, 0, 0, 255, 255, 3, 1, 4, 8, 0, 0, 0, 0, 16, 0, 0,
    // Nonpkgref
    1, 0, 0, 0, 109, 0, 0, 0, 0, 0, 0, 0, 0, 0, 0, 0, 0, 0, 0, 0, 0,
    // RefFlags
    1, 0, 0, 0, 5, 0, 0, 0, 16, 1,
    // Hash64
    17, 18, 19, 20, 21, 22, 23, 24,
    // Hash
    32, 33, 34, 35, 36, 37, 38, 39, 40, 41, 42, 43, 44, 45, 46, 47, 48, 49, 50, 51,
    // RelocIdx
    0, 0, 0, 0, 2, 0, 0, 0, 2, 0, 0, 0, 2, 0, 0, 0, 2, 0, 0, 0,
    // AuxIdx
    0, 0, 0, 0, 1, 0, 0, 0, 1, 0, 0, 0, 1, 0, 0, 0, 2, 0, 0, 0,
    // DataIdx
    0, 0, 0, 0, 4, 0, 0, 0, 6, 0, 0, 0, 8, 0, 0, 0, 8, 0, 0, 0,
    // Reloc
    0, 0, 0, 0, 8, 1, 0, 254, 255, 255, 255, 255, 255, 255, 255, 251, 255, 255, 127, 0, 0, 0, 0,
    12, 0, 0, 0, 4, 8, 0, 8, 7, 6, 5, 4, 3, 2, 1, 255, 255, 255, 127, 1, 0, 0, 0,
    // Aux
    1, 254, 255, 255, 127, 0, 0, 0, 0, 9, 252, 255, 255, 127, 7, 0, 0, 0,
    // Data
    160, 161, 162, 163, 176, 177, 192, 193,
    // RefName
    1, 0, 0, 0, 5, 0, 0, 0, 5, 0, 0, 0, 110, 0, 0, 0, 1, 0, 0, 0, 5, 0, 0, 0, 6, 0, 0, 0, 115, 0,
    0, 0,
];

// Data of a FuncInfo of two files and two nodes, 80 bytes.
const INFO: [u8; 80] = [
    // args, locals, funcID, funcFlag, two bytes without a meaning, startLine
    24, 1, 0, 0, 7, 7, 7, 7, 3, 2, 9, 9, 254, 255, 255, 255,
    // the files
    2, 0, 0, 0, 0, 0, 0, 0, 1, 0, 0, 0,
    // the nodes: parent, file, line, func, parentPC
    2, 0, 0, 0, 255, 255, 255, 255, 1, 0, 0, 0, 10, 0, 0, 0, 255, 255, 255, 127, 5, 0, 0, 0, 4, 3,
    2, 1, 0, 0, 0, 0, 0, 0, 0, 0, 246, 255, 255, 255, 1, 0, 0, 0, 6, 0, 0, 0, 255, 255, 255, 255,
];

// The bytes as values of which a proof knows nothing: the tests read them.

fn least() -> [u8; 174] {
    LEAST
}

fn full() -> [u8; 468] {
    FULL
}

fn info() -> [u8; 80] {
    INFO
}

// The rule and the offset by which bytes with one of them changed are refused; 0 and 0 where they
// are an object.
fn refusal(bytes: &mut [u8], at: usize, value: u8) -> (u8, u64) {
    if let Some(byte) = bytes.get_mut(at) {
        *byte = value;
    }
    match ObjView::read(bytes) {
        Ok(_) => (0, 0),
        Err(bad) => (bad.rule, bad.offset),
    }
}

#[test]
fn the_rule_and_the_offset_are_named(rt: HostRuntime) {
    let rows = [
        // (whether of the second object, where, what, rule, offset)
        (false, 0, 1, 2, 0),
        (false, 20, 95, 3, 20),
        (false, 92, 175, 4, 92),
        (false, 28, 119, 5, 24),
        (false, 16, 8, 6, 16),
        // Hash begins four bytes before RelocIdx, which then has one entry
        (false, 64, 145, 8, 60),
        (false, 68, 145, 9, 64),
        // an entry above the next one, and the last entry past the records
        (false, 141, 1, 10, 145),
        (false, 161, 10, 10, 161),
        (false, 120, 79, 11, 120),
        (false, 120, 78, 12, 120),
        (false, 133, 8, 14, 120),
        (false, 137, 3, 16, 120),
        // an empty string at the end, and past it; alignments of 4096 and of 8192
        (false, 116, 174, 0, 0),
        (false, 116, 175, 11, 112),
        (false, 138, 0x10, 0, 0),
        (false, 138, 0x20, 16, 120),
        (true, 60, 0x14, 7, 56),
        (true, 64, 0x20, 8, 60),
        (true, 463, 1, 11, 460),
        (true, 153, 22, 12, 153),
        // references of relocations, auxes, flags and names
        (true, 383, 1, 13, 379),
        (true, 406, 2, 13, 402),
        (true, 266, 2, 13, 266),
        (true, 436, 2, 13, 436),
        (true, 174, 4, 15, 364),
        (true, 387, 13, 15, 387),
        (true, 367, 0x80, 15, 364),
    ];
    for (second, at, value, rule, offset) in rows {
        let found = if second {
            refusal(&mut full(), at, value)
        } else {
            refusal(&mut least(), at, value)
        };
        assert_eq!(rt; found, (rule, offset), "{value} at {at}");
    }
}

#[test]
fn each_block_has_its_records(rt: HostRuntime) -> Result<(), Fail> {
    let bytes = full();
    let object = ObjView::read(&bytes)?;
    let rows = [
        (Block::Autolib, 1),
        (Block::PkgIdx, 2),
        (Block::File, 1),
        (Block::Symdef, 1),
        (Block::Hashed64def, 1),
        (Block::Hasheddef, 1),
        (Block::Nonpkgdef, 1),
        (Block::Nonpkgref, 1),
        (Block::RefFlags, 1),
        (Block::Hash64, 1),
        (Block::Hash, 1),
        (Block::RelocIdx, 5),
        (Block::AuxIdx, 5),
        (Block::DataIdx, 5),
        (Block::Reloc, 2),
        (Block::Aux, 2),
        (Block::Data, 8),
        (Block::RefName, 2),
        (Block::End, 0),
    ];
    for (block, records) in rows {
        assert_eq!(rt; object.count(block), records, "{block:?}");
    }
    Ok(())
}

// Whether the strings and hashes of the second object are read.
fn has_strings(object: &ObjView<'_>) -> bool {
    if object.count(Block::Autolib) == 0 || object.count(Block::PkgIdx) < 2 {
        return false;
    }
    if object.count(Block::File) == 0 || object.count(Block::Hasheddef) == 0 {
        return false;
    }
    if object.count(Block::Hash64) == 0 || object.count(Block::RefName) == 0 {
        return false;
    }
    let other = SymRef { pkg: 1, sym: 5 };
    let (path, fingerprint) = object.autolib(0);
    let (target, name) = object.ref_name_at(0);
    path == b"fmt".as_slice()
        && fingerprint == [1, 2, 3, 4, 5, 6, 7, 8]
        && object.pkg(1) == b"os".as_slice()
        && object.file(0) == b"m.go".as_slice()
        && object.hash64(0) == [17, 18, 19, 20, 21, 22, 23, 24]
        && object.hash(0).first() == Some(&32)
        && object.hash_width() == Some(20)
        && target == other
        && name == b"first".as_slice()
        && object.ref_name(other) == Some(b"first".as_slice())
}

// Whether a definition of the second object, its data, its relocations and its aux are read.
fn has_definition(object: &ObjView<'_>) -> bool {
    if object.definitions() != 4 || object.symbols() != 5 {
        return false;
    }
    if object.relocs(0) != 2 || object.auxes(3) != 1 {
        return false;
    }
    let symbol = SymRec {
        name: b"k",
        abi: 65535,
        kind: 3,
        flag: 1,
        flag2: 4,
        size: 8,
        align: 4096,
    };
    let reloc = RelocRec {
        off: 12,
        size: 4,
        kind: 8,
        add: 0x0102_0304_0506_0708,
        target: SymRef {
            pkg: NONE_PACKAGE,
            sym: 1,
        },
    };
    object.sym(3) == symbol
        && object.data(1) == [0xb0, 0xb1].as_slice()
        && object.reloc(0, 1) == reloc
        && object.aux(3, 0).kind == 9
}

#[test]
fn records_are_read(rt: HostRuntime) -> Result<(), Fail> {
    let bytes = full();
    let object = ObjView::read(&bytes)?;
    assert!(rt; has_strings(&object));
    assert!(rt; has_definition(&object));
    let own = [0, 1].map(|sym| object.in_range(SymRef {
        pkg: SELF_PACKAGE,
        sym,
    }));
    assert_eq!(rt; own, [true, false]);
    Ok(())
}

#[test]
fn a_function_is_read(rt: HostRuntime) -> Result<(), Fail> {
    let bytes = info();
    let function = FuncInfo::read(&bytes).ok_or("too short")?;
    let head = (function.args(), function.func_id(), function.func_flag());
    assert_eq!(rt; head, (280, 3, 2));
    assert_eq!(rt; function.start_line(), -2);
    assert_eq!(rt; function.nodes(), 2);
    let inner = InlNode {
        parent: 0,
        file: 0,
        line: -10,
        func: SymRef { pkg: 1, sym: 6 },
        parent_pc: -1,
    };
    assert_eq!(rt; function.node(1), inner);
    Ok(())
}

#[test]
fn numbers_have_names(rt: HostRuntime) {
    assert_eq!(rt; Abi::of(65535), Some(Abi::Static));
    assert_eq!(rt; SymKind::of(7), Some(SymKind::TlsBss));
    assert_eq!(rt; AuxKind::of(10), Some(AuxKind::PcInline));
    assert_eq!(rt; RelocKind::PcRel.standard_number(), 3);
}

#[test]
fn flags_have_names(rt: HostRuntime) {
    let symbol = SymRec {
        name: b"",
        abi: 0,
        kind: 2,
        flag: 0b0010_0101,
        flag2: 0b0000_1001,
        size: 0,
        align: 0,
    };
    let first = [
        symbol.is_dupok(),
        symbol.is_local(),
        symbol.is_typelink(),
        symbol.is_leaf(),
        symbol.is_nosplit(),
        symbol.is_reflectmethod(),
        symbol.is_gotype(),
    ];
    assert_eq!(rt; first, [true, false, true, false, false, true, false]);
    let second = [
        symbol.is_used_in_iface(),
        symbol.is_itab(),
        symbol.is_dict(),
        symbol.is_pkginit(),
    ];
    assert_eq!(rt; second, [true, false, false, true]);
}

// The kind of the number 7, or the first bad line.
fn seven(text: &[u8]) -> Result<Option<RelocKind>, u32> {
    match Numbers::parse(text) {
        Ok(numbers) => Ok(numbers.kind(7)),
        Err(bad) => Err(bad.line),
    }
}

#[test]
fn files_of_numbers_are_read(rt: HostRuntime) {
    let rows = [
        (
            b"# numbers\r\n\r\n \tADDR 7 \r\nCALL   32767".as_slice(),
            Ok(Some(RelocKind::Addr)),
        ),
        (
            b"USENAMEDMETHOD 7\n\t # CALL 7\n#\xff\n",
            Ok(Some(RelocKind::UseNamedMethod)),
        ),
        (b"", Ok(None)),
        (b"CALL 32768", Err(1)),
        (b"CALL 07", Err(1)),
        (b"CALL 7 8", Err(1)),
        (b"call 7", Err(1)),
        (b"CALL 2\nADDR 1\nCALL 3\n", Err(3)),
        (b"CALL 2\n\nADDR 2\n", Err(3)),
    ];
    for (text, wanted) in rows {
        assert_eq!(rt; seven(text), wanted, "{text:?}");
    }
}
