// Type data byte by byte, and what is read of them.
use super::{
    Methods, extra_star, imethod, imethod_name_target, imethod_type_target, itab_type_target, kind,
    method_at, method_name_target, name, target_at, type_string, type_string_target,
};

/// A struct type with two methods, 128 bytes: the header, PkgPath and Fields, the uncommon part at
/// 80, the entries at 96 and 112.
const STRUCT: [u8; 128] = [
    // Size_, PtrBytes
    0, 0, 0, 0, 0, 0, 0, 0, 0, 0, 0, 0, 0, 0, 0, 0,
    // Hash, TFlag (uncommon), Align_, FieldAlign_, Kind_ (struct)
    0, 0, 0, 0, 1, 1, 1, 25,
    // Equal, GCData
    0, 0, 0, 0, 0, 0, 0, 0, 0, 0, 0, 0, 0, 0, 0, 0,
    // Str, PtrToThis
    0, 0, 0, 0, 0, 0, 0, 0,
    // StructType: PkgPath, Fields
    0, 0, 0, 0, 0, 0, 0, 0, 0, 0, 0, 0, 0, 0, 0, 0, 0, 0, 0, 0, 0, 0, 0, 0, 0, 0, 0, 0, 0, 0, 0, 0,
    // UncommonType: PkgPath, Mcount, Xcount, Moff, unused
    0, 0, 0, 0, 2, 0, 2, 0, 16, 0, 0, 0, 0, 0, 0, 0,
    // two entries of Name, Mtyp, Ifn, Tfn
    0, 0, 0, 0, 0, 0, 0, 0, 0, 0, 0, 0, 0, 0, 0, 0, 0, 0, 0, 0, 0, 0, 0, 0, 0, 0, 0, 0, 0, 0, 0, 0,
];

/// The offsets of its METHODOFF relocations.
const TRIPLES: [u32; 6] = [100, 104, 108, 116, 120, 124];

/// The offsets of all its relocations, with numbers of targets: 1, 2 and 6 are names, 3 a function
/// type, 4 and 5 code.
const TARGETS: [(u32, u32); 9] = [
    (40, 6),
    (96, 1),
    (100, 3),
    (104, 4),
    (108, 4),
    (112, 2),
    (116, 3),
    (120, 5),
    (124, 5),
];

#[test]
fn a_struct_with_two_methods(rt: HostRuntime) {
    assert_eq!(rt; kind(&STRUCT), Ok(25));
    assert_eq!(rt; extra_star(&STRUCT), Ok(false));
    assert_eq!(rt; method_at(&STRUCT, &TRIPLES, 1), Ok(112));
    let methods = Methods::read(&STRUCT, &TRIPLES);
    assert_eq!(rt; methods.map(|all| all.count()), Ok(2));
    assert_eq!(rt; type_string_target(&TARGETS), Ok(6));
    assert_eq!(rt; method_name_target(&TARGETS, 112), Ok(2));
    assert_eq!(rt; target_at(&TARGETS, 100), Ok(3));
}

#[test]
fn an_interface_with_a_method(rt: HostRuntime) {
    let mut interface = [0; 88];
    interface[23] = 20;
    assert_eq!(rt; imethod(&interface, 80), Ok(80));
    let targets = [(8, 3), (80, 1), (84, 2)];
    assert_eq!(rt; imethod_name_target(&targets, 80), Ok(1));
    assert_eq!(rt; imethod_type_target(&targets, 80), Ok(2));
    assert_eq!(rt; itab_type_target(&targets), Ok(3));
}

#[test]
fn names_and_strings(rt: HostRuntime) {
    assert_eq!(rt;
        name(b"\x00\x03Run\x00\x84\x00Stop", 5),
        Some(b"Stop".as_slice())
    );
    assert_eq!(rt; type_string(b"*main.T", true), Some(b"main.T".as_slice()));
}
