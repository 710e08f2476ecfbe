// What worlds are. The expected bytes are from a second program, written from the format.
use glk_ar::{members, object_part};
use glk_gen::{World, gen_world};
use glk_obj::ObjView;
use sha2::{Digest, Sha256};
use std::alloc::{AllocError, Global};
use std::test::Fail;

// The world of seed 1 with one function: its configuration, and each file behind its path and a newline.
const SMALLEST: [u8; 776] = [
    112, 97, 99, 107, 97, 103, 101, 102, 105, 108, 101, 32, 112, 48, 61, 112, 48, 46, 97, 10, 109,
    97, 105, 110, 46, 97, 10, 33, 60, 97, 114, 99, 104, 62, 10, 95, 103, 111, 95, 46, 111, 32, 32,
    32, 32, 32, 32, 32, 32, 32, 32, 48, 32, 32, 32, 32, 32, 32, 32, 32, 32, 32, 32, 48, 32, 32, 32,
    32, 32, 48, 32, 32, 32, 32, 32, 54, 52, 52, 32, 32, 32, 32, 32, 50, 55, 54, 32, 32, 32, 32, 32,
    32, 32, 96, 10, 103, 111, 32, 111, 98, 106, 101, 99, 116, 32, 108, 105, 110, 117, 120, 32, 97,
    109, 100, 54, 52, 32, 109, 107, 111, 98, 106, 10, 33, 10, 0, 103, 111, 49, 50, 48, 108, 100, 0,
    0, 0, 0, 0, 0, 0, 0, 0, 0, 0, 0, 114, 0, 0, 0, 130, 0, 0, 0, 146, 0, 0, 0, 146, 0, 0, 0, 167,
    0, 0, 0, 167, 0, 0, 0, 167, 0, 0, 0, 167, 0, 0, 0, 167, 0, 0, 0, 167, 0, 0, 0, 167, 0, 0, 0,
    167, 0, 0, 0, 175, 0, 0, 0, 183, 0, 0, 0, 191, 0, 0, 0, 214, 0, 0, 0, 214, 0, 0, 0, 246, 0, 0,
    0, 246, 0, 0, 0, 112, 48, 95, 114, 116, 48, 95, 97, 109, 100, 54, 52, 95, 108, 105, 110, 117,
    120, 2, 0, 0, 0, 96, 0, 0, 0, 0, 0, 0, 0, 0, 0, 0, 0, 0, 0, 0, 0, 0, 0, 0, 0, 2, 0, 0, 0, 96,
    0, 0, 0, 16, 0, 0, 0, 98, 0, 0, 0, 0, 0, 1, 0, 0, 32, 0, 0, 0, 0, 0, 0, 0, 0, 0, 0, 0, 1, 0, 0,
    0, 0, 0, 0, 0, 0, 0, 0, 0, 0, 0, 0, 0, 32, 0, 0, 0, 1, 0, 0, 0, 4, 2, 0, 0, 0, 0, 0, 0, 0, 0,
    0, 1, 0, 0, 0, 0, 0, 0, 0, 144, 144, 144, 144, 144, 144, 144, 144, 144, 144, 144, 144, 144,
    144, 144, 144, 144, 144, 144, 144, 144, 144, 144, 144, 144, 144, 144, 144, 144, 144, 144, 144,
    112, 48, 46, 97, 10, 33, 60, 97, 114, 99, 104, 62, 10, 95, 103, 111, 95, 46, 111, 32, 32, 32,
    32, 32, 32, 32, 32, 32, 32, 48, 32, 32, 32, 32, 32, 32, 32, 32, 32, 32, 32, 48, 32, 32, 32, 32,
    32, 48, 32, 32, 32, 32, 32, 54, 52, 52, 32, 32, 32, 32, 32, 51, 51, 50, 32, 32, 32, 32, 32, 32,
    32, 96, 10, 103, 111, 32, 111, 98, 106, 101, 99, 116, 32, 108, 105, 110, 117, 120, 32, 97, 109,
    100, 54, 52, 32, 109, 107, 111, 98, 106, 10, 33, 10, 0, 103, 111, 49, 50, 48, 108, 100, 0, 0,
    0, 0, 0, 0, 0, 0, 0, 0, 0, 0, 107, 0, 0, 0, 107, 0, 0, 0, 115, 0, 0, 0, 115, 0, 0, 0, 136, 0,
    0, 0, 136, 0, 0, 0, 136, 0, 0, 0, 157, 0, 0, 0, 157, 0, 0, 0, 157, 0, 0, 0, 157, 0, 0, 0, 157,
    0, 0, 0, 169, 0, 0, 0, 181, 0, 0, 0, 193, 0, 0, 0, 6, 1, 0, 0, 6, 1, 0, 0, 46, 1, 0, 0, 46, 1,
    0, 0, 112, 48, 46, 102, 48, 103, 101, 110, 46, 100, 48, 0, 0, 0, 0, 0, 0, 0, 0, 5, 0, 0, 0, 96,
    0, 0, 0, 1, 0, 1, 0, 0, 32, 0, 0, 0, 0, 0, 0, 0, 6, 0, 0, 0, 101, 0, 0, 0, 0, 0, 2, 1, 0, 8, 0,
    0, 0, 8, 0, 0, 0, 0, 0, 0, 0, 3, 0, 0, 0, 3, 0, 0, 0, 0, 0, 0, 0, 0, 0, 0, 0, 0, 0, 0, 0, 0, 0,
    0, 0, 32, 0, 0, 0, 40, 0, 0, 0, 1, 0, 0, 0, 4, 2, 0, 0, 0, 0, 0, 0, 0, 0, 0, 251, 255, 255,
    127, 0, 0, 0, 0, 6, 0, 0, 0, 4, 2, 0, 0, 0, 0, 0, 0, 0, 0, 0, 251, 255, 255, 127, 0, 0, 0, 0,
    13, 0, 0, 0, 4, 3, 0, 0, 0, 0, 0, 0, 0, 0, 0, 255, 255, 255, 127, 0, 0, 0, 0, 144, 144, 144,
    144, 144, 144, 144, 144, 144, 144, 144, 144, 144, 144, 144, 144, 144, 144, 144, 144, 144, 144,
    144, 144, 144, 144, 144, 144, 144, 144, 144, 144, 100, 100, 100, 100, 100, 100, 100, 100,
];

// How long the world of seed 7 with 130 functions is in this form, and its digest.
const THREE_PACKAGES_LENGTH: usize = 19528;

const THREE_PACKAGES_DIGEST: [u8; 32] = [
    107, 205, 190, 243, 54, 182, 131, 242, 92, 243, 98, 80, 112, 20, 33, 135, 0, 131, 29, 217, 3,
    201, 174, 82, 108, 113, 109, 240, 104, 166, 25, 181,
];

// A world in one piece.
fn flat(alloc: Global, world: &World) -> Result<Vec<u8>, AllocError> {
    let mut out = Vec::from_slice(alloc, world.importcfg.as_bytes())?;
    for (path, archive) in world.archives.as_slice() {
        out.extend_from_slice(path.as_str().as_bytes())?;
        out.extend_from_slice(b"\n")?;
        out.extend_from_slice(archive.as_bytes())?;
    }
    Ok(out)
}

// Whether a package file begins with an object that breaks no rule.
fn is_sound(archive: &[u8]) -> bool {
    let Ok(mut walk) = members(archive) else {
        return false;
    };
    let Some(Ok(member)) = walk.next() else {
        return false;
    };
    match object_part(member.body) {
        Ok(part) => ObjView::read(part.goobj).is_ok(),
        Err(_) => false,
    }
}

#[test]
fn the_smallest_world(rt: HostRuntime) -> Result<(), Fail> {
    let alloc = rt.alloc();
    let world = gen_world(alloc, 1, 1)?;
    let bytes = flat(alloc, &world)?;
    assert!(rt; bytes.as_slice() == SMALLEST.as_slice());
    Ok(())
}

#[test]
fn a_world_of_three_packages(rt: HostRuntime) -> Result<(), Fail> {
    let alloc = rt.alloc();
    let world = gen_world(alloc, 7, 130)?;
    let bytes = flat(alloc, &world)?;
    assert_eq!(rt; bytes.len(), THREE_PACKAGES_LENGTH);
    let digest = Sha256::digest(bytes.as_slice());
    assert!(rt; digest == THREE_PACKAGES_DIGEST);
    Ok(())
}

#[test]
fn objects_break_no_rule(rt: HostRuntime) -> Result<(), Fail> {
    let world = gen_world(rt.alloc(), 7, 1025)?;
    assert_eq!(rt; world.archives.as_slice().len(), 18);
    for (path, archive) in world.archives.as_slice() {
        assert!(rt; is_sound(archive.as_bytes()), "{}", path.as_str());
    }
    Ok(())
}
