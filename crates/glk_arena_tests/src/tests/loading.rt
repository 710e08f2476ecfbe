// Loading by waves: the order of packages, and what is loaded. Refusals are shown by links through the
// whole program.
use super::objects::{LINE, Object, put, world_of};
use glk_arena::{Loaded, load_waves};
use glk_base::{SymId, Text};
use std::alloc::Global;
use std::test::Fail;
use std::thread::Threads;

// The paths of loaded packages in load order, each with a space after it.
fn order_of(alloc: Global, loaded: &Loaded) -> Result<Text, Fail> {
    let mut order = Vec::new(alloc);
    for p in 0..loaded.packages() {
        order.extend_from_slice(loaded.path(p))?;
        order.push(b' ')?;
    }
    Ok(Text::of(order))
}

// Whether these packages are loaded in this order.
fn loads<R: Threads + Sync>(
    rt: &R,
    alloc: Global,
    packages: &str,
    order: &str,
) -> Result<bool, Fail> {
    let (mut files, config) = world_of(alloc, packages)?;
    match load_waves(rt, alloc, "main", &config, &mut files) {
        Ok(loaded) => Ok(order_of(alloc, &loaded)? == Text::new(alloc, order.as_bytes())?),
        Err(_) => Err(Fail::from("refused")),
    }
}

#[test]
fn packages_are_loaded_wave_by_wave(rt: HostRuntime) -> Result<(), Fail> {
    for (packages, order) in [
        ("main a b\na c\nb d unsafe\nc\nd", "main a b c d "),
        ("main a runtime\na\nruntime b\nb", "main runtime a b "),
        ("main main unsafe", "main "),
        // A fingerprint of zero differs from none.
        ("main b\nb#3 c#1\nc b#3", "main b c "),
        ("main b#5\nb c\nc#2 b#4", "main b c "),
    ] {
        assert!(rt; loads(&rt, rt.alloc(), packages, order)?, "of {packages}");
    }
    Ok(())
}

#[test]
fn loaded_packages_are_found_with_their_objects(rt: HostRuntime) -> Result<(), Fail> {
    let alloc = rt.alloc();
    let (mut files, config) = world_of(alloc, "main\nx.y/z.w")?;
    let mut main = Object::new(alloc, 0, 2);
    main.import(b"x.y/z.w", 0)?;
    put(alloc, &mut files, "main", &main.file(alloc, LINE)?)?;
    let other = Object::new(alloc, 7, 1);
    put(alloc, &mut files, "x.y/z.w", &other.file(alloc, LINE)?)?;
    let Ok(loaded) = load_waves(&rt, alloc, "main", &config, &mut files) else {
        return Err(Fail::from("refused"));
    };
    assert_eq!(rt; loaded.objects(), 2);
    // Each has 142 bytes, 33 more for each symbol, and main the 23 of its import.
    assert_eq!(rt; loaded.bytes(), 406);
    assert_eq!(rt; loaded.find_package(b"x.y/z%2ew"), Some(1));
    if 2 < loaded.rows() {
        assert_eq!(rt; loaded.package_of(SymId(1)), b"main".as_slice());
        assert_eq!(rt; loaded.package_of(SymId(2)), b"x.y/z.w".as_slice());
    }
    Ok(())
}

#[test]
fn a_stored_path_means_the_equal_one_before_the_escaped_one(rt: HostRuntime) -> Result<(), Fail> {
    let alloc = rt.alloc();
    let packages = "main a.b/c.d a.b/c%2ed x.y\na.b/c.d\na.b/c%2ed\nx.y";
    let (mut files, config) = world_of(alloc, packages)?;
    let Ok(loaded) = load_waves(&rt, alloc, "main", &config, &mut files) else {
        return Err(Fail::from("refused"));
    };
    for (stored, want) in [
        ("main", Some(0)),
        ("a.b/c.d", Some(1)),
        // It is a path itself, and the escaped spelling of one.
        ("a.b/c%2ed", Some(2)),
        ("a.b/c%252ed", Some(2)),
        ("x%2ey", Some(3)),
        ("a%2eb/c%2ed", None),
        ("", None),
    ] {
        assert_eq!(rt; loaded.find_package(stored.as_bytes()), want, "{stored}");
    }
    Ok(())
}
