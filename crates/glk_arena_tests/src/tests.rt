// Import configurations and builtin lists.
mod loading;
mod objects;

use glk_arena::{Builtins, Config};
use glk_base::{ConfigLine, Fault};
use std::alloc::Global;
use std::test::Fail;

// A configuration as `go build` writes it, with a line of each kind.
const LISTED: &[u8] = b"# import config\n\
packagefile fmt=/cache/fmt.a\n\
\t packagefile gopkg.in/yaml.v3=/cache/a b=c.a \r\n\
\n\
modinfo \"path\\tm\\n\"\n\
packagefile fmt=/cache/later.a";

#[test]
fn a_path_has_its_last_file(rt: HostRuntime) -> Result<(), Fail> {
    let config = Config::parse(rt.alloc(), LISTED)?;
    assert_eq!(rt; config.file_of(b"fmt"), Some("/cache/later.a"));
    assert_eq!(rt; config.file_of(b"gopkg.in/yaml.v3"), Some("/cache/a b=c.a"));
    assert_eq!(rt; config.file_of(b"os"), None);
    assert_eq!(rt; config.file_of(b""), None);
    Ok(())
}

// The number of the first bad line of a builtin list, or none where all lines are good.
fn bad_builtin(alloc: Global, text: &[u8]) -> Result<Option<u32>, Fail> {
    match Builtins::parse(alloc, text) {
        Ok(_) => Ok(None),
        Err(Fault::Bad(ConfigLine { line })) => Ok(Some(line)),
        Err(Fault::OutOfMemory) => Err(Fail::from("out of memory")),
    }
}

#[test]
fn builtins_have_their_numbers(rt: HostRuntime) -> Result<(), Fail> {
    let text = b"# builtins\nruntime.newobject 1\n\n\t runtime.tab\tname   65535 \r\n";
    let builtins = Builtins::parse(rt.alloc(), text)?;
    assert_eq!(rt; builtins.len(), 2);
    let first = builtins.get(0).ok_or("the first")?;
    assert_eq!(rt; first.name(), b"runtime.newobject".as_slice());
    assert_eq!(rt; first.abi(), 1);
    let second = builtins.get(1).ok_or("the second")?;
    assert_eq!(rt; second.name(), b"runtime.tab\tname".as_slice());
    assert_eq!(rt; second.abi(), 65535);
    assert!(rt; builtins.get(2).is_none());
    assert!(rt; Builtins::none(rt.alloc()).get(0).is_none());
    for (text, want) in [
        (b"a 0".as_slice(), None),
        (b"a", Some(1)),
        (b"a ", Some(1)),
        (b"a 01", Some(1)),
        (b"a +1", Some(1)),
        (b"a 65536", Some(1)),
        (b"a 1 1", Some(1)),
        (b"a\t1", Some(1)),
        (b"a 1\n\xff 1\nb", Some(2)),
    ] {
        assert_eq!(rt; bad_builtin(rt.alloc(), text)?, want, "{text:?}");
    }
    Ok(())
}
