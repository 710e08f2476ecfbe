// Archives, each byte by the format, and what is read from them.
use crate::{ArBad, Member, members, object_part, one_member};
use std::test::Fail;

/// Two members with odd bodies. The first has the padding byte `#`, the second none.
const TWO: &[u8] = b"!<arch>\n__.PKGDEF       0           0     0     644     3         `\nxyz#\
_go_.o          0           0     0     644     1         `\nq";

/// The archive of an object whose data are `abc`.
const ABC: &[u8] = b"!<arch>\n_go_.o          0           0     0     644     33        `\n\
go object linux amd64 mkobj\n!\nabc\n";

// The first broken rule of a file.
fn refusal(file: &[u8]) -> Option<ArBad> {
    match members(file) {
        Ok(walk) => {
            for member in walk {
                if let Err(bad) = member {
                    return Some(bad);
                }
            }
            None
        }
        Err(bad) => Some(bad),
    }
}

#[test]
fn files_are_read_by_the_format(rt: HostRuntime) -> Result<(), Fail> {
    let mut walk = members(TWO)?;
    let first = walk.next().ok_or("no first member")??;
    assert_eq!(rt; first.name, b"__.PKGDEF".as_slice());
    assert_eq!(rt; first.body, b"xyz".as_slice());
    assert_eq!(rt; first.body_at(), 68);
    let second = walk.next().ok_or("no second member")??;
    assert_eq!(rt; second.name, b"_go_.o".as_slice());
    assert_eq!(rt; second.body, b"q".as_slice());
    assert_eq!(rt; second.at, 72);
    assert!(rt; walk.next().is_none());
    for (file, want) in [
        (b"!<arch>\r".as_slice(), Some((1, 0))),
        (b"!<arch>\n", None),
        (&TWO[..67], Some((2, 8))),
        (&TWO[8..132], Some((1, 0))),
        (&TWO[..132], Some((5, 132))),
        (
            b"!<arch>\n_go_.o          0           0     0     644     0         '\n",
            Some((3, 66)),
        ),
        (
            b"!<arch>\n_go_.o          0           0     0     644     0x3       `\nabc",
            Some((4, 56)),
        ),
        (
            b"!<arch>\n/17             0           0     0     644     0000000003`\nabc",
            Some((6, 8)),
        ),
        (
            b"!<arch>\na/              0           0     0     644     0000000003`\nabc",
            None,
        ),
    ] {
        assert_eq!(rt; refusal(file).map(|bad| (bad.rule, bad.offset)), want);
    }
    Ok(())
}

#[test]
fn one_object_is_written_and_read_back(rt: HostRuntime) -> Result<(), Fail> {
    let file = one_member(rt.alloc(), b"abc")?;
    assert_eq!(rt; file.as_slice(), ABC);
    let member = members(file.as_slice())?.next().ok_or("no member")??;
    let part = object_part(member.body)?;
    assert_eq!(rt; part.line, b"go object linux amd64 mkobj".as_slice());
    assert_eq!(rt; part.goobj, b"abc".as_slice());
    assert_eq!(rt; part.at, 30);
    let text = format!(in rt.alloc();
        "{}",
        ArBad {
            rule: 5,
            offset: 68
        }
    )?;
    assert_eq!(rt; text.as_str(), "no archive: rule A5 is broken at byte 68");
    Ok(())
}
