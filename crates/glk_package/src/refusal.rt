// Why a package file is refused.
ghost use Rattle.std.specs.Prelude.{◌≡◌};
ghost use Rattle.glk_package.specs.Members.{archive_fault};

use glk_ar::ArBad;
use glk_base::{RuleFamily, Text};

/// The first fault of a package file. `member` counts all members of the file from 0, and is 0 for
/// a bare object and for a file that is no archive.
#[derive(Debug, Drop, PartialEq)]
pub enum PackageBad {
    /// The member does not begin as an object for this platform does.
    NotGo {
        member: u32,
    },
    /// The line of the member's object is `here`, and the line `first` is asked.
    HeaderMismatch {
        member: u32,
        first: Text,
        here: Text,
    },
    /// A rule is broken: of archives, with an offset from the file's start, or of objects, with
    /// an offset from the object's magic.
    Malformed {
        member: u32,
        family: RuleFamily,
        rule: u8,
        offset: u64,
    },
}

// The refusal of a file whose archive breaks a rule at this member.
pub(crate) fn archive_refusal(member: u32, bad: ArBad) -> PackageBad
    ensures { result ≡ archive_fault member bad }
{
    PackageBad::Malformed {
        member,
        family: RuleFamily::Archive,
        rule: bad.rule,
        offset: bad.offset,
    }
}
