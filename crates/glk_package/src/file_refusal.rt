// A package file's fault as a cause.
ghost use Rattle.glk_package.specs.PackageRefusal.{IsFaultOfFile};

use crate::refusal::PackageBad;
use glk_base::{Fault, Text};
use glk_cause::Cause;
use std::alloc::Global;

/// The refusal of the package file at a path for its first fault, or out of memory.
pub fn package_refusal(alloc: Global, path: &[u8], bad: PackageBad) -> Fault<Cause>
    ensures { IsFaultOfFile path.now bad result }
{
    let Ok(path) = Text::new(alloc, path) else {
        return Fault::OutOfMemory;
    };
    match bad {
        PackageBad::NotGo { member } => Fault::Bad(Cause::NotGoObject { path, member }),
        PackageBad::HeaderMismatch {
            member,
            first,
            here,
        } => Fault::Bad(Cause::HeaderLine {
            path,
            member,
            first,
            here,
        }),
        PackageBad::Malformed {
            member,
            family,
            rule,
            offset,
        } => Fault::Bad(Cause::Malformed {
            path,
            member,
            family,
            rule,
            offset,
        }),
    }
}
