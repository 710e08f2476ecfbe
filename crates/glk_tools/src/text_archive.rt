// The package archive that a text makes.
ghost use Rattle.std.specs.Prelude.{◌≡◌, IfOk, IfErr, Ok};
ghost use Rattle.glk_objdesc.specs.Canonical.{object_bytes};
ghost use Rattle.glk_tools.specs.TextArchive.{archive_of_object, archive_of_description, archive_of_text, HasNoArchive, IsRefusedBy};

use glk_ar::one_member;
use glk_base::{Fault, TooBig};
use glk_objdesc::{ObjDesc, write_object};
use glk_objtext::{TextBad, parse};
use std::alloc::Global;

/// Why a text makes no archive.
#[derive(Clone, Copy, Debug, PartialEq, Eq)]
pub enum MakeBad {
    /// Its first bad line.
    Text(TextBad),
    /// The object, or the archive with it, would be longer than its limit.
    Big(TooBig),
}

/// The package archive of the object that a text describes: one member, `_go_.o`, with the
/// canonical bytes of the object.
///
/// # Errors
/// `Text` for the first bad line; `Big` where the object would have more than 2^30 - 128 bytes, or
/// the archive more than 2^30; out of memory.
#[tactic(auto, unfolding(crate::specs::TextArchive::archive_of_text))]
pub fn make_archive(alloc: Global, text: &[u8]) -> Result<Vec<u8>, Fault<MakeBad>>
    ensures archive { IfOk result (λ archive. archive_of_text text.now ≡ Ok archive.items) }
    ensures fault { IfErr result (HasNoArchive text.now) }
{
    let description = match parse(alloc, text) {
        Ok(description) => description,
        Err(Fault::Bad(bad)) => return Err(Fault::Bad(MakeBad::Text(bad))),
        Err(Fault::OutOfMemory) => return Err(Fault::OutOfMemory),
    };
    archive(alloc, &description)
}

// The archive with the object of a description.
fn archive(alloc: Global, description: &ObjDesc) -> Result<Vec<u8>, Fault<MakeBad>>
    ensures archive { IfOk result (λ archive. archive_of_description description.now ≡ Ok archive.items) }
    ensures fault { IfErr result (IsRefusedBy (archive_of_description description.now)) }
{
    let object = match write_object(alloc, description) {
        Ok(object) => object,
        Err(Fault::Bad(big)) => return Err(Fault::Bad(MakeBad::Big(big))),
        Err(Fault::OutOfMemory) => return Err(Fault::OutOfMemory),
    };
    match one_member(alloc, &object) {
        Ok(archive) => Ok(archive),
        Err(Fault::Bad(big)) => Err(Fault::Bad(MakeBad::Big(big))),
        Err(Fault::OutOfMemory) => Err(Fault::OutOfMemory),
    }
}
