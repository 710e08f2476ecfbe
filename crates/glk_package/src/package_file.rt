// The objects of a package file, member by member.
ghost use Rattle.std.specs.Prelude.{◌≡◌, ◌+◌, ◌<◌, ◌≤◌, ◌^◌, length, OnOk, IfOk, IfErr, Ok, Err, All};
ghost use Rattle.glk_base.specs.Limits.{file_limit};
ghost use Rattle.glk_ar.specs.Archive.{body_at};
ghost use Rattle.glk_ar.specs.Walks.{entry_of};
ghost use Rattle.glk_obj.specs.Object.{IsObject};
ghost use Rattle.glk_package.specs.ObjectRules.{rules_view};
ghost use Rattle.glk_package.specs.Members.{AddsObjects, IsMemberFault};
ghost use Rattle.glk_package.specs.ObjectEntry.{IsFoundIn, data_bytes};
ghost use Rattle.glk_package.specs.Package.{BareFile, ArchiveFile, PackageFile, OrOutOfMemory, IsRefusalOf};

use crate::object_entry::{ObjectEntry, object_in};
use crate::object_rules::{ObjectRules, rules_after};
use crate::refusal::{PackageBad, archive_refusal};
use glk_ar::{Member, members};
use glk_base::Fault;
use std::alloc::Global;

/// How a bare object begins; what begins otherwise is read as an archive.
pub const BARE_START: &[u8; 10] = b"go object ";

// The member that describes the package to the compiler, and holds no object.
const DESCRIPTION: &[u8] = b"__.PKGDEF";

// Adds the object of a member, unless the member is skipped. It gives the rules for the members after
// it.
fn push_object<'b, 'a: 'b>(
    alloc: Global,
    rules: ObjectRules<'b>,
    objects: &mut Vec<ObjectEntry<'a>>,
    number: u32,
    member: Member<'a>,
) -> Result<ObjectRules<'b>, Fault<PackageBad>>
    requires { body_at (entry_of member) + length member.body.now ≤ file_limit }
    ensures ok { IfOk result (λ later. AddsObjects (rules_view rules.entry) number (entry_of member.entry)
        objects.old.items objects.new.items (rules_view later)) }
    ensures err { IfErr result
        (OrOutOfMemory (IsMemberFault (rules_view rules.entry) number (entry_of member.entry))) }
{
    if member.name == DESCRIPTION {
        return Ok(rules);
    }
    match object_in(
        alloc,
        rules,
        number,
        Some(member.name),
        member.body,
        member.body_at(),
    ) {
        Ok(object) => {
            let later = rules_after(rules, &object);
            objects.push(object)?;
            Ok(later)
        }
        Err(fault) => Err(fault),
    }
}

// The objects of an archive.
fn objects_of_members<'a>(
    alloc: Global,
    file: &'a [u8],
    rules: ObjectRules<'_>,
) -> Result<Vec<ObjectEntry<'a>>, Fault<PackageBad>>
    requires { length file.now ≤ file_limit }
    ensures ok { IfOk result (λ objects. ArchiveFile (rules_view rules.entry) file.now (Ok objects.items)) }
    ensures err { IfErr result
        (OrOutOfMemory (λ bad. ArchiveFile (rules_view rules.entry) file.now (Err bad))) }
{
    let mut walk = match members(file) {
        Ok(walk) => walk,
        Err(bad) => return Err(Fault::Bad(archive_refusal(0, bad))),
    };
    let mut objects = Vec::new(alloc);
    let mut here = rules;
    let mut number = 0u32;
    while let Some(step) = walk.next() {
        match step {
            Ok(member) => {
                here = push_object(alloc, here, &mut objects, number, member)?;
                number += 1;
            }
            Err(bad) => return Err(Fault::Bad(archive_refusal(number, bad))),
        }
    }
    Ok(objects)
}

// The object of a bare file, as a list.
fn bare_object<'a>(
    alloc: Global,
    file: &'a [u8],
    rules: ObjectRules<'_>,
) -> Result<Vec<ObjectEntry<'a>>, Fault<PackageBad>>
    requires { length file.now ≤ file_limit }
    ensures ok { IfOk result (λ objects. BareFile (rules_view rules.entry) file.now (Ok objects.items)) }
    ensures err { IfErr result (OrOutOfMemory (λ bad. BareFile (rules_view rules.entry) file.now (Err bad))) }
{
    match object_in(alloc, rules, 0, None, file, 0) {
        Ok(object) => {
            let mut objects = Vec::new(alloc);
            objects.push(object)?;
            Ok(objects)
        }
        Err(fault) => Err(fault),
    }
}

/// The objects of a package file of at most 2^30 bytes, in order. The file is read once, and its
/// bodies are borrowed, not copied; the time is that of `ObjShape::check` over the objects.
///
/// # Errors
/// The first fault of the file: member by member the rules of archives, how an object begins, its
/// mark, its line, the rules of objects, and the length of its long hashes; or out of memory.
pub fn objects<'a>(
    alloc: Global,
    file: &'a [u8],
    rules: ObjectRules<'_>,
) -> Result<Vec<ObjectEntry<'a>>, Fault<PackageBad>>
    requires { length file.now ≤ file_limit }
    ensures ok { IfOk result (λ objects. PackageFile (rules_view rules.entry) file.now (Ok objects.items)) }
    ensures whole { IfOk result (λ objects. All (λ object. IsObject object.goobj) objects.items) }
    ensures found { IfOk result (λ objects. All (IsFoundIn file.now) objects.items) }
    ensures fit { IfOk result (λ objects. data_bytes objects.items ≤ length file.now) }
    ensures err { IfErr result (IsRefusalOf (rules_view rules.entry) file.now) }
{
    read_objects(alloc, file, rules)
}

// The same without what follows of the objects.
fn read_objects<'a>(
    alloc: Global,
    file: &'a [u8],
    rules: ObjectRules<'_>,
) -> Result<Vec<ObjectEntry<'a>>, Fault<PackageBad>>
    requires { length file.now ≤ file_limit }
    ensures ok { IfOk result (λ objects. PackageFile (rules_view rules.entry) file.now (Ok objects.items)) }
    ensures err { IfErr result (IsRefusalOf (rules_view rules.entry) file.now) }
{
    if file.starts_with(BARE_START) {
        bare_object(alloc, file, rules)
    } else {
        objects_of_members(alloc, file, rules)
    }
}
