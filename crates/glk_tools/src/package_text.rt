// The text of a package file.
ghost use Rattle.std.specs.Prelude.{◌≡◌, ◌≤◌, ◌++◌, IfOk, OnOk, IfErr, Ok, length};
ghost use Rattle.glk_base.specs.Limits.{file_limit};
ghost use Rattle.glk_package.specs.ObjectRules.{any_rules};
ghost use Rattle.glk_package.specs.Package.{IsRefusalOf};
ghost use Rattle.glk_tools.specs.PackageText.{member_name, section_of, sections_of, IsPackageText};

use glk_base::{Fault, OutOfMemory};
use glk_objdesc::describe;
use glk_objtext::print;
use glk_package::{ObjectEntry, ObjectRules, PackageBad, objects};
use std::alloc::Global;

/// The text of a package file of at most 2^30 bytes: for each object a comment with the name of
/// its member, `-` for a bare object, and its canonical text. The objects need have nothing in common.
///
/// # Errors
/// The first fault of the file, as `glk_package::objects` has it; out of memory.
pub fn dump_text(alloc: Global, file: &[u8]) -> Result<Vec<u8>, Fault<PackageBad>>
    requires { length file.now ≤ file_limit }
    ensures text { IfOk result (λ text. IsPackageText file.now (Ok text.items)) }
    ensures fault { IfErr result (IsRefusalOf any_rules file.now) }
{
    let entries = objects(alloc, file, ObjectRules::any())?;
    let text = sections(alloc, &entries)?;
    Ok(text)
}

// The texts of these objects, one after the other.
fn sections(alloc: Global, entries: &[ObjectEntry<'_>]) -> Result<Vec<u8>, OutOfMemory>
    ensures { IfOk result (λ text. text.items ≡ sections_of entries.now) }
{
    let mut text = Vec::new(alloc);
    for object in entries {
        push_section(alloc, &mut text, object)?;
    }
    Ok(text)
}

// Adds the text of an object.
#[tactic(auto, unfolding(crate::specs::PackageText::section_of))]
fn push_section(
    alloc: Global,
    text: &mut Vec<u8>,
    object: &ObjectEntry<'_>,
) -> Result<(), OutOfMemory>
    ensures { OnOk result (text.new.items ≡ text.old.items ++ section_of object.now) }
{
    let description = describe(alloc, &object.view())?;
    let body = print(alloc, &description)?;
    let name = shown_name(object);
    text.extend_from_slice(b"# member ")?;
    text.extend_from_slice(name)?;
    text.extend_from_slice(b"\n")?;
    text.extend_from_slice(&body)?;
    Ok(())
}

// How the member of an object is named.
fn shown_name<'a>(object: &ObjectEntry<'a>) -> &'a [u8]
    ensures { result.now ≡ member_name object.now.name }
{
    match object.name() {
        Some(name) => name,
        None => b"-",
    }
}
