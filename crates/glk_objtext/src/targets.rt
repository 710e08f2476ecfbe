// References to symbols.
ghost use Rattle.std.specs.Prelude.{◌≡◌, ◌++◌, ◌<◌, ◌^◌, OnOk, IfOk};
ghost use Rattle.glk_objtext.specs.Answers.{Gives};
ghost use Rattle.glk_objtext.specs.Targets.{entry_of, package_of, target_of, package_text, target_text};

use crate::numbers::{push_number, read_number};
use crate::rules::BAD_NUMBER;
use glk_base::lines::first_of;
use glk_base::{Fault, OutOfMemory};
use glk_obj::{
    BUILTIN_PACKAGE, HASHED_PACKAGE, HASHED64_PACKAGE, NIL_PACKAGE, NONE_PACKAGE, SELF_PACKAGE,
    SymRef,
};

// The number of an entry of the object's list of packages.
fn read_entry(name: &[u8]) -> Result<u32, Fault<u8>>
    ensures { Gives (entry_of name.now) result }
{
    let number = read_number(name, SELF_PACKAGE as u64)?;
    if number == 0 {
        return Err(Fault::Bad(BAD_NUMBER));
    }
    Ok(number as u32)
}

// The package that is spelled so.
#[tactic(auto, unfolding(crate::specs::Targets::package_of))]
fn read_package(name: &[u8]) -> Result<u32, Fault<u8>>
    ensures { Gives (package_of name.now) result }
{
    if name == b"nil".as_slice() {
        Ok(NIL_PACKAGE)
    } else if name == b"none".as_slice() {
        Ok(NONE_PACKAGE)
    } else if name == b"h64".as_slice() {
        Ok(HASHED64_PACKAGE)
    } else if name == b"h".as_slice() {
        Ok(HASHED_PACKAGE)
    } else if name == b"builtin".as_slice() {
        Ok(BUILTIN_PACKAGE)
    } else if name == b"self".as_slice() {
        Ok(SELF_PACKAGE)
    } else {
        read_entry(name)
    }
}

/// The reference that a field spells.
#[tactic(auto, unfolding(crate::specs::Targets::target_of))]
pub(crate) fn read_target(field: &[u8]) -> Result<SymRef, Fault<u8>>
    ensures { Gives (target_of field.now) result }
{
    let i = first_of(field, b':');
    if i >= field.len() {
        return Err(Fault::Bad(BAD_NUMBER));
    }
    let pkg = read_package(&field[..i])?;
    let sym = read_number(&field[i + 1..], 1 << 32)?;
    Ok(SymRef {
        pkg,
        sym: sym as u32,
    })
}

// Writes the one spelling of a package.
#[tactic(auto, unfolding(crate::specs::Targets::package_text))]
fn push_package(out: &mut Vec<u8>, pkg: u32) -> Result<(), OutOfMemory>
    ensures { OnOk result (out.new.items ≡ out.old.items ++ package_text pkg) }
{
    if pkg == NIL_PACKAGE {
        out.extend_from_slice(b"nil")?;
    } else if pkg == NONE_PACKAGE {
        out.extend_from_slice(b"none")?;
    } else if pkg == HASHED64_PACKAGE {
        out.extend_from_slice(b"h64")?;
    } else if pkg == HASHED_PACKAGE {
        out.extend_from_slice(b"h")?;
    } else if pkg == BUILTIN_PACKAGE {
        out.extend_from_slice(b"builtin")?;
    } else if pkg == SELF_PACKAGE {
        out.extend_from_slice(b"self")?;
    } else {
        push_number(out, pkg as u64)?;
    }
    Ok(())
}

/// Writes a reference's one spelling.
#[tactic(auto, unfolding(crate::specs::Targets::target_text))]
pub(crate) fn push_target(out: &mut Vec<u8>, target: SymRef) -> Result<(), OutOfMemory>
    ensures { OnOk result (out.new.items ≡ out.old.items ++ target_text target) }
{
    push_package(out, target.pkg)?;
    out.push(b':')?;
    push_number(out, target.sym as u64)
}
