// The packages that a package's calls go to.
ghost use Rattle.std.specs.Prelude.{◌≡◌, ◌+◌, ◌<◌, ◌≤◌, ◌^◌, ◌==◌, not, [], ◌∷◌, IfOk, OnOk, length, filter};
ghost use Rattle.std.specs.List.{position_or_len};
ghost use Rattle.glk_gen.specs.Uses.{is_used, with_use, with_uses};
ghost use Rattle.glk_gen.specs.Calls.{imports_by};
ghost use Rattle.glk_gen.specs.Objects.{package_number};

use crate::world::PACKAGE_SIZE;
use glk_base::OutOfMemory;
use glk_obj::SELF_PACKAGE;
use std::alloc::Global;

// Where a package is among these, or their number where it isn't.
fn place(packages: &[u32], number: u32) -> usize
    ensures value { result ≡ position_or_len (λ q. q == number) packages.now }
    ensures within { result ≤ length packages.now }
{
    for (i, other) in packages.iter().enumerate() {
        if *other == number {
            return i;
        }
    }
    packages.len()
}

// Whether a package is among these.
fn is_used(used: &[u32], number: u32) -> bool
    ensures { result ≡ is_used used.now number }
{
    used.iter().any(|other| *other == number)
}

// Adds a package unless it is there.
#[tactic(auto, unfolding(crate::specs::Uses::with_use))]
fn add_use(used: &mut Vec<u32>, number: u32) -> Result<(), OutOfMemory>
    ensures uses { OnOk result (used.new.items ≡ with_use used.old.items number) }
    ensures short { OnOk result (length used.new.items ≤ length used.old.items + 1) }
{
    if !is_used(used, number) {
        used.push(number)?;
    }
    Ok(())
}

// Adds a package to which a call of package k goes, unless it is k or there.
#[tactic(auto, unfolding(crate::specs::Uses::with_uses))]
fn add_import(used: &mut Vec<u32>, k: u32, number: u32) -> Result<(), OutOfMemory>
    ensures uses { OnOk result
        (used.new.items ≡ with_uses used.old.items (filter (λ p. not (p == k)) (number ∷ []))) }
    ensures short { OnOk result (length used.new.items ≤ length used.old.items + 1) }
{
    if number != k {
        add_use(used, number)?;
    }
    Ok(())
}

/// The packages, other than k, of the functions that its calls go to, in the order of first use.
pub(crate) fn imports(alloc: Global, k: u32, callees: &[u32]) -> Result<Vec<u32>, OutOfMemory>
    ensures imports { IfOk result (λ used. used.items ≡ imports_by k callees.now) }
    ensures short { IfOk result (λ used. length used.items ≤ length callees.now) }
{
    let mut used = Vec::new(alloc);
    for callee in callees {
        add_import(&mut used, k, *callee / PACKAGE_SIZE)?;
    }
    Ok(used)
}

/// The number by which package k refers to a package.
pub(crate) fn package_number(k: u32, imported: &[u32], number: u32) -> u32
    requires { length imported.now < 2 ^ 31 }
    ensures { result ≡ package_number k imported.now number }
{
    if number == k {
        return SELF_PACKAGE;
    }
    place(imported, number) as u32 + 1
}
