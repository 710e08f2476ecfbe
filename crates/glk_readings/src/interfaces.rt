// The methods of interface types, and interface tables.
ghost use Rattle.std.specs.Prelude.{◌≡◌, ◌+◌, ◌<◌, ◌^◌, IfOk};
ghost use Rattle.glk_types.specs.Abi.{abi_imethod};
ghost use Rattle.glk_readings.specs.Readings.{first_reason as first_reason_of, read_both, named_method, imethod_entry_read as imethod_entry_reading, imethod_read as imethod_reading, itab_type_read as itab_type_reading};
ghost use Rattle.glk_readings.specs.Views.{name_view, method_view};

use crate::references::{name_read, target_read};
use crate::symbols::Symbols;
use crate::unreadable::{Unreadable, broken};
use glk_types::abi::{IMETHOD_NAME, IMETHOD_TYP, ITAB_TYP};
use glk_types::imethod;

/// A method of an interface.
#[derive(Clone, Copy, Debug, PartialEq, Eq)]
pub struct InterfaceMethod<'a> {
    /// Its name.
    pub name: &'a [u8],
    /// The key of its type.
    pub of: u32,
}

// Of two reasons the one to be told: a broken rule before a missing definition, of two rules the one
// of the least number, and else the first.
fn first_reason(one: Unreadable, other: Unreadable) -> Unreadable
    ensures { result ≡ first_reason_of one other }
{
    match (one, other) {
        (Unreadable::Breaks { rule, .. }, Unreadable::Breaks { rule: second, .. }) => {
            if second < rule { other } else { one }
        }
        (Unreadable::Lacks { .. }, Unreadable::Breaks { .. }) => other,
        _ => one,
    }
}

// The method that has a name and a type, both of which are read.
fn method_of<'a>(
    name: Result<&'a [u8], Unreadable>,
    of: Result<u32, Unreadable>,
) -> Result<InterfaceMethod<'a>, Unreadable>
    ensures { method_view result ≡ read_both named_method (name_view name.entry) of }
{
    match (name, of) {
        (Ok(name), Ok(of)) => Ok(InterfaceMethod { name, of }),
        (Ok(_), Err(why)) => Err(why),
        (Err(why), Ok(_)) => Err(why),
        (Err(why), Err(other)) => Err(first_reason(why, other)),
    }
}

// Y1, Y2, Y4: the entry of the method of an interface type at an addend.
#[tactic(auto, unfolding(crate::specs::Readings::imethod_entry_read))]
fn imethod_entry_read<S: Symbols>(symbols: &S, key: u32, addend: i64) -> Result<u32, Unreadable>
    requires { key < (S.table symbols.now).keys }
    ensures value { result ≡ imethod_entry_reading (S.table symbols.now) key addend }
    ensures room { IfOk result (λ at. at + abi_imethod.bytes < 2 ^ 32) }
{
    match imethod(symbols.data(key), addend) {
        Ok(at) => Ok(at),
        Err(bad) => Err(broken(key, bad)),
    }
}

/// The method of the interface type that is a key, at the addend of a relocation that calls it.
///
/// # Errors
/// Y1, Y2 or Y4, as `imethod` of glk_types tells them. Of the name and the type, which both are read:
/// the broken rule of least number of Y6 and Y7, at the entry's field; or, where none is broken, the
/// first of their symbols has no definition.
#[tactic(auto, unfolding(crate::specs::Readings::imethod_read))]
pub fn imethod_read<S: Symbols>(
    symbols: &S,
    key: u32,
    addend: i64,
) -> Result<InterfaceMethod<'_>, Unreadable>
    requires { key < (S.table symbols.now).keys }
    ensures { method_view result ≡ imethod_reading (S.table symbols.now) key addend }
{
    let at = imethod_entry_read(symbols, key, addend)?;
    let name = name_read(symbols, key, at + IMETHOD_NAME);
    let of = target_read(symbols, key, at + IMETHOD_TYP);
    method_of(name, of)
}

/// The key of the type of the interface table that is a key.
///
/// # Errors
/// Y6 at the table's field for it; or the type has no definition.
#[tactic(auto, unfolding(crate::specs::Readings::itab_type_read))]
pub fn itab_type_read<S: Symbols>(symbols: &S, key: u32) -> Result<u32, Unreadable>
    requires { key < (S.table symbols.now).keys }
    ensures value { result ≡ itab_type_reading (S.table symbols.now) key }
    ensures within { IfOk result (λ t. t < (S.table symbols.now).keys) }
{
    target_read(symbols, key, ITAB_TYP)
}
