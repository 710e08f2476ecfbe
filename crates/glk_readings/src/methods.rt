// The methods of a type.
ghost use Rattle.std.specs.Prelude.{◌≡◌, ◌<◌, Ok, OnOk};
ghost use Rattle.glk_types.specs.Methods.{count_of};
ghost use Rattle.glk_readings.specs.Readings.{methodoff_offsets as methodoff_offsets_in, methods_read as methods_reading, method_name_read as method_name_reading};
ghost use Rattle.glk_readings.specs.Views.{name_view, entries_of, entries_view};

use crate::references::name_read;
use crate::symbols::Symbols;
use crate::unreadable::{Unreadable, broken};
use glk_base::OutOfMemory;
use glk_types::Methods;
use glk_types::abi::METHOD_NAME;

/// Replaces what is in a buffer by the offsets of the METHODOFF relocations of a key, in their order.
///
/// # Errors
/// Out of memory: the buffer holds anything.
pub fn methodoff_offsets<S: Symbols>(
    symbols: &S,
    key: u32,
    out: &mut Vec<u32>,
) -> Result<(), OutOfMemory>
    requires { key < (S.table symbols.now).keys }
    ensures { OnOk result (out.new.items ≡ methodoff_offsets_in ((S.table symbols.now).relocs key)) }
{
    out.clear();
    for i in 0..symbols.reloc_count(key) {
        let reloc = symbols.reloc(key, i);
        if !reloc.is_methodoff {
            continue;
        }
        out.push(reloc.offset)?;
    }
    Ok(())
}

/// The methods of the type that is a key, of the offsets of its METHODOFF relocations. It looks at
/// each offset once, so it is called once a type.
///
/// # Errors
/// Y1, Y3, Y4 or Y5, as `Methods::read` tells them.
#[tactic(auto, unfolding(crate::specs::Readings::methods_read))]
pub fn methods_read<S: Symbols>(
    symbols: &S,
    key: u32,
    offsets: &[u32],
) -> Result<Methods, Unreadable>
    requires key { key < (S.table symbols.now).keys }
    requires offsets { offsets.now ≡ methodoff_offsets_in ((S.table symbols.now).relocs key) }
    ensures { entries_view result ≡ methods_reading (S.table symbols.now) key }
{
    match Methods::read(symbols.data(key), offsets) {
        Ok(methods) => Ok(methods),
        Err(bad) => Err(broken(key, bad)),
    }
}

/// The name of method `j` of the type that is a key and has these methods.
///
/// # Errors
/// Y6 or Y7 at the method's field for it; or the name's symbol has no definition.
#[tactic(auto, unfolding(crate::specs::Readings::method_name_read))]
pub fn method_name_read<S: Symbols>(
    symbols: &S,
    key: u32,
    methods: Methods,
    j: u32,
) -> Result<&[u8], Unreadable>
    requires key { key < (S.table symbols.now).keys }
    requires methods { methods_reading (S.table symbols.now) key ≡ Ok (entries_of methods) }
    requires index { j < count_of methods }
    ensures { name_view result ≡ method_name_reading (S.table symbols.now) key j }
{
    name_read(symbols, key, methods.entry(j) + METHOD_NAME)
}
