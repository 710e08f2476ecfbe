// The symbols that the linker itself has: those that it asks for, the made names, and the builtin list.
ghost use Rattle.std.specs.Prelude.{◌≡◌, ◌<◌, length, get_or};
ghost use Rattle.glk_keys.specs.MadeNames.{made_count};
ghost use Rattle.glk_keys.specs.MadeViews.{made_at};
ghost use Rattle.glk_keys.specs.Rows.{asked_count, asked_symbols, bare_symbol, made_symbol, builtin_symbol, no_symbol};
ghost use Rattle.glk_keys.specs.Programs.{no_builtin};
ghost use Rattle.glk_obj.specs.Views.{symbol_view};

use crate::made_names::{MADE_COUNT, made_name};
use glk_arena::Builtins;
use glk_obj::SymRec;

/// What stands for a method that is not kept.
pub const UNREACHABLE_METHOD: &str = "runtime.unreachableMethod";

/// What stands for the initializer of a map that is not kept.
pub const MAP_INIT_NOOP: &str = "runtime.mapinitnoop";

/// Where the initialization of the main package starts.
pub const MAIN_INIT_TASK: &str = "main..inittask";

/// Where the initialization of the runtime starts.
pub const RUNTIME_INIT_TASK: &str = "runtime..inittask";

// How many symbols the linker asks for.
pub(crate) const ASKED_COUNT: u32 = 8;

// How many symbols these are with the made names. The builtin list follows them.
pub(crate) const OWN_COUNT: u32 = ASKED_COUNT + MADE_COUNT;

const ABI0: u16 = 0;

const ABI_INTERNAL: u16 = 1;

// A symbol of which nothing is known but its name, its ABI and its size.
fn bare(name: &[u8], abi: u16, size: u32) -> SymRec<'_>
    ensures { symbol_view result ≡ bare_symbol name.now abi size }
{
    SymRec {
        name,
        abi,
        kind: 0,
        flag: 0,
        flag2: 0,
        size,
        align: 0,
    }
}

// Symbol `i` of those that the linker asks for.
pub(crate) fn asked(entry: &[u8], i: u32) -> SymRec<'_>
    requires { i < asked_count }
    ensures { symbol_view result ≡ get_or (asked_symbols entry.now) i no_symbol }
{
    match i {
        0 => bare(entry, ABI0, 0),
        1 => bare(entry, ABI_INTERNAL, 0),
        2 => bare(UNREACHABLE_METHOD.as_bytes(), ABI_INTERNAL, 0),
        3 => bare(UNREACHABLE_METHOD.as_bytes(), ABI0, 0),
        4 => bare(MAP_INIT_NOOP.as_bytes(), ABI_INTERNAL, 0),
        5 => bare(MAP_INIT_NOOP.as_bytes(), ABI0, 0),
        6 => bare(MAIN_INIT_TASK.as_bytes(), ABI0, 0),
        _ => bare(RUNTIME_INIT_TASK.as_bytes(), ABI0, 0),
    }
}

// Made name `k` as a symbol.
pub(crate) fn made(k: u32) -> SymRec<'static>
    requires { k < made_count }
    ensures { symbol_view result ≡ made_symbol (made_at k) }
{
    let made = made_name(k as u8);
    bare(made.name.as_bytes(), ABI0, made.size)
}

// Builtin `k` as a symbol.
pub(crate) fn builtin(builtins: &Builtins, k: u32) -> SymRec<'_>
    requires { k < length builtins.now }
    ensures { symbol_view result ≡ builtin_symbol (get_or builtins.now k no_builtin) }
{
    let builtin = builtins.get(k).unwrap();
    bare(builtin.name(), builtin.abi(), 0)
}
