// The kept symbols, as their places are concerned.
ghost use Rattle.std.specs.Prelude.{◌≡◌, ◌≤◌, ◌<◌, ◌-◌, ◌^◌, ℕ, min, length, IfOk};
ghost use Rattle.std.specs.List.{All};
ghost use Rattle.glk_keys.specs.Rows.{row_at, row_count};
ghost use Rattle.glk_merge.specs.Mergings.{IsKey};
ghost use Rattle.glk_placing.specs.KeptSymbols.{longest_name, placed_symbol, kept_symbol as kept_symbol_of, kept_symbols as kept_symbols_of};

use glk_base::{KeyId, OutOfMemory, SymId};
use glk_layout::KeptSymbol;
use glk_merge::Merged;
use glk_obj::SymKind;
use std::alloc::Global;

// What is placed where there is no symbol.
const NO_SYMBOL: KeptSymbol = KeptSymbol {
    kind: None,
    align: 0,
    size: 0,
    name_len: 0,
};

// The length of a name.
fn name_len(name: &[u8]) -> u32
    ensures { result ≡ min (length name.now) longest_name }
{
    let len = name.len();
    if len < u32::MAX as usize {
        len as u32
    } else {
        u32::MAX
    }
}

// What is placed of a row.
fn row_symbol(merged: &Merged<'_>, id: SymId) -> KeptSymbol
    requires { id.0 < row_count merged.now.program }
    ensures { result ≡ placed_symbol (row_at merged.now.program id.0) }
{
    let row = merged.row(id);
    let kind = if merged.is_def(id) {
        SymKind::of(row.kind)
    } else {
        None
    };
    KeptSymbol {
        kind,
        align: row.align,
        size: row.size,
        name_len: name_len(row.name),
    }
}

// What is placed of a key.
#[tactic(auto, unfolding(crate::specs::KeptSymbols::kept_symbol))]
fn key_symbol(merged: &Merged<'_>, key: u32) -> KeptSymbol
    requires { IsKey merged.now.program key }
    ensures { result ≡ kept_symbol_of merged.now.program key }
{
    match merged.chosen(KeyId(key)) {
        Some(id) => row_symbol(merged, id),
        None => NO_SYMBOL,
    }
}

/// The kept symbols of a list of keys, as their places are concerned, in the order of the list. It takes 20
/// bytes a symbol.
///
/// # Errors
/// Out of memory.
pub fn kept_symbols(
    alloc: Global,
    merged: &Merged<'_>,
    list: &[u32],
) -> Result<Vec<KeptSymbol>, OutOfMemory>
    requires { All (IsKey merged.now.program) list.now }
    ensures { IfOk result (λ symbols. symbols.items ≡ kept_symbols_of merged.now.program list.now) }
{
    let mut symbols = Vec::with_capacity(alloc, list.len())?;
    for key in list {
        symbols.push(key_symbol(merged, *key))?;
    }
    Ok(symbols)
}
