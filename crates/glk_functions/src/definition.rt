// The chosen definitions of keys.
ghost use Rattle.std.specs.Prelude.{◌≡◌, ◌<◌};
ghost use Rattle.glk_keys.specs.Names.{key_name};
ghost use Rattle.glk_keys.specs.Rows.{row_count};
ghost use Rattle.glk_merge.specs.Mergings.{IsKey};
ghost use Rattle.glk_obj.specs.Symbols.{type_of};
ghost use Rattle.glk_reach.specs.Chosen.{symbol_of};
ghost use Rattle.glk_functions.specs.Tables.{is_function as is_function_of};

use glk_base::{KeyId, SymId};
use glk_merge::Merged;
use glk_obj::SymKind;
use glk_reach::definition;

// The number of a key's type; 0 where it has no definition in an object.
#[tactic(auto, unfolding(glk_reach::specs::Chosen::symbol_of))]
fn type_number(merged: &Merged<'_>, key: u32) -> u8
    requires { key < row_count merged.now.program }
    ensures { result ≡ (symbol_of merged.now.program key).kind }
{
    match definition(merged, key) {
        Some(id) => merged.row(id).kind,
        None => 0,
    }
}

/// The type of a key, if it has one.
pub(crate) fn type_of_key(merged: &Merged<'_>, key: u32) -> Option<SymKind>
    requires { key < row_count merged.now.program }
    ensures { result ≡ type_of (symbol_of merged.now.program key).kind }
{
    SymKind::of(type_number(merged, key))
}

/// Whether a key is a function: its chosen definition says so.
#[tactic(auto, unfolding(crate::specs::Tables::is_function))]
pub fn is_function(merged: &Merged<'_>, key: u32) -> bool
    requires { key < row_count merged.now.program }
    ensures { result ≡ is_function_of merged.now.program key }
{
    type_number(merged, key) == SymKind::Text.number()
}

/// The name of a key: that of its chosen definition, else that of the reference that the key is.
#[tactic(auto, unfolding(glk_keys::specs::Names::key_name))]
pub fn name<'a>(merged: &Merged<'a>, key: u32) -> &'a [u8]
    requires { IsKey merged.now.program key }
    ensures { result.now ≡ key_name merged.now.program key }
{
    match merged.chosen(KeyId(key)) {
        Some(id) => merged.row(id).name,
        None => merged.row(SymId(key)).name,
    }
}
