// Looking for a name among rows.
ghost use Rattle.std.specs.Prelude.{◌≡◌, ◌<◌, IfSome, MatchOption};
ghost use Rattle.glk_keys.specs.Keys.{find_key, named, row_key, same_key};
ghost use Rattle.glk_keys.specs.Rows.{row_at, row_count};
ghost use Rattle.glk_merge.specs.KeyTables.{IsNamed};

use glk_base::SymId;
use glk_keys::{Rows, SymbolKey};

// Whether a row has this name and ABI as its key.
fn is_named(rows: &Rows<'_>, id: u32, name: &[u8], abi: u16) -> bool
    requires { id < row_count rows.now }
    ensures { result ≡ same_key (named name.now abi) (row_key (row_at rows.now id)) }
{
    match rows.key_in(SymId(id)) {
        SymbolKey::Named { name: n, abi: a } => abi == a && name == n,
        SymbolKey::Short(_) => false,
        SymbolKey::Long(_) => false,
        SymbolKey::OfObject { .. } => false,
    }
}

// Some row of the linker's own with this name and ABI.
fn find_own(rows: &Rows<'_>, name: &[u8], abi: u16) -> Option<u32>
    ensures { IfSome result (IsNamed rows.now name.now abi) }
{
    for id in rows.of_objects()..rows.count() {
        if is_named(rows, id, name, abi) {
            return Some(id);
        }
    }
    None
}

// The first row with this name and ABI.
fn find_first(rows: &Rows<'_>, name: &[u8], abi: u16) -> Option<u32>
    ensures { MatchOption result (find_key rows.now name.now abi ≡ None) (IsNamed rows.now name.now abi) }
{
    for id in 0..rows.count() {
        if is_named(rows, id, name, abi) {
            return Some(id);
        }
    }
    None
}

// Some row with this name and ABI: one of the linker's own if there is one, else the first.
pub(crate) fn find_row(rows: &Rows<'_>, name: &[u8], abi: u16) -> Option<u32>
    ensures { MatchOption result (find_key rows.now name.now abi ≡ None) (IsNamed rows.now name.now abi) }
{
    match find_own(rows, name, abi) {
        Some(id) => Some(id),
        None => find_first(rows, name, abi),
    }
}
