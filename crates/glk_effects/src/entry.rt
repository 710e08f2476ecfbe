// The name of the entry.
ghost use Rattle.std.specs.Prelude.{◌≡◌};

use glk_base::SymId;
use glk_merge::Merged;

/// The name of the entry. It is the first of the linker's own rows, which are the last ones.
pub fn entry_name<'a>(merged: &Merged<'a>) -> &'a [u8]
    ensures { result.now ≡ merged.now.program.entry }
{
    let last = merged.rows() - 1;
    let (_, local) = merged.owner(SymId(last));
    merged.row(SymId(last - local)).name
}
