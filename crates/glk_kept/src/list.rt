// The kept keys in order.
ghost use Rattle.std.specs.Prelude.{◌≡◌, ◌<◌, length, false, IfOk, IfSome, slice_index_or};
ghost use Rattle.std.specs.List.{All};
ghost use Rattle.glk_keys.specs.Rows.{row_count};
ghost use Rattle.glk_merge.specs.Mergings.{IsKey};
ghost use Rattle.glk_reach.specs.KeptLists.{kept_at as kept_at_in, kept_list};

use glk_base::{OutOfMemory, SymId};
use glk_closure::KeptSet;
use glk_merge::Merged;
use std::alloc::Global;

// The key of a row, where the row is its chosen definition and the key is kept.
#[tactic(auto, unfolding(glk_reach::specs::KeptLists::kept_at))]
fn kept_at(merged: &Merged<'_>, kept: &KeptSet, row: u32) -> Option<u32>
    requires row { row < row_count merged.now.program }
    requires kept { length kept.now.kept ≡ row_count merged.now.program }
    ensures value { result
        ≡ kept_at_in merged.now.program (λ k. slice_index_or kept.now.kept k false) row }
    ensures key { IfSome result (IsKey merged.now.program) }
{
    let key = merged.key(SymId(row));
    match merged.chosen(key) {
        Some(id) => {
            if id.0 == row && kept.has(key.0) {
                Some(key.0)
            } else {
                None
            }
        }
        None => None,
    }
}

/// The kept keys by the load positions of their chosen definitions; made names come last, in the order
/// of their table. It takes one pass over the rows, and four bytes a kept key.
///
/// # Errors
/// Out of memory.
#[tactic(auto, unfolding(glk_reach::specs::KeptLists::kept_list))]
pub fn kept_keys(
    alloc: Global,
    merged: &Merged<'_>,
    kept: &KeptSet,
) -> Result<Vec<u32>, OutOfMemory>
    requires { length kept.now.kept ≡ row_count merged.now.program }
    ensures list { IfOk result (λ list. list.items
        ≡ kept_list merged.now.program (λ k. slice_index_or kept.now.kept k false)) }
    ensures keys { IfOk result (λ list. All (IsKey merged.now.program) list.items) }
{
    let mut list = Vec::new(alloc);
    for row in 0..merged.rows() {
        let Some(key) = kept_at(merged, kept, row) else {
            continue;
        };
        list.push(key)?;
    }
    Ok(list)
}
