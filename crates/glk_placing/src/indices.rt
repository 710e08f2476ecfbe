// The index of each key in the list of kept keys.
ghost use Rattle.std.specs.Prelude.{◌≡◌, ◌≤◌, ◌<◌, ◌^◌, length, IfOk};
ghost use Rattle.std.specs.List.{All};
ghost use Rattle.glk_placing.specs.Indices.{AreIndices};

use glk_base::OutOfMemory;
use std::alloc::Global;

/// What stands for a key that is not kept.
pub(crate) const NOT_KEPT: u32 = u32::MAX;

/// At each of so many keys its index in a list of them, in four bytes a key.
pub(crate) fn indices_by_key(
    alloc: Global,
    list: &[u32],
    keys: u32,
) -> Result<Vec<u32>, OutOfMemory>
    requires inside { All (λ k. k < keys) list.now }
    requires few { length list.now ≤ 2 ^ 24 }
    ensures { IfOk result (λ indices. AreIndices list.now keys indices.items) }
{
    let mut indices = vec![in alloc; NOT_KEPT; keys as usize]?;
    let mut i = list.len();
    while i > 0 {
        i -= 1;
        indices[list[i] as usize] = i as u32;
    }
    Ok(indices)
}
