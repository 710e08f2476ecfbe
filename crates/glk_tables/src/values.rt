// Pc tables and what their values may be.
ghost use Rattle.std.specs.Prelude.{◌≡◌};
ghost use Rattle.glk_tables.specs.Function.{IsSmall};
ghost use Rattle.glk_tables.specs.Rules.{is_no_table as is_no_table_of, is_outside as is_outside_of, any_outside, has_outside as has_outside_of, any};
ghost use Rattle.glk_tables.specs.Views.{target_view};

use crate::function::{AuxTarget, table_bytes};
use glk_pcval::{Steps, check};

// Whether the bytes are no pc table.
#[tactic(auto, unfolding(crate::specs::Rules::is_no_table))]
pub(crate) fn is_no_table(target: AuxTarget<'_>) -> bool
    requires { IsSmall (target_view target) }
    ensures { result ≡ is_no_table_of (target_view target.entry) }
{
    check(table_bytes(target)).is_err()
}

// Whether a value is below -1, or not below a number.
fn is_outside(limit: u32, value: i32) -> bool
    ensures { result ≡ is_outside_of limit value }
{
    if value < 0 {
        value < -1
    } else {
        value as u32 >= limit
    }
}

// Whether a range of a pc table has such a value.
#[tactic(auto, unfolding(crate::specs::Rules::has_outside))]
pub(crate) fn has_outside(limit: u32, target: AuxTarget<'_>) -> bool
    ensures { result ≡ has_outside_of limit (target_view target.entry) }
{
    for (value, _) in Steps::new(table_bytes(target)) {
        if is_outside(limit, value) {
            return true;
        }
    }
    false
}
