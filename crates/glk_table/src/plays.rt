// The rule of the table, and what each step reports to its seat. There are seven kinds of step: a load
// (`Look`, and `GiveKeys` before the table is shared), a compare-exchange (`Fill`), a fetch-min of an
// id (`Enter`), a fetch-min of a rank (`Rank`), a fetch-max (`Strong`), a split and a join (`Halve`).
ghost use Rattle.std.specs.Prelude.{ℕ, List, []};

use super::view::View;
use atomic_table::{Join, Play, Split, TableRule};
use std::marker::{Brand, PhantomData};

// What holds of the words and of all views between any two steps.
pub struct Ruled;

impl TableRule<(), View, usize> for Ruled {
    ghost use Rattle.glk_table.specs.Rule.{holds, first_view};

    ghost holds = { holds };

    ghost first = { first_view };
}

// A load of a probe place.
pub(crate) struct Look;

impl Play<(), View> for Look {
    ghost use Rattle.glk_table.specs.Rule.{Looked};

    ghost then = { Looked };
}

// A compare-exchange of 0 by one more than an id, at a probe place.
pub(crate) struct Fill;

impl Play<(), View> for Fill {
    ghost use Rattle.glk_table.specs.Rule.{Filled};

    ghost then = { Filled };
}

// A fetch-min of an id at its key's place. From here on the call of `enter` counts.
pub(crate) struct Enter;

impl Play<(), View> for Enter {
    ghost use Rattle.glk_table.specs.Rule.{Entered};

    ghost then = { Entered };
}

// A fetch-min of a rank.
pub(crate) struct Rank;

impl Play<(), View> for Rank {
    ghost use Rattle.glk_table.specs.Rule.{Ranked};

    ghost then = { Ranked };
}

// A fetch-max of one more than a strong id.
pub(crate) struct Strong;

impl Play<(), View> for Strong {
    ghost use Rattle.glk_table.specs.Rule.{Strengthened};

    ghost then = { Strengthened };
}

// A list of keys, for contracts alone.
pub(crate) trait Naming {
    ghost keys: { List (ℕ × ℕ) };
}

impl Naming for Brand {
    ghost keys = { [] };
}

// A load that gives the first seat the list of keys, which the rule doesn't know before.
pub(crate) struct GiveKeys<L> {
    of: PhantomData<L>,
}

impl<L: Naming> Play<(), View> for GiveKeys<L> {
    ghost use Rattle.glk_table.specs.Rule.{GivenKeys};

    ghost then = { GivenKeys L.keys };
}

// A split of a seat's part in halves, and a join of two seats.
pub(crate) struct Halve;

impl Split<View> for Halve {
    ghost use Rattle.glk_table.specs.Rule.{kept_half, given_half};

    ghost left = { kept_half };

    ghost right = { given_half };
}

impl Join<View> for Halve {
    ghost use Rattle.glk_table.specs.Rule.{both_views, spent_view};

    ghost both = { both_views };

    ghost spent = { spent_view };
}
