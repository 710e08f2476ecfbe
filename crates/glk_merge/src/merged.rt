// A merged program.
use crate::offers::Offers;
use glk_elect::Polled;
use glk_keys::Rows;
use std::marker::Model;

/// A merged program: its rows, the key of each, and the chosen definition of each key. Contracts see what
/// was linked, and the closed table with the place of each row. Each answer takes no memory, and but
/// for `find` constant time.
#[derive(Drop)]
pub struct Merged<'a> {
    pub(crate) rows: Rows<'a>,
    pub(crate) offers: Offers,
    pub(crate) polled: Polled,
    // the key of each row
    pub(crate) keys: Vec<u32>,
    // at each key its chosen definition, or `NO_DEFINITION`
    pub(crate) chosen: Vec<u32>,
    // at each key whether it is a type that is turned into an interface
    pub(crate) iface_flags: Vec<bool>,
}

impl<'a> Model for Merged<'a> {
    ghost use Rattle.glk_merge.specs.Mergings.{Merging, IsPollOf};
    ghost use Rattle.glk_merge.specs.Offers.{AreOffers};
    ghost use Rattle.glk_merge.specs.KeyTables.{AreKeyTables};

    ghost Value = { Merging };

    ghost view = { λ m. record { program = m.rows; poll = m.polled } };

    ghost invariant = { λ m.
        IsPollOf m.rows m.polled
        × AreOffers m.rows m.offers.starts.items m.offers.list.items
        × AreKeyTables m.rows m.keys.items m.chosen.items m.iface_flags.items };
}
