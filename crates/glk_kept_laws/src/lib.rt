//! Laws of the kept list, which hold of every program. Each is proved with a function that costs nothing
//! when it runs.
#![tactic(auto)]

ghost use Rattle.glk_kept_laws.specs.Laws.{AreKeptListsInOrder, AreMadeNamesAlwaysLast};

/// The list of kept keys has exactly the keys that are kept and have a definition, by the load
/// positions of their chosen definitions.
pub fn kept_lists_are_in_order()
    ensures { AreKeptListsInOrder }
{}

/// The load positions of made names are behind those of all symbols of objects, in the order of their
/// table.
pub fn made_names_are_last()
    ensures { AreMadeNamesAlwaysLast }
{}
