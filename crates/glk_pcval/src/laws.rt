// What holds of the ranges and the values of all bytes: laws of the definitions, which are proved
// with these functions and cost nothing when they run.
ghost use Rattle.glk_pcval.specs.Laws.{EndsNeverFall, TablesEndThemselves, RangesDecideValues, NoneBeyond, IsShortest};

/// The ends of the ranges of any bytes never fall.
pub fn ends_never_fall()
    ensures { EndsNeverFall }
{}

/// A table that is not empty ends itself: more bytes after it change nothing.
pub fn tables_end_themselves()
    ensures { TablesEndThemselves }
{}

/// Bytes with the same ranges have the same values, and none have one from 2^32 on.
pub fn ranges_decide_values()
    ensures values { RangesDecideValues }
    ensures beyond { NoneBeyond }
{}

/// No spelling of a number is shorter than the one that `encode` writes.
pub fn numbers_are_shortest()
    ensures { IsShortest }
{}
