// What holds of all files: laws of the definitions, which are proved with these functions and cost
// nothing when they run.
ghost use Rattle.glk_ar.specs.Laws.{IsOneArchive, IsOnePart, StartsWalked, PassesMembers, EndsWhole, RefusesFirst};

/// A file has one list of members, or one first broken rule, and not both.
pub fn one_archive()
    ensures { IsOneArchive }
{}

/// A body holds one object.
pub fn one_part()
    ensures { IsOnePart }
{}

/// A whole walk with `members` and `next` gives the archive: where it ends, the members that it
/// has passed are those of the file, and what it is refused for is the first broken rule.
pub fn walks_are_whole()
    ensures start { StartsWalked }
    ensures more { PassesMembers }
    ensures ends { EndsWhole }
    ensures refused { RefusesFirst }
{}
