// What holds of all files: a law of the definitions, which is proved with this function and costs
// nothing when it runs.
ghost use Rattle.glk_nm.specs.Listing.{IsOneNmText};

/// A file has one text of `nm`, however it is sorted.
pub fn one_nm_text()
    ensures { IsOneNmText }
{}
