// What holds of the definitions: a law that is proved with this function and costs nothing when it
// runs.
ghost use Rattle.glk_frames_reader.specs.Laws.{SearchesAgree};

/// In a file that loads the buckets of its functions, `find_by_bucket` finds what `find` does, at each
/// address.
pub fn searches_agree()
    ensures { SearchesAgree }
{}
