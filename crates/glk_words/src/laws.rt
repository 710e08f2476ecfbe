// What holds of all command lines: a law of the definitions, which is proved with this function and
// costs nothing when it runs.
ghost use Rattle.glk_words.specs.Laws.{SpellingsAgree};

/// A setting may be spelled in four ways, which mean the same.
pub fn spellings_agree()
    ensures { SpellingsAgree }
{}
