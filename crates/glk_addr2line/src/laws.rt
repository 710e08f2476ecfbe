// What holds of all files: a law of the definitions, which is proved with this function and costs
// nothing when it runs.
ghost use Rattle.glk_addr2line.specs.Answers.{IsOneAddressText};

/// The addresses of an input have one text in a file.
pub fn one_address_text()
    ensures { IsOneAddressText }
{}
