// What holds of all files: laws of the definitions, which are proved with these functions and cost
// nothing when they run.
ghost use Rattle.glk_tools.specs.Addr2line.{IsOneAnswering};
ghost use Rattle.glk_tools.specs.Dump.{IsOneDump};
ghost use Rattle.glk_tools.specs.Mkobj.{IsOneArchive};
ghost use Rattle.glk_tools.specs.Nm.{IsOneListing};
ghost use Rattle.glk_tools.specs.PackageText.{IsOneText};

/// A package file has one text, or one first fault, and not both.
pub fn one_text()
    ensures { IsOneText }
{}

/// The text at a path gives one archive, or one first refusal, and not both.
pub fn one_archive()
    ensures { IsOneArchive }
{}

/// The package file at a path gives one text, or one first refusal, and not both.
pub fn one_dump()
    ensures { IsOneDump }
{}

/// The image at a path gives one listing of its symbols, or one first refusal, and not both.
pub fn one_listing()
    ensures { IsOneListing }
{}

/// The image at a path and standard input give one text of answers, or one first refusal, and not both.
pub fn one_answering()
    ensures { IsOneAnswering }
{}
