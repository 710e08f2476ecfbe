// The command `mkobj`: a text is made a package archive.
ghost use Rattle.std.specs.Prelude.{◌≡◌};
ghost use Rattle.glk_cause.specs.Chain.{Answers};
ghost use Rattle.glk_tools.specs.Mkobj.{refusal_of as refusal_by, IsArchiveOf, TextAnswer, MkobjAnswer, MkobjUnlessIoFails};

use crate::text_archive::{MakeBad, make_archive};
use glk_base::{Fault, Text};
use glk_cause::{Cause, read_named, write_named};
use glk_io::Files;
use std::alloc::Global;

// How long a text may be.
const TEXT_LIMIT: u64 = 1 << 28;

/// Makes the text at a path a package archive, and writes it to the output file.
///
/// No file is changed where a refusal comes before the write, and none but the output file by it. All
/// memory but the file's own is taken before the write.
///
/// # Errors
/// The first refusal that holds of the files: of the text's file, of its first bad line, or of an
/// archive that would be too long; a read or write fault, where its count rose; out of memory.
pub fn mkobj<F: Files>(
    alloc: Global,
    path: &str,
    out: &str,
    files: &mut F,
) -> Result<(), Fault<Cause>>
    ensures answer { MkobjAnswer (F.state files.old) (F.state files.new) path.now out.now result }
    ensures must { MkobjUnlessIoFails (F.state files.old) (F.state files.new) path.now result }
{
    make_and_write(alloc, path, out, files)
}

// The same without what must be answered.
fn make_and_write<F: Files>(
    alloc: Global,
    path: &str,
    out: &str,
    files: &mut F,
) -> Result<(), Fault<Cause>>
    ensures { MkobjAnswer (F.state files.old) (F.state files.new) path.now out.now result }
{
    let archive = archive_at(alloc, path, files)?;
    write_named(alloc, out, &archive, files)
}

// The archive of the text at a path.
fn archive_at<F: Files>(alloc: Global, path: &str, files: &mut F) -> Result<Vec<u8>, Fault<Cause>>
    ensures { TextAnswer (F.state files.old) (F.state files.new) path.now result }
{
    let text = read_named(alloc, path, TEXT_LIMIT, TEXT_LIMIT, files)?;
    archive_of(alloc, path, text.as_bytes())
}

// The archive of a text, whose path is named where it has none.
fn archive_of(alloc: Global, path: &str, text: &[u8]) -> Result<Vec<u8>, Fault<Cause>>
    ensures { Answers (IsArchiveOf path.now text.now) (λ archive. archive.items) result }
{
    match make_archive(alloc, text) {
        Ok(archive) => Ok(archive),
        Err(Fault::Bad(broken)) => {
            let named = Text::new(alloc, path.as_bytes())?;
            Err(Fault::Bad(refusal(named, broken)))
        }
        Err(Fault::OutOfMemory) => Err(Fault::OutOfMemory),
    }
}

// The refusal of a text.
fn refusal(path: Text, broken: MakeBad) -> Cause
    ensures { result ≡ refusal_by path broken }
{
    match broken {
        MakeBad::Text(bad) => Cause::TextBad {
            path,
            line: bad.line,
            rule: bad.rule,
        },
        MakeBad::Big(big) => Cause::TooBig {
            path,
            number: big.number,
        },
    }
}
