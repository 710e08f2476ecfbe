// The words that the system gives the program.
ghost use Rattle.std.specs.Prelude.{◌≡◌, IfErr};
ghost use Rattle.glk_words.specs.Words.{texts_of};
ghost use Rattle.glk_words.specs.CommandLine.{command_line_of};
ghost use Rattle.golink.specs.Unreadable.{is_of_word as names_word, IsUnreadable, AreUnreadable};

use glk_base::Fault;
use glk_run::Outcome;
use glk_words::{UsageBad, Why, parse_command_line};
use std::alloc::{AllocError, Global};
use std::env::FillError;
use std::rt::Env;
use std::str;

// Linux gives a program no word longer than this.
const LONGEST_WORD: usize = 1 << 17;

/// The words after the program's name. One that is not UTF-8, or is longer than any that the system
/// hands over, is a bad value at its index; words before it are judged first.
pub fn arguments<R: Env>(rt: &R, alloc: Global) -> Result<Vec<String>, Outcome>
    ensures { IfErr result AreUnreadable }
{
    let mut words = Vec::new(alloc);
    match read_words(rt, alloc, &mut words) {
        Ok(None) => Ok(words),
        Ok(Some(index)) => Err(unreadable(alloc, &words, index)),
        Err(_) => Err(Outcome::OutOfMemory),
    }
}

// Adds the words up to the first one that can't be read, and gives the index of that one.
fn read_words<R: Env>(
    rt: &R,
    alloc: Global,
    words: &mut Vec<String>,
) -> Result<Option<u32>, AllocError> {
    let mut room = Vec::new(alloc);
    room.resize(LONGEST_WORD, 0u8)?;
    for index in 0..u32::MAX {
        // Argument 0 is the program's name.
        let len = match rt.arg(index as usize + 1, room.as_mut_slice()) {
            Ok(len) => len,
            Err(FillError::TooLong) => return Ok(Some(index)),
            Err(FillError::NotPresent) => break,
        };
        match str::from_utf8(&room[..len]) {
            Ok(text) => words.push(String::from_str(alloc, text)?)?,
            Err(_) => return Ok(Some(index)),
        }
    }
    Ok(None)
}

// The outcome of these words, after which the one with this index can't be read.
fn unreadable(alloc: Global, words: &[String], index: u32) -> Outcome
    ensures { IsUnreadable (texts_of words.now) index result }
{
    match parse_command_line(alloc, words) {
        Err(Fault::Bad(bad)) if is_of_word(bad.why) => Outcome::Usage(bad),
        Err(Fault::OutOfMemory) => Outcome::OutOfMemory,
        _ => Outcome::Usage(UsageBad {
            word: index,
            why: Why::BadValue,
        }),
    }
}

// Whether a fault is one of a word that is there, and not of one that is missing after the last.
fn is_of_word(why: Why) -> bool
    ensures { result ≡ names_word why }
{
    !matches!(why, Why::NoCommand | Why::MissingValue | Why::MissingFile)
}
