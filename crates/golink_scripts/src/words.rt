// The words of a line.
use crate::stop::Stop;
use std::alloc::Global;

/// A word: as it is, or what is between quotes.
#[derive(Debug, Drop)]
pub enum Word {
    Bare(String),
    Quoted(String),
}

impl Word {
    /// The word's text.
    pub(crate) fn text(&self) -> &str {
        match self {
            Word::Bare(text) => text.as_str(),
            Word::Quoted(text) => text.as_str(),
        }
    }
}

/// The words of a line, which blanks part. A word in quotes may hold blanks; `\n` in it is a line's
/// end, and any other character after a `\` is itself.
pub(crate) fn words_of(alloc: Global, line: &str) -> Result<Vec<Word>, Stop> {
    let mut words = Vec::new(alloc);
    let mut rest = line.trim();
    // Each word takes a character at least.
    for _ in 0..line.len() {
        if rest.is_empty() {
            break;
        }
        let (word, after) = first_word(alloc, rest)?;
        words.push(word)?;
        rest = after.trim();
    }
    Ok(words)
}

// The first word of a line that does not begin with a blank, and what is after it.
fn first_word(alloc: Global, line: &str) -> Result<(Word, &str), Stop> {
    if let Some(inside) = line.strip_prefix('\'') {
        let Some((text, rest)) = inside.split_once('\'') else {
            return Err(Stop::because(alloc, "a quote that does not end"));
        };
        return Ok((Word::Quoted(unescaped(alloc, text)?), rest));
    }
    let (text, rest) = match line.split_once(' ') {
        Some(parts) => parts,
        None => (line, ""),
    };
    Ok((Word::Bare(String::from_str(alloc, text)?), rest))
}

// The text that is so spelled between quotes.
fn unescaped(alloc: Global, spelled: &str) -> Result<String, Stop> {
    let mut text = String::new(alloc);
    let mut is_escaped = false;
    for c in spelled.chars() {
        if is_escaped {
            text.push(if c == 'n' { '\n' } else { c })?;
            is_escaped = false;
        } else if c == '\\' {
            is_escaped = true;
        } else {
            text.push(c)?;
        }
    }
    Ok(text)
}

/// A number: decimal, or hexadecimal after `0x`.
pub(crate) fn number(alloc: Global, text: &str) -> Result<usize, Stop> {
    let read = match text.strip_prefix("0x") {
        Some(digits) => usize::from_str_radix(digits, 16).ok(),
        None => text.parse::<usize>().ok(),
    };
    match read {
        Some(number) => Ok(number),
        None => Err(Stop::Line(format!(in alloc; "no number: {text}")?)),
    }
}
