// The lines of configuration files, and the words and numbers of a line.
ghost use Rattle.std.specs.Prelude.{◌≡◌, ◌==◌, ◌<◌, ◌≤◌, ◌^◌, ◌↔◌, ℕ, length, IsTrue, MatchOption};
ghost use Rattle.std.specs.Fmt.{decimal};
ghost use Rattle.std.specs.List.{position_or_len, prefix_len};
ghost use Rattle.std.specs.Str.{is_utf8};
ghost use Rattle.glk_base.specs.Lines.{IsCut, BeginsNumber, trimmed_line, is_blank as blank, is_space as space, is_skipped as skipped, first_word as first_word_of, after_word as after_word_of};

/// A bad line of a configuration file.
#[derive(Clone, Copy, Debug, PartialEq, Eq)]
pub struct ConfigLine {
    /// The number of the first bad line, from 1; a number past 2^32 - 1 is given as 2^32 - 1.
    pub line: u32,
}

// A space, a tab or a carriage return.
fn is_blank(byte: u8) -> bool
    ensures { result ≡ blank byte }
{
    byte == b' ' || byte == b'\t' || byte == b'\r'
}

/// The index of the first such byte, or the length where there is none.
pub fn first_of(bytes: &[u8], byte: u8) -> usize
    ensures place { result ≡ position_or_len (λ b. b == byte) bytes.now }
    ensures inside { result ≤ length bytes.now }
{
    for (i, b) in bytes.iter().enumerate() {
        if *b == byte {
            return i;
        }
    }
    bytes.len()
}

/// The first line of a text, and what follows its newline, if it has one. To go over all lines, cut
/// what is left until nothing is.
pub fn cut_line(text: &[u8]) -> (&[u8], Option<&[u8]>)
    ensures { IsCut text.now result.0.now result.1 }
{
    let i = first_of(text, b'\n');
    if i < text.len() {
        (&text[..i], Some(&text[i + 1..]))
    } else {
        (text, None)
    }
}

// How many blanks a line begins with.
fn blanks(line: &[u8]) -> usize
    ensures place { result ≡ prefix_len blank line.now }
    ensures inside { result ≤ length line.now }
{
    for (i, b) in line.iter().enumerate() {
        if !is_blank(*b) {
            return i;
        }
    }
    line.len()
}

/// A line without the spaces, tabs and carriage returns at its ends.
#[tactic(auto, unfolding(crate::specs::Lines::trimmed_line))]
pub fn trim(line: &[u8]) -> &[u8]
    ensures { result.now ≡ trimmed_line line.now }
{
    let start = blanks(line);
    let field = &line[start..];
    let mut n = field.len();
    while n > 0 && is_blank(field[n - 1]) {
        n -= 1;
    }
    &field[..n]
}

/// Whether a line that is trimmed is skipped: it is empty, or begins with `#`.
pub fn is_skipped(line: &[u8]) -> bool
    ensures { result ≡ skipped line.now }
{
    line.is_empty() || line[0] == b'#'
}

/// Whether a line is UTF-8.
pub fn is_text(line: &[u8]) -> bool
    ensures { result ≡ is_utf8 line.now }
{
    match std::str::from_utf8(line) {
        Ok(_) => true,
        Err(_) => false,
    }
}

/// What a line has before its first space.
#[tactic(auto, unfolding(crate::specs::Lines::first_word))]
pub fn first_word(line: &[u8]) -> &[u8]
    ensures { result.now ≡ first_word_of line.now }
{
    &line[..first_of(line, b' ')]
}

// How many spaces these bytes begin with.
fn spaces(bytes: &[u8]) -> usize
    ensures place { result ≡ prefix_len space bytes.now }
    ensures inside { result ≤ length bytes.now }
{
    for (i, b) in bytes.iter().enumerate() {
        if *b != b' ' {
            return i;
        }
    }
    bytes.len()
}

/// What a line has after its first space and the spaces that follow.
#[tactic(auto, unfolding(crate::specs::Lines::after_word))]
pub fn after_word(line: &[u8]) -> &[u8]
    ensures { result.now ≡ after_word_of line.now }
{
    let rest = &line[first_of(line, b' ')..];
    &rest[spaces(rest)..]
}

// Whether these bytes begin as a number does: with a digit, and with `0` only where nothing follows.
fn begins_number(digits: &[u8]) -> bool
    ensures { IsTrue result ↔ BeginsNumber digits.now }
{
    if digits.is_empty() {
        return false;
    }
    match digits[0] {
        b'0' => digits.len() == 1,
        b'1'..=b'9' => true,
        _ => false,
    }
}

/// The number below 2^16 that is written here in decimal digits, without a sign or a leading zero.
pub fn small_number(digits: &[u8]) -> Option<u16>
    ensures { MatchOption result ((n : ℕ) → n < 2 ^ 16 → digits.now ≡ decimal n → ⊥)
        (λ n. digits.now ≡ decimal n) }
{
    if !begins_number(digits) {
        return None;
    }
    match std::str::from_utf8(digits) {
        Ok(text) => match text.parse::<u16>() {
            Ok(number) => Some(number),
            Err(_) => None,
        },
        Err(_) => None,
    }
}
