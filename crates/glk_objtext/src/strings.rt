// Strings.
ghost use Rattle.std.specs.Prelude.{◌≡◌, ◌<◌, ◌==◌, ◌++◌, OnOk, IsTrue, length, slice_index};
ghost use Rattle.std.specs.List.{list_all, flat_map};
ghost use Rattle.glk_objtext.specs.Answers.{Gives, or_rule, bad_string};
ghost use Rattle.glk_objtext.specs.Strings.{is_bare as bare, is_bare_byte as bare_byte, is_printed as printed, is_low_hex, hex_value as value_of_digit, inside, step, string_of, byte_escape, string_text};
ghost use Rattle.glk_objtext.specs.declared.strings.Inside.TheVariants.{LowDigit, Plain};

use crate::rules::BAD_STRING;
use glk_base::{Fault, OutOfMemory, Text};
use std::alloc::Global;

/// Where reading is in a quoted string: at a byte, after a backslash, at the first digit of
/// an escape, or at its second digit, with the first one's value.
#[derive(Clone, Copy, Debug)]
enum Inside {
    Plain,
    Pair,
    HighDigit,
    LowDigit(u8),
}

/// What a byte of a quoted string means: reading goes on elsewhere, a byte stands for this one, the
/// string ends, or it is malformed.
#[derive(Clone, Copy, Debug)]
enum Step {
    Into(Inside),
    Stands(u8),
    End,
    Broken,
}

fn is_printed(byte: u8) -> bool
    ensures { result ≡ printed byte }
{
    byte >= b' ' && byte <= b'~'
}

#[tactic(auto, unfolding(crate::specs::Strings::is_bare_byte))]
fn is_bare_byte(byte: u8) -> bool
    ensures { result ≡ bare_byte byte }
{
    byte > b' ' && byte <= b'~' && byte != b'"' && byte != b'\\'
}

#[tactic(auto, unfolding(crate::specs::Strings::is_low_hex))]
pub(crate) fn is_digit(byte: u8) -> bool
    ensures { result ≡ is_low_hex byte }
{
    (byte >= b'0' && byte <= b'9') || (byte >= b'a' && byte <= b'f')
}

// Whether all the bytes are those of bare words.
fn are_bare(bytes: &[u8]) -> bool
    ensures { result ≡ list_all bare_byte bytes.now }
{
    bytes.iter().all(|b| is_bare_byte(*b))
}

/// Whether a string stands for itself as a field.
#[tactic(auto, unfolding(crate::specs::Strings::is_bare))]
fn is_bare(bytes: &[u8]) -> bool
    ensures { result ≡ bare bytes.now }
{
    match bytes {
        [] => false,
        [first, ..] => *first != b'#' && are_bare(bytes),
    }
}

#[tactic(auto, unfolding(crate::specs::Strings::hex_value, crate::specs::Strings::is_low_hex))]
fn hex_value(digit: u8) -> u8
    requires { IsTrue (is_low_hex digit) }
    ensures value { result ≡ value_of_digit digit }
    ensures small { result < 16 }
{
    if digit <= b'9' {
        digit - b'0'
    } else {
        digit - b'a' + 10
    }
}

impl Inside {
    #[tactic(auto, unfolding(crate::specs::Strings::step))]
    fn step(self, byte: u8) -> Step
        ensures { result ≡ step self byte }
    {
        match self {
            Inside::Plain => {
                if byte == b'"' {
                    Step::End
                } else if byte == b'\\' {
                    Step::Into(Inside::Pair)
                } else if is_printed(byte) {
                    Step::Stands(byte)
                } else {
                    Step::Broken
                }
            }
            Inside::Pair => {
                if byte == b'x' {
                    Step::Into(Inside::HighDigit)
                } else if byte == b'"' || byte == b'\\' {
                    Step::Stands(byte)
                } else {
                    Step::Broken
                }
            }
            Inside::HighDigit => {
                if is_digit(byte) {
                    Step::Into(Inside::LowDigit(hex_value(byte)))
                } else {
                    Step::Broken
                }
            }
            Inside::LowDigit(high) => low_digit(high, byte),
        }
    }
}

// The byte of two digits.
#[tactic(auto, unfolding(crate::specs::Strings::step))]
fn low_digit(high: u8, byte: u8) -> Step
    ensures { result ≡ step (LowDigit high) byte }
{
    if !is_digit(byte) {
        return Step::Broken;
    }
    let value = high as u32 * 16 + hex_value(byte) as u32;
    match u8::try_from(value) {
        Ok(0) => Step::Broken,
        Ok(value) => Step::Stands(value),
        Err(_) => Step::Broken,
    }
}

// The string whose spelling follows an opening quote.
fn read_quoted(alloc: Global, bytes: &[u8]) -> Result<Text, Fault<u8>>
    ensures { Gives (or_rule bad_string (inside Plain bytes.now)) result }
{
    let mut out = Vec::new(alloc);
    let mut at = Inside::Plain;
    for (i, b) in bytes.iter().enumerate() {
        match at.step(*b) {
            Step::Into(next) => at = next,
            Step::Stands(value) => {
                out.push(value)?;
                at = Inside::Plain;
            }
            Step::End => {
                if i + 1 < bytes.len() {
                    return Err(Fault::Bad(BAD_STRING));
                }
                return Ok(Text::of(out));
            }
            Step::Broken => return Err(Fault::Bad(BAD_STRING)),
        }
    }
    Err(Fault::Bad(BAD_STRING))
}

/// The string that a field stands for.
#[tactic(auto, unfolding(crate::specs::Strings::string_of))]
pub(crate) fn read_string(alloc: Global, field: &[u8]) -> Result<Text, Fault<u8>>
    ensures { Gives (string_of field.now) result }
{
    if is_bare(field) {
        return Ok(Text::new(alloc, field)?);
    }
    if first_is_quote(field) {
        read_quoted(alloc, &field[1..])
    } else {
        Err(Fault::Bad(BAD_STRING))
    }
}

fn first_is_quote(field: &[u8]) -> bool
    ensures value { result ≡ (slice_index field.now 0 == 34) }
    ensures inside { IsTrue result → 0 < length field.now }
{
    match field {
        [] => false,
        [first, ..] => *first == b'"',
    }
}

const DIGITS: &[u8; 16] = b"0123456789abcdef";

// Writes a byte of a quoted string.
#[tactic(auto, unfolding(crate::specs::Strings::byte_escape))]
fn push_escaped(out: &mut Vec<u8>, byte: u8) -> Result<(), OutOfMemory>
    ensures { OnOk result (out.new.items ≡ out.old.items ++ byte_escape byte) }
{
    if byte == b'"' || byte == b'\\' {
        out.extend_from_slice(&[b'\\', byte])?;
    } else if is_printed(byte) {
        out.push(byte)?;
    } else {
        let high = DIGITS[byte as usize / 16];
        let low = DIGITS[byte as usize % 16];
        out.extend_from_slice(&[b'\\', b'x', high, low])?;
    }
    Ok(())
}

// Writes the bytes of a quoted string.
fn push_all_escaped(out: &mut Vec<u8>, bytes: &[u8]) -> Result<(), OutOfMemory>
    ensures { OnOk result (out.new.items ≡ out.old.items ++ flat_map byte_escape bytes.now) }
{
    for b in bytes {
        push_escaped(out, *b)?;
    }
    Ok(())
}

/// Writes a string's canonical spelling.
#[tactic(auto, unfolding(crate::specs::Strings::string_text))]
pub(crate) fn push_string(out: &mut Vec<u8>, bytes: &[u8]) -> Result<(), OutOfMemory>
    ensures { OnOk result (out.new.items ≡ out.old.items ++ string_text bytes.now) }
{
    if is_bare(bytes) {
        out.extend_from_slice(bytes)?;
    } else {
        out.push(b'"')?;
        push_all_escaped(out, bytes)?;
        out.push(b'"')?;
    }
    Ok(())
}
