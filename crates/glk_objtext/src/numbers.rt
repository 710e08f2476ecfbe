// Numbers.
ghost use Rattle.std.specs.Prelude.{◌≡◌, ◌<◌, ◌≤◌, ◌^◌, ◌-◌, ◌+◌, ◌++◌, ◌↔◌, ◌==◌, IfOk, OnOk, IsTrue, MatchOption, min, length, slice_index};
ghost use Rattle.std.specs.Str.Parse.{AllDigits, digits_value};
ghost use Rattle.glk_objtext.specs.Answers.{Gives};
ghost use Rattle.glk_objtext.specs.Numbers.{number_of, number_text, signed_of, signed_text, IsWithin, IsShort, IsCappedValue};

use crate::rules::BAD_NUMBER;
use glk_base::{Fault, OutOfMemory};
use itoa::Buffer;

// The number that digits write, or 2^64 - 1 where it is greater; none where a byte is no digit.
fn capped_value(digits: &[u8]) -> Option<u64>
    ensures { MatchOption result (AllDigits 10 digits.now → ⊥) (IsCappedValue digits.now) }
{
    let mut value: u64 = 0;
    for b in digits {
        if !b.is_ascii_digit() {
            return None;
        }
        value = value.saturating_mul(10).saturating_add((*b - b'0') as u64);
    }
    Some(value)
}

// Whether there is a digit at least, and no leading zero.
fn is_short(digits: &[u8]) -> bool
    ensures { IsTrue result ↔ IsShort digits.now }
{
    match digits {
        [] => false,
        [first, rest @ ..] => *first != b'0' || rest.is_empty(),
    }
}

/// The number below `limit` that a field spells.
pub(crate) fn read_number(field: &[u8], limit: u64) -> Result<u64, Fault<u8>>
    ensures means { Gives (number_of limit field.now) result }
    ensures small { IfOk result (λ n. n < limit) }
{
    if !is_short(field) {
        return Err(Fault::Bad(BAD_NUMBER));
    }
    match capped_value(field) {
        Some(value) => {
            if value < limit {
                Ok(value)
            } else {
                Err(Fault::Bad(BAD_NUMBER))
            }
        }
        None => Err(Fault::Bad(BAD_NUMBER)),
    }
}

fn has_minus(field: &[u8]) -> bool
    ensures value { result ≡ (slice_index field.now 0 == 45) }
    ensures inside { IsTrue result → 0 < length field.now }
{
    match field {
        [] => false,
        [first, ..] => *first == b'-',
    }
}

/// The number from `-limit` to `limit - 1` that a field spells.
pub(crate) fn read_signed(field: &[u8], limit: u64) -> Result<i64, Fault<u8>>
    requires { limit ≤ 2 ^ 63 }
    ensures means { Gives (signed_of limit field.now) result }
    ensures small { IfOk result (IsWithin limit) }
{
    if has_minus(field) {
        let number = read_number(&field[1..], limit + 1)?;
        if number == 0 {
            return Err(Fault::Bad(BAD_NUMBER));
        }
        Ok(-1 - (number - 1) as i64)
    } else {
        let number = read_number(field, limit)?;
        Ok(number as i64)
    }
}

/// Writes a number's one spelling.
pub(crate) fn push_number(out: &mut Vec<u8>, number: u64) -> Result<(), OutOfMemory>
    ensures { OnOk result (out.new.items ≡ out.old.items ++ number_text number) }
{
    let mut buffer = Buffer::new();
    out.extend_from_slice(buffer.format(number).as_bytes())?;
    Ok(())
}

/// Writes the one spelling of a number with a sign.
pub(crate) fn push_signed(out: &mut Vec<u8>, number: i64) -> Result<(), OutOfMemory>
    ensures { OnOk result (out.new.items ≡ out.old.items ++ signed_text number) }
{
    let mut buffer = Buffer::new();
    out.extend_from_slice(buffer.format(number).as_bytes())?;
    Ok(())
}
