// Bytes in hexadecimal.
ghost use Rattle.std.specs.Prelude.{◌≡◌, ◌++◌, OnOk};
ghost use Rattle.std.specs.List.{list_all};
ghost use Rattle.glk_objtext.specs.Answers.{Gives};
ghost use Rattle.glk_objtext.specs.Strings.{is_low_hex};
ghost use Rattle.glk_objtext.specs.Octets.{pairs_of, octets_of, sized_of, octets_text, fingerprint_length};

use crate::rules::BAD_STRING;
use crate::strings::is_digit;
use glk_base::{Fault, OutOfMemory, Text};
use hex::FromHexError;
use std::alloc::Global;

/// The length of a fingerprint and of a short hash, in bytes.
const FINGERPRINT_LENGTH: usize = 8;

// Whether all the bytes are lower-case digits.
fn are_digits(field: &[u8]) -> bool
    ensures { result ≡ list_all is_low_hex field.now }
{
    field.iter().all(|b| is_digit(*b))
}

// The bytes of pairs of digits.
#[tactic(auto, unfolding(crate::specs::Octets::pairs_of))]
fn read_pairs(alloc: Global, field: &[u8]) -> Result<Text, Fault<u8>>
    ensures { Gives (pairs_of field.now) result }
{
    if !are_digits(field) {
        return Err(Fault::Bad(BAD_STRING));
    }
    match hex::decode(alloc, field) {
        Ok(bytes) => Ok(Text::of(bytes)),
        Err(FromHexError::OutOfMemory) => Err(Fault::OutOfMemory),
        Err(_) => Err(Fault::Bad(BAD_STRING)),
    }
}

/// The bytes that a field stands for.
#[tactic(auto, unfolding(crate::specs::Octets::octets_of))]
pub(crate) fn read_octets(alloc: Global, field: &[u8]) -> Result<Text, Fault<u8>>
    ensures { Gives (octets_of field.now) result }
{
    if field == b"-".as_slice() {
        return Ok(Text::of(Vec::new(alloc)));
    }
    read_pairs(alloc, field)
}

/// The short hash that a field stands for.
#[tactic(auto, unfolding(crate::specs::Octets::sized_of))]
pub(crate) fn read_short_hash(alloc: Global, field: &[u8]) -> Result<Text, Fault<u8>>
    ensures { Gives (sized_of fingerprint_length field.now) result }
{
    if field.len() == 2 * FINGERPRINT_LENGTH {
        read_pairs(alloc, field)
    } else {
        Err(Fault::Bad(BAD_STRING))
    }
}

/// The fingerprint that a field stands for.
#[tactic(auto, unfolding(crate::specs::Octets::sized_of, crate::specs::Octets::pairs_of))]
pub(crate) fn read_fingerprint(field: &[u8]) -> Result<[u8; 8], Fault<u8>>
    ensures { Gives (sized_of fingerprint_length field.now) result }
{
    if field.len() != 2 * FINGERPRINT_LENGTH {
        return Err(Fault::Bad(BAD_STRING));
    }
    if !are_digits(field) {
        return Err(Fault::Bad(BAD_STRING));
    }
    let mut bytes = [0; 8];
    match hex::decode_to_slice(field, &mut bytes) {
        Ok(()) => Ok(bytes),
        Err(_) => Err(Fault::Bad(BAD_STRING)),
    }
}

/// Writes the one spelling of bytes.
#[tactic(auto, unfolding(crate::specs::Octets::octets_text))]
pub(crate) fn push_octets(alloc: Global, out: &mut Vec<u8>, bytes: &[u8]) -> Result<(), OutOfMemory>
    ensures { OnOk result (out.new.items ≡ out.old.items ++ octets_text bytes.now) }
{
    match bytes {
        [] => out.push(b'-')?,
        _ => {
            let digits = hex::encode(alloc, bytes)?;
            out.extend_from_slice(digits.as_bytes())?;
        }
    }
    Ok(())
}
