// The rules of lines, by their numbers.

/// The first word is none of the words of lines.
pub(crate) const UNKNOWN_WORD: u8 = 1;
/// The first line is no `object` line, or a later one is.
pub(crate) const MISPLACED_OBJECT: u8 = 2;
/// The line comes after one of a later kind.
pub(crate) const OUT_OF_ORDER: u8 = 3;
/// The line has more or fewer fields than its kind.
pub(crate) const FIELD_COUNT: u8 = 4;
/// A number or a reference is malformed, or outside its field's width.
pub(crate) const BAD_NUMBER: u8 = 5;
/// A string, a fingerprint, a hash or bytes are malformed.
pub(crate) const BAD_STRING: u8 = 6;
/// Data, a relocation or an aux are under no definition, or in the wrong order.
pub(crate) const MISPLACED_PART: u8 = 7;
/// A long hash has a length out of range, or another than an earlier one.
pub(crate) const HASH_LENGTH: u8 = 8;
