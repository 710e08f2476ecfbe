// The names of functions and files, and the pc tables, where a region has them.
ghost use Rattle.std.specs.Prelude.{◌≡◌, ◌+◌, ◌*◌, ◌<◌, ◌^◌, drop};
ghost use Rattle.std.specs.Option.{option_copied};
ghost use Rattle.glk_pcval.specs.Table.{value_of as value_in};
ghost use Rattle.glk_frames.specs.Chain.{or_unknown};
ghost use Rattle.glk_frames.specs.Region.{IsRegion, ended_by_zero, name_at as name_of, table_at as table_of, file_by, file_entry as entry_of, file_at as file_of};

use crate::region::{cutab, filetab, funcnametab, pctab};
use glk_base::le32;
use glk_pcval::{ranges_decide_values, value_at};
use memchr::memchr;

// What is shown where there is no name.
const UNKNOWN: &[u8] = b"?";

// An entry of cutab that has no file.
const NO_FILE: u32 = u32::MAX;

// The bytes from an offset on.
pub(crate) fn behind(bytes: &[u8], at: usize) -> &[u8]
    ensures { result.now ≡ drop at bytes.now }
{
    if at <= bytes.len() {
        &bytes[at..]
    } else {
        &bytes[bytes.len()..]
    }
}

// The bytes before the first zero, if there is one.
fn before_zero(bytes: &[u8]) -> Option<&[u8]>
    ensures { option_copied result ≡ ended_by_zero bytes.now }
{
    match memchr(0, bytes) {
        Some(end) => Some(&bytes[..end]),
        None => None,
    }
}

// The name, or what is shown where there is none.
pub(crate) fn or_question_mark(name: Option<&[u8]>) -> &[u8]
    ensures { result.now ≡ or_unknown (option_copied name.entry) }
{
    match name {
        Some(known) => known,
        None => UNKNOWN,
    }
}

// The name at an offset of funcnametab.
#[tactic(auto, unfolding(glk_frames::specs::Region::name_at))]
pub(crate) fn name_at(region: &[u8], offset: u32) -> Option<&[u8]>
    requires { IsRegion region.now }
    ensures { option_copied result ≡ name_of region.now offset }
{
    before_zero(behind(region, funcnametab(region) as usize + offset as usize))
}

// The bytes from an offset of pctab on; at offset 0 is the empty table.
#[tactic(auto, unfolding(glk_frames::specs::Region::table_at))]
pub(crate) fn table_at(region: &[u8], offset: u32) -> &[u8]
    requires { IsRegion region.now }
    ensures { result.now ≡ table_of region.now offset }
{
    if offset == 0 {
        &region[..0]
    } else {
        behind(region, pctab(region) as usize + offset as usize)
    }
}

// The value of a pc table at an offset: there is none below 0, nor from 2^32 on.
pub(crate) fn value_of(table: &[u8], off: i64) -> Option<i32>
    ensures { result ≡ value_in table.now off }
{
    ranges_decide_values();
    if off < 0 || off > u32::MAX as i64 {
        return None;
    }
    value_at(table, off as u32)
}

// The file at an offset of filetab.
fn file_named(region: &[u8], offset: u32) -> Option<&[u8]>
    requires { IsRegion region.now }
    ensures { option_copied result ≡ file_by region.now offset }
{
    if offset == NO_FILE {
        return None;
    }
    before_zero(behind(region, filetab(region) as usize + offset as usize))
}

// The file of an entry of cutab.
#[tactic(auto, unfolding(glk_frames::specs::Region::file_entry))]
fn file_entry(region: &[u8], k: usize) -> Option<&[u8]>
    requires region { IsRegion region.now }
    requires small { k < 2 ^ 33 }
    ensures { option_copied result ≡ entry_of region.now k }
{
    let offset = le32(region, cutab(region) as usize + 4 * k)?;
    file_named(region, offset)
}

// The file of a pc table's value, where the entries of the function's unit begin at an index.
pub(crate) fn file_at(region: &[u8], unit: u32, value: Option<i32>) -> Option<&[u8]>
    requires { IsRegion region.now }
    ensures { option_copied result ≡ file_of region.now unit value }
{
    let number = value?;
    if number < 0 {
        return None;
    }
    file_entry(region, unit as usize + number as usize)
}
