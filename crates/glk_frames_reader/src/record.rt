// The record of a function.
ghost use Rattle.std.specs.Prelude.{◌≡◌, ◌+◌, ◌*◌, ◌<◌, ◌≤◌, length, true, IfSome};
ghost use Rattle.glk_base.specs.Bytes.{number_at};
ghost use Rattle.glk_pcval.specs.Table.{value_of as value_in};
ghost use Rattle.glk_frames.specs.Region.{IsRegion, table_at as table_of, record_inside as is_record_inside, pcdata_count as pcdata_count_of, funcdata_count as funcdata_count_of, pcdata_in, funcdata_in};
ghost use Rattle.glk_frames.specs.Image.{inline_index as inline_index_of, file_in, line_in, name_in};

use crate::names::{file_at, name_at, or_question_mark, table_at, value_of};
use glk_base::le32;

// The size of a record without its pcdata and funcdata.
const RECORD_SIZE: usize = 44;

// Where it has its numbers.
const NAME: usize = 4;

const PCSP: usize = 16;

const PCFILE: usize = 20;

const PCLN: usize = 24;

const PCDATA_COUNT: usize = 28;

const UNIT: usize = 32;

const FUNCDATA_COUNT: usize = 43;

// The pcdata that is the inline index, and the funcdata that is the inline tree.
const INLINE_INDEX: usize = 2;

const INLINE_TREE: usize = 3;

// The funcdata of an empty place.
const NO_FUNCDATA: u32 = u32::MAX;

// The byte at an offset.
pub(crate) fn byte_at(bytes: &[u8], at: usize) -> u8
    requires { at < length bytes.now }
    ensures { result ≡ number_at 1 bytes.now at }
{
    bytes[at]
}

// The number in four bytes.
pub(crate) fn word_at(bytes: &[u8], at: usize) -> u32
    requires { at + 4 ≤ length bytes.now }
    ensures { result ≡ number_at 4 bytes.now at }
{
    le32(bytes, at).unwrap()
}

// Whether the record with its pcdata and funcdata is inside the region.
#[tactic(auto, unfolding(glk_frames::specs::Region::record_inside, glk_frames::specs::Region::pcdata_count, glk_frames::specs::Region::funcdata_count))]
pub(crate) fn record_inside(region: &[u8], at: usize) -> bool
    ensures { result ≡ is_record_inside region.now at }
{
    let length = region.len();
    if at > length || length - at < RECORD_SIZE {
        return false;
    }
    let pcdata = word_at(region, at + PCDATA_COUNT) as usize;
    let funcdata = byte_at(region, at + FUNCDATA_COUNT) as usize;
    4 * pcdata + 4 * funcdata <= length - at - RECORD_SIZE
}

// A number among the first 44 bytes.
#[tactic(auto, unfolding(glk_frames::specs::Region::record_inside))]
fn number_of(region: &[u8], at: usize, field: usize) -> u32
    requires inside { is_record_inside region.now at ≡ true }
    requires field { field ≤ 40 }
    ensures { result ≡ number_at 4 region.now (at + field) }
{
    word_at(region, at + field)
}

// How many pcdata there are.
#[tactic(auto, unfolding(glk_frames::specs::Region::record_inside, glk_frames::specs::Region::pcdata_count))]
fn pcdata_count(region: &[u8], at: usize) -> u32
    requires { is_record_inside region.now at ≡ true }
    ensures { result ≡ pcdata_count_of region.now at }
{
    word_at(region, at + PCDATA_COUNT)
}

// How many funcdata there are.
#[tactic(auto, unfolding(glk_frames::specs::Region::record_inside, glk_frames::specs::Region::funcdata_count))]
fn funcdata_count(region: &[u8], at: usize) -> u8
    requires { is_record_inside region.now at ≡ true }
    ensures { result ≡ funcdata_count_of region.now at }
{
    byte_at(region, at + FUNCDATA_COUNT)
}

// A pcdata.
#[tactic(auto, unfolding(glk_frames::specs::Region::record_inside, glk_frames::specs::Region::pcdata_in))]
fn pcdata(region: &[u8], at: usize, k: usize) -> u32
    requires inside { is_record_inside region.now at ≡ true }
    requires index { k < pcdata_count_of region.now at }
    ensures { result ≡ pcdata_in region.now at k }
{
    word_at(region, at + RECORD_SIZE + 4 * k)
}

// A funcdata.
#[tactic(auto, unfolding(glk_frames::specs::Region::record_inside, glk_frames::specs::Region::funcdata_in))]
fn funcdata(region: &[u8], at: usize, k: usize) -> u32
    requires inside { is_record_inside region.now at ≡ true }
    requires index { k < funcdata_count_of region.now at }
    ensures { result ≡ funcdata_in region.now at k }
{
    word_at(
        region,
        at + RECORD_SIZE + 4 * pcdata_count(region, at) as usize + 4 * k,
    )
}

// The inline tree, where there is one.
pub(crate) fn inline_tree(region: &[u8], at: usize) -> u32
    requires inside { is_record_inside region.now at ≡ true }
    requires index { 3 < funcdata_count_of region.now at }
    ensures { result ≡ funcdata_in region.now at 3 }
{
    funcdata(region, at, INLINE_TREE)
}

// The inline index at an offset: there is none without a tree.
#[tactic(auto, unfolding(glk_frames::specs::Image::inline_index))]
pub(crate) fn inline_index(region: &[u8], at: usize, off: i64) -> Option<i32>
    requires region { IsRegion region.now }
    requires inside { is_record_inside region.now at ≡ true }
    ensures value { result ≡ inline_index_of region.now at off }
    ensures tree { IfSome result (λ _. 3 < funcdata_count_of region.now at) }
{
    if pcdata_count(region, at) as usize <= INLINE_INDEX {
        return None;
    }
    if funcdata_count(region, at) as usize <= INLINE_TREE {
        return None;
    }
    if inline_tree(region, at) == NO_FUNCDATA {
        return None;
    }
    value_of(table_at(region, pcdata(region, at, INLINE_INDEX)), off)
}

// The value of a table of the record at an offset.
fn table_value(region: &[u8], at: usize, field: usize, off: i64) -> Option<i32>
    requires region { IsRegion region.now }
    requires inside { is_record_inside region.now at ≡ true }
    requires field { field ≤ 40 }
    ensures { result ≡ value_in (table_of region.now (number_at 4 region.now (at + field))) off }
{
    value_of(table_at(region, number_of(region, at, field)), off)
}

// The depth of the stack at an offset.
pub(crate) fn depth(region: &[u8], at: usize, off: i64) -> Option<i32>
    requires region { IsRegion region.now }
    requires inside { is_record_inside region.now at ≡ true }
    ensures { result ≡ value_in (table_of region.now (number_at 4 region.now (at + 16))) off }
{
    table_value(region, at, PCSP, off)
}

// The name of the function.
#[tactic(auto, unfolding(glk_frames::specs::Image::name_in))]
pub(crate) fn name(region: &[u8], at: usize) -> &[u8]
    requires region { IsRegion region.now }
    requires inside { is_record_inside region.now at ≡ true }
    ensures { result.now ≡ name_in region.now at }
{
    or_question_mark(name_at(region, number_of(region, at, NAME)))
}

// The file at an offset.
#[tactic(auto, unfolding(glk_frames::specs::Image::file_in))]
pub(crate) fn file(region: &[u8], at: usize, off: i64) -> &[u8]
    requires region { IsRegion region.now }
    requires inside { is_record_inside region.now at ≡ true }
    ensures { result.now ≡ file_in region.now at off }
{
    let number = table_value(region, at, PCFILE, off);
    or_question_mark(file_at(region, number_of(region, at, UNIT), number))
}

// The line at an offset.
#[tactic(auto, unfolding(glk_frames::specs::Image::line_in))]
pub(crate) fn line(region: &[u8], at: usize, off: i64) -> i32
    requires region { IsRegion region.now }
    requires inside { is_record_inside region.now at ≡ true }
    ensures { result ≡ line_in region.now at off }
{
    match table_value(region, at, PCLN, off) {
        Some(line) => line,
        None => 0,
    }
}
