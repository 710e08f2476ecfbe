// The function at an offset of the text by findfunctab.
ghost use Rattle.std.specs.Prelude.{◌≡◌, ◌<◌, ◌^◌, IfSome};
ghost use Rattle.glk_elf.specs.ReaderSections.{loaded};
ghost use Rattle.glk_frames.specs.Region.{IsRegion, function_count as count_of, start_of as start_in};
ghost use Rattle.glk_frames.specs.Buckets.{begin_in as begin_of, from_begin, bucket_found as found_of};
ghost use Rattle.glk_frames_reader.specs.Parts.{IsInside};

use crate::memory::bytes_at;
use crate::record::{byte_at, word_at};
use crate::search::{forward, is_in_text, with_record};
use glk_elf::ElfView;

// A bucket is of this many bytes of text, and has one part for each so many.
const BUCKET_TEXT: u64 = 4096;

const PART_TEXT: u64 = 256;

// The size of a bucket, and where its parts are in it.
const BUCKET_SIZE: u64 = 20;

const PARTS: usize = 4;

// The index at which the search for an offset begins.
#[tactic(auto, unfolding(glk_frames::specs::Buckets::begin_in))]
fn begin_in(view: &ElfView<'_>, table: u64, off: u64) -> Option<u64>
    ensures { result ≡ begin_of (loaded view.now) table off }
{
    let place = table as u128 + BUCKET_SIZE as u128 * (off / BUCKET_TEXT) as u128;
    let bucket = bytes_at(view, place, BUCKET_SIZE)?;
    let part = (off % BUCKET_TEXT / PART_TEXT) as usize;
    Some(word_at(bucket, 0) as u64 + byte_at(bucket, PARTS + part) as u64)
}

// The first function from there on whose next one starts above the offset.
fn found_from(view: &ElfView<'_>, region: &[u8], table: u64, off: u64) -> Option<usize>
    requires { IsRegion region.now }
    ensures value { result
        ≡ from_begin (start_in region.now) off (count_of region.now) (begin_of (loaded view.now) table off) }
    ensures below { IfSome result (λ i. i < count_of region.now) }
{
    let begin = begin_in(view, table, off)?;
    forward(region, off, begin)
}

// The function at an offset of the text, by the buckets at an address.
#[tactic(auto, unfolding(glk_frames::specs::Buckets::bucket_found))]
pub(crate) fn bucket_found(view: &ElfView<'_>, region: &[u8], table: u64, off: u64) -> Option<usize>
    requires { IsRegion region.now }
    ensures value { result ≡ found_of region.now (loaded view.now) table off }
    ensures inside { IfSome result (λ i. IsInside region.now i) }
{
    if !is_in_text(region, off) {
        return None;
    }
    with_record(region, found_from(view, region, table, off))
}
