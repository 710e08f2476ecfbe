// The function at an offset of the text.
ghost use Rattle.std.specs.Prelude.{◌≡◌, ◌+◌, ◌-◌, ◌<◌, ◌≤◌, ◌^◌, ℕ, length, IfSome, IsTrue, ◌↔◌};
ghost use Rattle.glk_frames.specs.Region.{IsRegion, function_count as count_of, start_of as start_in, last_below as last_of, with_record as with_record_of, found_in as found_of};
ghost use Rattle.std.specs.Bool.{OnTrue};
ghost use Rattle.glk_frames.specs.Buckets.{forward as forward_of, from_begin};
ghost use Rattle.glk_frames_reader.specs.Parts.{Rises, IsInside};

use crate::record::record_inside;
use crate::region::{function_count, record_offset, start_of};

// Whether no function starts before the one before it.
pub(crate) fn rises(region: &[u8]) -> bool
    requires { IsRegion region.now }
    ensures { OnTrue result (Rises region.now) }
{
    let count = function_count(region) as usize;
    for i in 1..count {
        if start_of(region, i) < start_of(region, i - 1) {
            return false;
        }
    }
    true
}

// The last function whose start is not above the offset, by halves.
fn last_by_halves(region: &[u8], off: u64) -> Option<usize>
    requires region { IsRegion region.now }
    requires rises { Rises region.now }
    ensures value { result ≡ last_of (start_in region.now) off (count_of region.now) }
    ensures below { IfSome result (λ i. i < count_of region.now) }
{
    let mut low = 0;
    let mut high = function_count(region) as usize;
    while low < high {
        let middle = low + (high - low) / 2;
        if start_of(region, middle) as u64 <= off {
            low = middle + 1;
        } else {
            high = middle;
        }
    }
    if low == 0 { None } else { Some(low - 1) }
}

// The same from the top, whatever the starts are.
fn last_from_top(region: &[u8], off: u64) -> Option<usize>
    requires { IsRegion region.now }
    ensures value { result ≡ last_of (start_in region.now) off (count_of region.now) }
    ensures below { IfSome result (λ i. i < count_of region.now) }
{
    let mut n = function_count(region) as usize;
    while n > 0 {
        if start_of(region, n - 1) as u64 <= off {
            return Some(n - 1);
        }
        n -= 1;
    }
    None
}

// The same, by halves where no function starts before the one before it.
fn last_below(region: &[u8], rising: bool, off: u64) -> Option<usize>
    requires region { IsRegion region.now }
    requires rises { OnTrue rising (Rises region.now) }
    ensures value { result ≡ last_of (start_in region.now) off (count_of region.now) }
    ensures below { IfSome result (λ i. i < count_of region.now) }
{
    if rising {
        last_by_halves(region, off)
    } else {
        last_from_top(region, off)
    }
}

// A function is found if its record is inside the region.
pub(crate) fn with_record(region: &[u8], found: Option<usize>) -> Option<usize>
    requires region { IsRegion region.now }
    requires below { IfSome found (λ i. i < count_of region.now) }
    ensures value { result ≡ with_record_of region.now found }
    ensures inside { IfSome result (λ i. IsInside region.now i) }
{
    let i = found?;
    if record_inside(region, record_offset(region, i)) {
        Some(i)
    } else {
        None
    }
}

// Whether the offset is below the last entry of functab.
pub(crate) fn is_in_text(region: &[u8], off: u64) -> bool
    requires { IsRegion region.now }
    ensures { IsTrue result ↔ (off < start_in region.now (count_of region.now)) }
{
    off < start_of(region, function_count(region) as usize) as u64
}

// The function at an offset of the text.
#[tactic(auto, unfolding(glk_frames::specs::Region::found_in))]
pub(crate) fn found_in(region: &[u8], rising: bool, off: u64) -> Option<usize>
    requires region { IsRegion region.now }
    requires rises { OnTrue rising (Rises region.now) }
    ensures value { result ≡ found_of region.now off }
    ensures inside { IfSome result (λ i. IsInside region.now i) }
{
    if !is_in_text(region, off) {
        return None;
    }
    with_record(region, last_below(region, rising, off))
}

// The first function from an index on whose next one starts above the offset.
pub(crate) fn forward(region: &[u8], off: u64, begin: u64) -> Option<usize>
    requires { IsRegion region.now }
    ensures value { result ≡ forward_of (start_in region.now) off (count_of region.now - begin) begin }
    ensures below { IfSome result (λ i. i < count_of region.now) }
{
    let count = function_count(region) as usize;
    for j in begin as usize..count {
        if off < start_of(region, j + 1) as u64 {
            return Some(j);
        }
    }
    None
}
