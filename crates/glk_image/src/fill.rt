// Contents written by several threads, in parts that share no byte.
ghost use Rattle.std.specs.Prelude.{◌≡◌, ◌≤◌, ◌+◌, ◌-◌, ◌/◌, length, All};
ghost use Rattle.std.specs.Thread.{IsSync};
ghost use Rattle.glk_image.specs.Contents.{HasRoom, IsWithin, AreApart, with_contents};

use crate::contents::{Content, put_contents};
use std::thread::{Threads, join_mut};

// Both parts of a part, each by a thread with its share of the workers.
#[cycle(fill)]
fn fill_halves<R: Threads + Sync>(
    rt: &R,
    left: &mut [u8],
    start: u64,
    left_contents: &[Content<'_>],
    right: &mut [u8],
    middle: u64,
    right_contents: &[Content<'_>],
    workers: u32,
)
    requires workers { 2 ≤ workers }
    requires rooms { All HasRoom left_contents.now × All HasRoom right_contents.now }
    requires apart { AreApart left_contents.now × AreApart right_contents.now }
    requires left { All (IsWithin start (start + length left.old)) left_contents.now }
    requires right { All (IsWithin middle (middle + length right.old)) right_contents.now }
    ensures left { left.new ≡ with_contents start left.old left_contents.now }
    ensures right { right.new ≡ with_contents middle right.old right_contents.now }
{
    let _ = join_mut(
        rt,
        &mut || -> ()
            requires sync { IsSync R.row }
            requires rooms { All HasRoom left_contents.now }
            requires apart { AreApart left_contents.now }
            requires inside { All (IsWithin start (start + length left.now)) left_contents.now }
            ensures { left.exit.now ≡ with_contents start left.entry.now left_contents.entry.now }
        { fill_contents(rt, left, start, left_contents, workers - workers / 2) },
        &mut || -> ()
            requires sync { IsSync R.row }
            requires rooms { All HasRoom right_contents.now }
            requires apart { AreApart right_contents.now }
            requires inside { All (IsWithin middle (middle + length right.now)) right_contents.now }
            ensures { right.exit.now ≡ with_contents middle right.entry.now right_contents.entry.now }
        { fill_contents(rt, right, middle, right_contents, workers / 2) },
    );
}

/// Writes contents, each at its address, into bytes that begin at the address `start`, by up to
/// `workers` threads. The bytes are the same for every number of workers. Takes no memory, and
/// touches each byte of the contents once.
#[cycle(fill)]
pub fn fill_contents<R: Threads + Sync>(
    rt: &R,
    part: &mut [u8],
    start: u64,
    contents: &[Content<'_>],
    workers: u32,
)
    requires rooms { All HasRoom contents.now }
    requires apart { AreApart contents.now }
    requires inside { All (IsWithin start (start + length part.old)) contents.now }
    ensures { part.new ≡ with_contents start part.old contents.now }
{
    if workers < 2 || contents.len() < 2 {
        return put_contents(part, start, contents);
    }
    let half = contents.len() / 2;
    let (left_contents, right_contents) = contents.split_at(half);
    let middle = right_contents[0].at;
    let (left, right) = part.split_at_mut((middle - start) as usize);
    fill_halves(
        rt,
        left,
        start,
        left_contents,
        right,
        middle,
        right_contents,
        workers,
    );
}
