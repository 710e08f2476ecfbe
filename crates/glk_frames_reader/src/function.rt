// A function of an image.
ghost use Rattle.std.specs.Prelude.{◌≡◌, ◌+◌, ◌<◌, ◌^◌, ◌-◌, min, pos, ◌-ℤ◌};
ghost use Rattle.glk_frames.specs.Region.{text_start as text_start_of, start_of as start_in};
ghost use Rattle.glk_frames_reader.specs.Found.{function_of, function_name, entry_address, offset_in, depth_at, frames_at};
ghost use Rattle.glk_frames_reader.specs.Parts.{IsInside, SameValues, HasFunction};

use crate::frames::Frames;
use crate::module::Module;
use crate::record::{depth, name};
use crate::region::{record_offset, start_of, text_start};
use glk_pcval::ranges_decide_values;
use std::marker::Model;

/// A function of an image. Contracts see it as the image and its index in functab.
#[derive(Drop)]
pub struct Func<'a> {
    image: &'a Module<'a>,
    region: &'a [u8],
    index: usize,
    // where its record is in the region
    at: usize,
}

impl<'a> Model for Func<'a> {
    ghost use Rattle.glk_frames_reader.specs.Found.{Function};
    ghost use Rattle.glk_frames_reader.specs.Parts.{HasFunction};

    ghost Value = { Function };

    ghost view = { λ f. record { image = f.image.now; index = f.index } };

    ghost invariant = { λ f. HasFunction f.image.now f.region.now f.index f.at };
}

// How far an address is behind the start of a function, whose offset in the text is given; -1 stands
// for all distances at which no table has a value.
fn offset_from(text: u64, start: u32, pc: u64) -> i64
    ensures { SameValues result (pos pc -ℤ pos (text + start)) }
{
    ranges_decide_values();
    let entry = text as u128 + start as u128;
    let address = pc as u128;
    if address < entry {
        return -1;
    }
    if address - entry > u32::MAX as u128 {
        return -1;
    }
    (address - entry) as i64
}

impl<'a> Func<'a> {
    // The function of this index.
    pub(crate) fn new(image: &'a Module<'a>, index: usize) -> Func<'a>
        requires { IsInside image.now.region index }
        ensures { result ≡ function_of image.now index }
    {
        let region = image.region();
        Func {
            image,
            region,
            index,
            at: record_offset(region, index),
        }
    }

    // How far an address is behind its start.
    #[tactic(auto, unfolding(crate::specs::Found::offset_in, crate::specs::Found::entry_address))]
    fn offset(&self, pc: u64) -> i64
        ensures { SameValues result (offset_in self.now pc) }
    {
        offset_from(
            text_start(self.region),
            start_of(self.region, self.index),
            pc,
        )
    }

    /// Its name, up to the first zero byte; `?` where the name is outside the region or has no end.
    #[tactic(auto, unfolding(crate::specs::Found::function_name))]
    pub fn name(&self) -> &'a [u8]
        ensures { result.now ≡ function_name self.now }
    {
        name(self.region, self.at)
    }

    /// Its address: its entry of functab behind the start of the text. Where that is past the last
    /// address, as it may be in a hostile image, the last address.
    #[tactic(auto, unfolding(crate::specs::Found::entry_address))]
    pub fn entry(&self) -> u64
        ensures { result ≡ min (entry_address self.now) (2 ^ 64 - 1) }
    {
        let start = start_of(self.region, self.index) as u64;
        text_start(self.region).saturating_add(start)
    }

    /// The depth of the stack at an address, if the function has one there.
    #[tactic(auto, unfolding(crate::specs::Found::depth_at, glk_frames::specs::Image::depth_in))]
    pub fn depth(&self, pc: u64) -> Option<i32>
        ensures { result ≡ depth_at self.now pc }
    {
        depth(self.region, self.at, self.offset(pc))
    }

    /// The frames at an address: for each inlined call there one, then the function's own. There are
    /// at most 65,536.
    pub fn frames(&self, pc: u64) -> Frames<'a>
        ensures { result ≡ frames_at self.now pc }
    {
        Frames::new(self.image, self.at, self.offset(pc))
    }
}
