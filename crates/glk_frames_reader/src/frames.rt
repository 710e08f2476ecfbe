// The frames at an offset of a function, one after the other.
ghost use Rattle.std.specs.Prelude.{◌≡◌, ◌+◌, ◌<◌, ◌^◌, true, Some};
ghost use Rattle.std.specs.Option.{option_map};
ghost use Rattle.std.specs.Iterator.{YieldsFirstBy, item_count};
ghost use Rattle.glk_frames.specs.Chain.{chain, most_frames};
ghost use Rattle.glk_frames.specs.Region.{IsRegion, record_inside as is_record_inside, funcdata_in};
ghost use Rattle.glk_frames.specs.Image.{node_at as node_of, inline_index as inline_index_of, frame_in, step_in};
ghost use Rattle.glk_elf.specs.ReaderSections.{loaded};
ghost use Rattle.glk_frames_reader.specs.Opening.{image_of};
ghost use Rattle.glk_frames_reader.specs.Parts.{HasRecord, IsFirstFrame};
ghost use Rattle.glk_frames_reader.specs.Views.{node_view, step_view};

use crate::module::Module;
use crate::names::{name_at, or_question_mark};
use crate::record::{file, inline_index, inline_tree, line, name, word_at};
use std::marker::Model;

// The greatest number of frames at an offset.
const MOST_FRAMES: u32 = 65536;

// The size of an entry of an inline tree, and where it has the offset of the name and that of the call.
const ENTRY_SIZE: u64 = 16;

const ENTRY_NAME: usize = 4;

const ENTRY_PARENT: usize = 8;

/// A function that is shown at an address, with the file and the line there.
#[derive(Clone, Copy, Debug)]
pub struct Frame<'a> {
    /// The function's name, `?` where the image has none.
    pub name: &'a [u8],
    /// The file, `?` where the image has none.
    pub file: &'a [u8],
    /// The line, 0 where the image has none.
    pub line: i32,
}

// An entry of an inline tree: the offset of the function's name, and that of the call in its caller.
#[derive(Clone, Copy)]
struct Node {
    name: u32,
    parent: i32,
}

// An entry of the tree at an address.
#[tactic(auto, unfolding(glk_frames::specs::Image::node_in))]
fn node_at(image: &Module<'_>, tree: u128, index: i32) -> Option<Node>
    requires { tree < 2 ^ 80 }
    ensures { option_map node_view result ≡ node_of (loaded image.now.file) tree (Some index) }
{
    if index < 0 {
        return None;
    }
    let entry = image.memory(tree + ENTRY_SIZE as u128 * index as u128, ENTRY_SIZE)?;
    Some(Node {
        name: word_at(entry, ENTRY_NAME),
        parent: word_at(entry, ENTRY_PARENT).cast_signed(),
    })
}

// The inlined call at an offset, if there is one.
fn inlined_call(image: &Module<'_>, region: &[u8], at: usize, off: i64) -> Option<Node>
    requires { HasRecord image.now region.now at }
    ensures { option_map node_view result
        ≡ node_of (loaded image.now.file) (image.now.base + funcdata_in region.now at 3)
        (inline_index_of region.now at off) }
{
    let index = inline_index(region, at, off)?;
    node_at(
        image,
        image.base() as u128 + inline_tree(region, at) as u128,
        index,
    )
}

// The frame of an inlined call, or of the function itself, and the offset of the next.
fn frame_of<'a>(
    region: &'a [u8],
    at: usize,
    off: i64,
    node: Option<Node>,
) -> (Frame<'a>, Option<i64>)
    requires region { IsRegion region.now }
    requires inside { is_record_inside region.now at ≡ true }
    ensures { step_view result ≡ frame_in region.now at off (option_map node_view node) }
{
    let file = file(region, at, off);
    let line = line(region, at, off);
    match node {
        Some(call) => {
            let name = or_question_mark(name_at(region, call.name));
            (Frame { name, file, line }, Some(call.parent as i64))
        }
        None => {
            let name = name(region, at);
            (Frame { name, file, line }, None)
        }
    }
}

// The frame at an offset, and the offset of the next.
#[tactic(auto, unfolding(glk_frames::specs::Image::step_in))]
fn step<'a>(image: &Module<'_>, region: &'a [u8], at: usize, off: i64) -> (Frame<'a>, Option<i64>)
    requires { HasRecord image.now region.now at }
    ensures { step_view result ≡ step_in (image_of image.now) at off }
{
    frame_of(region, at, off, inlined_call(image, region, at, off))
}

// The first of the frames from an offset on, of which at most so many come, and the offset of the next.
#[tactic(auto, unfolding(glk_frames::specs::Chain::chain))]
fn first<'a>(
    image: &Module<'_>,
    region: &'a [u8],
    at: usize,
    left: u32,
    next: Option<i64>,
) -> Option<(Frame<'a>, Option<i64>)>
    requires { HasRecord image.now region.now at }
    ensures { IsFirstFrame (step_in (image_of image.now) at) left next (option_map step_view result) }
{
    if left == 0 {
        return None;
    }
    let off = next?;
    Some(step(image, region, at, off))
}

/// The frames at an address, the innermost first. Contracts see them as the list of those to come.
#[derive(Drop)]
pub struct Frames<'a> {
    image: &'a Module<'a>,
    region: &'a [u8],
    // where the function's record is in the region
    at: usize,
    // the offset of the next frame
    next: Option<i64>,
    // how many may still come
    left: u32,
}

impl<'a> Model for Frames<'a> {
    ghost use Rattle.std.specs.Prelude.{List};
    ghost use Rattle.glk_frames.specs.Chain.{Frame as ShownFrame, chain};
    ghost use Rattle.glk_frames.specs.Image.{step_in};
    ghost use Rattle.glk_frames_reader.specs.Opening.{image_of};
    ghost use Rattle.glk_frames_reader.specs.Parts.{HasRecord};

    ghost Value = { List ShownFrame };

    ghost view = { λ f. chain (step_in (image_of f.image.now) f.at) f.left f.next };

    ghost invariant = { λ f. HasRecord f.image.now f.region.now f.at };
}

impl<'a> Frames<'a> {
    // The frames from an offset of the function whose record is here.
    pub(crate) fn new(image: &'a Module<'a>, at: usize, off: i64) -> Frames<'a>
        requires { is_record_inside image.now.region at ≡ true }
        ensures { result ≡ chain (step_in (image_of image.now) at) most_frames (Some off) }
    {
        Frames {
            image,
            region: image.region(),
            at,
            next: Some(off),
            left: MOST_FRAMES,
        }
    }
}

impl<'a> Iterator for Frames<'a> {
    type Item = Frame<'a>;

    ghost use Rattle.glk_frames_reader.specs.Views.{frame_view};

    ghost next_gives = { YieldsFirstBy frame_view (λ frames. frames) };

    ghost remaining = { item_count (λ frames. frames) };

    fn next(&mut self) -> Option<Frame<'a>> {
        let (frame, next) = first(self.image, self.region, self.at, self.left, self.next)?;
        self.next = next;
        self.left -= 1;
        Some(frame)
    }
}
