// The image of a link, in one buffer.
ghost use Rattle.std.specs.Prelude.{◌≡◌, ◌≤◌, ◌<◌, ◌^◌, length, map, All, IfOk};
ghost use Rattle.glk_elf.specs.Image.{image_base, elf_bytes};
ghost use Rattle.glk_elf.specs.Placing.{IsPlaced};
ghost use Rattle.glk_elf.specs.Views.{blank_view, frame_view};
ghost use Rattle.glk_reloc.specs.Fields.{IsSized, AreApart as FieldsAreApart};
ghost use Rattle.glk_image.specs.Contents.{HasRoom, AreApart, with_contents};
ghost use Rattle.glk_image.specs.Image.{AnswersFields, IsImageOf, IsPatchable, IsStored, piece_of};

use crate::contents::Content;
use crate::fill::fill_contents;
use glk_base::{Fault, OutOfMemory};
use glk_elf::{Frame, IMAGE_BASE, write_frame};
use glk_reloc::{FieldChunks, Overflow, patch_chunks};
use std::alloc::Global;
use std::thread::Threads;

// The image of a frame with contents in its sections.
fn stored_image<R: Threads + Sync>(
    rt: &R,
    alloc: Global,
    frame: &Frame<'_>,
    contents: &[Content<'_>],
    workers: u32,
) -> Result<Vec<u8>, OutOfMemory>
    requires placed { IsPlaced (blank_view frame.now) }
    requires rooms { All HasRoom contents.now }
    requires apart { AreApart contents.now }
    requires stored { All (IsStored (frame_view frame.now)) contents.now }
    ensures { IfOk result (λ image. image.items
        ≡ with_contents image_base (elf_bytes (blank_view frame.now)) contents.now) }
{
    let mut image = write_frame(alloc, frame)?;
    fill_contents(rt, &mut image, IMAGE_BASE, contents, workers);
    Ok(image)
}

/// The image with this frame, these contents at their addresses and these fields, by up to `workers`
/// threads; it is the same for every number of workers. One buffer of its exact size is taken;
/// headers, symbol rows and names, contents and fields are written at their places in it, and no
/// byte is moved again. Beside it one chunk of fields is held at a time.
///
/// # Errors
/// The first field that has no room for its value, which is the one of least offset: its index
/// among all fields, and the value. Out of memory.
pub fn write_image<R: Threads + Sync, C: FieldChunks>(
    rt: &R,
    alloc: Global,
    frame: &Frame<'_>,
    contents: &[Content<'_>],
    fields: &mut C,
    workers: u32,
) -> Result<Vec<u8>, Fault<Overflow>>
    requires placed { IsPlaced (blank_view frame.now) }
    requires rooms { All HasRoom contents.now }
    requires apart { AreApart contents.now }
    requires stored { All (IsStored (frame_view frame.now)) contents.now }
    requires few { length (C.fields fields.old) < 2 ^ 32 }
    requires sizes { All IsSized (C.fields fields.old) }
    requires fields_apart { FieldsAreApart (C.fields fields.old) }
    requires patchable { All (IsPatchable (frame_view frame.now)) (C.fields fields.old) }
    requires workers { (1 ≤ workers) × (workers ≤ 64) }
    ensures answer { AnswersFields (C.fields fields.old) result }
    ensures image { IfOk result (λ image. IsImageOf (frame_view frame.now) (map piece_of contents.now)
        (C.fields fields.old) image.items) }
{
    let mut image = stored_image(rt, alloc, frame, contents, workers)?;
    patch_chunks(rt, alloc, &mut image, fields, workers)?;
    Ok(image)
}
