// The fields of an image, written chunk after chunk.
ghost use Rattle.std.specs.Prelude.{◌≡◌, ◌≤◌, ◌<◌, ◌^◌, ◌++◌, List, [], length, All, OnOk};
ghost use Rattle.glk_reloc.specs.declared.fields.Field.{Field};
ghost use Rattle.glk_reloc.specs.Fields.{IsSized, IsWithin, AreApart};
ghost use Rattle.glk_reloc.specs.Patched.{IsPatched, SameOutside};
ghost use Rattle.glk_reloc.specs.Chunks.{AnswersFor};

use crate::fields::{Field, Overflow};
use crate::image::patch_all;
use glk_base::{Fault, OutOfMemory};
use std::alloc::Global;
use std::thread::Threads;

/// The fields of an image, by their offsets, made chunk after chunk: no list of all of them is held.
pub trait FieldChunks {
    ghost fields: { Self → List Field };

    /// Replaces what is in a buffer by the next fields, as many as it pleases; by none where none is
    /// left.
    ///
    /// # Errors
    /// Out of memory: the buffer holds anything.
    fn next_chunk(&mut self, chunk: &mut Vec<Field>) -> Result<(), OutOfMemory>
        ensures next { OnOk result (fields self.old ≡ chunk.new.items ++ fields self.new) }
        ensures last { OnOk result (chunk.new.items ≡ [] → fields self.new ≡ []) };
}

/// Writes the values of all fields of an image, chunk after chunk, each by up to `workers` threads.
/// One chunk is held at a time, and no byte of the image is moved. Where a field has no room for its
/// value, the first such field of all is named, which is the one of least offset; others may then be
/// written already.
///
/// # Errors
/// The first overflow, its index counted from the first field of the first chunk. Out of memory.
pub fn patch_chunks<R: Threads + Sync, C: FieldChunks>(
    rt: &R,
    alloc: Global,
    image: &mut [u8],
    chunks: &mut C,
    workers: u32,
) -> Result<(), Fault<Overflow>>
    requires few { length (C.fields chunks.old) < 2 ^ 32 }
    requires sizes { All IsSized (C.fields chunks.old) }
    requires apart { AreApart (C.fields chunks.old) }
    requires inside { All (IsWithin 0 (length image.old)) (C.fields chunks.old) }
    requires workers { (1 ≤ workers) × (workers ≤ 64) }
    ensures answer { AnswersFor (C.fields chunks.old) result }
    ensures patched { OnOk result (IsPatched 0 image.old image.new (C.fields chunks.old)) }
    ensures outside { SameOutside 0 image.old image.new (C.fields chunks.old) }
{
    let mut chunk = Vec::new(alloc);
    let mut count = 0u32;
    loop {
        chunks.next_chunk(&mut chunk)?;
        if chunk.is_empty() {
            return Ok(());
        }
        if let Err(overflow) = patch_all(rt, image, &chunk, workers) {
            return Err(Fault::Bad(Overflow {
                index: count + overflow.index,
                ..overflow
            }));
        }
        count += chunk.len() as u32;
    }
}
