// Findfunctab, the table that says where a search for a function begins, written.
ghost use Rattle.std.specs.Prelude.{◌≡◌, ◌++◌, ◌+◌, ◌^◌, ◌<◌, ◌≤◌, OnOk, IfOk, ℕ, List, length};
ghost use Rattle.glk_frames.specs.Buckets.{AreApart, index_at, parts, bucket_bytes, buckets_from, findfunctab};
ghost use Rattle.glk_pctab.specs.Views.{start_by};

use glk_base::{Field, OutOfMemory, push_fields};

// The index at an offset, from one that is not above it.
fn index_from(starts: &[u32], from: usize, off: u64) -> usize
    requires apart { AreApart (start_by starts.now) (length starts.now) }
    requires inside { from < length starts.now }
    requires low { start_by starts.now from ≤ off }
    ensures value { result ≡ index_at (start_by starts.now) (length starts.now) off }
    ensures inside { result < length starts.now }
    ensures low { start_by starts.now result ≤ off }
{
    let mut index = from;
    while index + 1 < starts.len() && u64::from(starts[index + 1]) <= off {
        index += 1;
    }
    index
}

// Adds the sixteen parts of a bucket, and answers the index at the last of them.
fn push_parts(
    out: &mut Vec<u8>,
    starts: &[u32],
    first: usize,
    off: u64,
) -> Result<usize, OutOfMemory>
    requires apart { AreApart (start_by starts.now) (length starts.now) }
    requires inside { first < length starts.now }
    requires low { start_by starts.now first ≤ off }
    requires value { first ≡ index_at (start_by starts.now) (length starts.now) off }
    requires small { off < 2 ^ 33 }
    ensures bytes { IfOk result (λ last. out.new.items
        ≡ out.old.items ++ parts (index_at (start_by starts.now) (length starts.now)) first off 16) }
    ensures inside { IfOk result (λ last. last < length starts.now) }
    ensures low { IfOk result (λ last. start_by starts.now last ≤ off + 4096) }
{
    let mut index = first;
    for k in 0..16u64 {
        index = index_from(starts, index, off + 256 * k);
        push_fields(out, &[Field::Byte((index - first) as u8)])?;
    }
    Ok(index)
}

// Adds the bucket at an offset, from an index that is not above its first, and answers the index at its end.
#[tactic(auto, unfolding(glk_frames::specs::Buckets::bucket_bytes))]
fn push_bucket(
    out: &mut Vec<u8>,
    starts: &[u32],
    from: usize,
    off: u64,
) -> Result<usize, OutOfMemory>
    requires few { length starts.now < 2 ^ 32 }
    requires apart { AreApart (start_by starts.now) (length starts.now) }
    requires inside { from < length starts.now }
    requires low { start_by starts.now from ≤ off }
    requires small { off < 2 ^ 33 }
    ensures bytes { IfOk result (λ last. out.new.items
        ≡ out.old.items ++ bucket_bytes (index_at (start_by starts.now) (length starts.now)) off) }
    ensures inside { IfOk result (λ last. last < length starts.now) }
    ensures low { IfOk result (λ last. start_by starts.now last ≤ off + 4096) }
{
    let first = index_from(starts, from, off);
    push_fields(out, &[Field::U32(first as u32)])?;
    push_parts(out, starts, first, off)
}

// Adds so many buckets, from the start of the text on.
fn push_buckets(out: &mut Vec<u8>, starts: &[u32], count: u64) -> Result<(), OutOfMemory>
    requires few { length starts.now < 2 ^ 32 }
    requires apart { AreApart (start_by starts.now) (length starts.now) }
    requires inside { 0 < length starts.now }
    requires low { start_by starts.now 0 ≡ 0 }
    requires small { count < 2 ^ 21 }
    ensures { OnOk result (out.new.items
        ≡ out.old.items ++ buckets_from (index_at (start_by starts.now) (length starts.now)) 0 count) }
{
    let mut index = 0;
    for bucket in 0..count {
        index = push_bucket(out, starts, index, 4096 * bucket)?;
    }
    Ok(())
}

/// Adds findfunctab at the end, for functions that start at these offsets of a text of this size: twenty
/// bytes for each 4096 of it. It takes one pass over functions and text.
///
/// # Errors
/// Out of memory: some of the new bytes may have been added.
#[tactic(auto, unfolding(glk_frames::specs::Buckets::findfunctab))]
pub fn push_findfunctab(out: &mut Vec<u8>, starts: &[u32], size: u32) -> Result<(), OutOfMemory>
    requires few { length starts.now < 2 ^ 32 }
    requires apart { AreApart (start_by starts.now) (length starts.now) }
    requires inside { 0 < length starts.now }
    requires first { start_by starts.now 0 ≡ 0 }
    ensures { OnOk result (out.new.items
        ≡ out.old.items ++ findfunctab (start_by starts.now) (length starts.now) size) }
{
    push_buckets(out, starts, (u64::from(size) + 4095) / 4096)
}
