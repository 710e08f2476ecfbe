// Contents at their addresses.
ghost use Rattle.std.specs.Prelude.{◌≡◌, ◌≤◌, ◌+◌, ◌-◌, ◌++◌, length, take, drop, replicate, All, IfOk};
ghost use Rattle.glk_image.specs.Contents.{HasRoom, IsWithin, with_contents, section_bytes as section_bytes_of};

use glk_base::OutOfMemory;
use std::alloc::Global;

/// What is at an address: data, and zeros after them up to the size.
#[derive(Clone, Copy, Debug)]
pub struct Content<'a> {
    /// Its address.
    pub at: u64,
    /// How many bytes it takes.
    pub size: u64,
    /// Its data, no longer than the size.
    pub bytes: &'a [u8],
}

// Writes bytes at an offset.
fn write_at(part: &mut [u8], at: usize, bytes: &[u8])
    requires { at + length bytes.now ≤ length part.old }
    ensures { part.new ≡ take at part.old ++ bytes.now ++ drop (at + length bytes.now) part.old }
{
    part[at..at + bytes.len()].copy_from_slice(bytes);
}

// Writes zeros at an offset.
fn clear(part: &mut [u8], at: usize, len: usize)
    requires { at + len ≤ length part.old }
    ensures { part.new ≡ take at part.old ++ replicate len 0 ++ drop (at + len) part.old }
{
    part[at..at + len].fill(0);
}

// Writes bytes at an offset, and zeros after them up to a size.
fn put(part: &mut [u8], at: usize, size: usize, bytes: &[u8])
    requires room { length bytes.now ≤ size }
    requires inside { at + size ≤ length part.old }
    ensures { part.new ≡ take at part.old ++ (bytes.now ++ replicate (size - length bytes.now) 0)
        ++ drop (at + size) part.old }
{
    write_at(part, at, bytes);
    clear(part, at + bytes.len(), size - bytes.len());
}

/// Writes contents, each at its address, into bytes that begin at the address `start`. Where no two
/// share a byte, their order is of no matter. Takes no memory, and touches each byte of the contents
/// once.
#[tactic(auto, unfolding(crate::specs::Contents::with_contents))]
pub fn put_contents(part: &mut [u8], start: u64, contents: &[Content<'_>])
    requires rooms { All HasRoom contents.now }
    requires inside { All (IsWithin start (start + length part.old)) contents.now }
    ensures { part.new ≡ with_contents start part.old contents.now }
{
    let mut rest = contents;
    while let [content, after @ ..] = rest {
        put(
            part,
            (content.at - start) as usize,
            content.size as usize,
            content.bytes,
        );
        rest = after;
    }
}

/// The bytes of a section of this address and size: the contents at their addresses, and the
/// padding byte everywhere else. One buffer of the section's size is taken.
pub fn section_bytes(
    alloc: Global,
    padding: u8,
    start: u64,
    size: usize,
    contents: &[Content<'_>],
) -> Result<Vec<u8>, OutOfMemory>
    requires rooms { All HasRoom contents.now }
    requires inside { All (IsWithin start (start + size)) contents.now }
    ensures { IfOk result (λ bytes. bytes.items ≡ section_bytes_of padding start size contents.now) }
{
    let mut bytes = vec![in alloc; padding; size]?;
    put_contents(&mut bytes, start, contents);
    Ok(bytes)
}
