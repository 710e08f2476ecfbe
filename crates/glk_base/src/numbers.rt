// Numbers in bytes, the lowest byte first.
ghost use Rattle.std.specs.Prelude.{◌≡◌, ◌≤◌, ◌+◌, length};
ghost use Rattle.std.specs.Option.{SomeIff};
ghost use Rattle.glk_base.specs.Bytes.{number_at};

use byteorder::{ByteOrder, LittleEndian};

/// The number in the two bytes from offset `at` on, or none exactly where the bytes end before.
#[tactic(auto, unfolding(crate::specs::Bytes::number_at))]
pub fn le16(b: &[u8], at: usize) -> Option<u16>
    ensures { SomeIff result (at + 2 ≤ length b.now) (number_at 2 b.now at) }
{
    if at > b.len() || b.len() - at < 2 {
        return None;
    }
    Some(LittleEndian::read_u16(&b[at..]))
}

/// The number in the four bytes from offset `at` on, or none exactly where the bytes end before.
#[tactic(auto, unfolding(crate::specs::Bytes::number_at))]
pub fn le32(b: &[u8], at: usize) -> Option<u32>
    ensures { SomeIff result (at + 4 ≤ length b.now) (number_at 4 b.now at) }
{
    if at > b.len() || b.len() - at < 4 {
        return None;
    }
    Some(LittleEndian::read_u32(&b[at..]))
}

/// The number in the eight bytes from offset `at` on, or none exactly where the bytes end before.
#[tactic(auto, unfolding(crate::specs::Bytes::number_at))]
pub fn le64(b: &[u8], at: usize) -> Option<u64>
    ensures { SomeIff result (at + 8 ≤ length b.now) (number_at 8 b.now at) }
{
    if at > b.len() || b.len() - at < 8 {
        return None;
    }
    Some(LittleEndian::read_u64(&b[at..]))
}
