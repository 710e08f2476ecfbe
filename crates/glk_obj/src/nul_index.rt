// The zero bytes of an object, found once: a table of the next zero byte from the start of each of its
// chunks on. So a string is searched in one chunk at most, however many records name it.
ghost use Rattle.std.specs.Prelude.{◌≡◌, ◌*◌, ◌<◌, ◌≤◌, ◌↔◌, ℕ, length, IsTrue};
ghost use Rattle.glk_obj.specs.NulIndex.{HasNul, IsFirstNul, IsNulIndex};

use memchr::memchr;

// The least width of a chunk.
const LEAST_WIDTH: usize = 64;

/// The width of the chunks of an object of `length` bytes, which are to be `chunks` at most.
pub(crate) fn chunk_width(length: usize, chunks: usize) -> usize
    requires { 0 < chunks }
    ensures positive { 0 < result }
    ensures enough { length ≤ chunks * result }
{
    length.div_ceil(chunks).max(LEAST_WIDTH)
}

// The first zero byte from `from` to before `to`.
fn first_nul(bytes: &[u8], from: usize, to: usize) -> Option<usize>
    requires order { from ≤ to }
    requires inside { to ≤ length bytes.now }
    ensures { IsFirstNul bytes.now from to result }
{
    let offset = memchr(0, &bytes[from..to])?;
    Some(from + offset)
}

/// The next zero byte from the start of each chunk on is put into the chunk's entry of the table.
pub(crate) fn fill_nul_index(bytes: &[u8], width: usize, table: &mut [usize])
    requires positive { 0 < width }
    requires whole { length bytes.now ≤ length table.old * width }
    ensures { IsNulIndex bytes.now width table.new }
{
    let mut end = bytes.len();
    let mut next = bytes.len();
    while 0 < end {
        let chunk = (end - 1) / width;
        let start = chunk * width;
        if let Some(offset) = first_nul(bytes, start, end) {
            next = offset;
        }
        table[chunk] = next;
        end = start;
    }
}

/// Whether there is a zero byte from `from` to before `to`.
pub(crate) fn has_nul(bytes: &[u8], from: usize, to: usize, width: usize, table: &[usize]) -> bool
    requires order { from ≤ to }
    requires inside { to ≤ length bytes.now }
    requires table { IsNulIndex bytes.now width table.now }
    ensures { IsTrue result ↔ HasNul bytes.now from to }
{
    // what of the chunk follows `from`
    let rest = width - from % width;
    if to - from <= rest {
        return first_nul(bytes, from, to).is_some();
    }
    first_nul(bytes, from, from + rest).is_some() || table[from / width + 1] < to
}
