// One step of a table: a change of the value, and how far the new value reaches.
ghost use Rattle.std.specs.Prelude.{◌≡◌, ◌<◌, ◌≤◌, length, drop};
ghost use Rattle.glk_pcval.specs.Step.{next_of, zigzag, IsInside, next_value, next_end, ends_table};

use glk_base::read_varint;

// The longest varint of a table, in bytes.
pub(crate) const LONGEST_VARINT: u32 = 5;

// The number of a varint is below this.
const NUMBER_LIMIT: u64 = 1 << 32;

// How far a table has been read: the last range, and whether none has been read yet.
#[derive(Clone, Copy, Debug)]
pub(crate) struct State {
    pub(crate) first: bool,
    // the value of the last range
    pub(crate) value: i32,
    // the offset where the last range ends, and the next begins
    pub(crate) end: u32,
}

// What some bytes of a table begin with.
#[derive(Clone, Copy, Debug)]
pub(crate) enum Next {
    // the end, of this many bytes
    Stop { size: usize },
    // a varint that breaks a rule, at this offset
    Broken { at: usize },
    // a range, of this many bytes, and how far the table has been read with it
    Range { state: State, size: usize },
}

// Where a table starts: with the value -1 at offset 0.
pub(crate) const START: State = State {
    first: true,
    value: -1,
    end: 0,
};

// The change that a number stands for: even numbers are 0, 1, 2 .., odd ones -1, -2 ..
#[tactic(auto, unfolding(crate::specs::Step::zigzag))]
fn change_of(number: u32) -> i32
    ensures { result ≡ zigzag number }
{
    let half = (number / 2) as i32;
    if number % 2 == 0 { half } else { -half - 1 }
}

// The next value, or none where it is no `i32`.
#[tactic(auto, unfolding(crate::specs::Step::fits_i32, crate::specs::Step::next_value))]
fn value_after(value: i32, number: u32) -> Option<i32>
    ensures { result ≡ next_value value number }
{
    let next = value as i64 + change_of(number) as i64;
    if next < i32::MIN as i64 || next > i32::MAX as i64 {
        return None;
    }
    Some(next as i32)
}

// The next end, or none where it is no `u32`.
#[tactic(auto, unfolding(crate::specs::Step::next_end))]
fn end_after(end: u32, width: u32) -> Option<u32>
    ensures { result ≡ next_end end width }
{
    end.checked_add(width)
}

// Whether a change ends the table: a change of 0, but the first.
#[tactic(auto, unfolding(crate::specs::Step::ends_table))]
fn is_end(first: bool, number: u32) -> bool
    ensures { result ≡ ends_table first number }
{
    number == 0 && !first
}

// The bytes after the first `size`.
pub(crate) fn after(bytes: &[u8], size: usize) -> &[u8]
    requires { size ≤ length bytes.now }
    ensures { result.now ≡ drop size bytes.now }
{
    &bytes[size..]
}

// What the bytes of a table that has been read so far begin with.
#[tactic(auto, unfolding(crate::specs::Step::next_of))]
pub(crate) fn next_step(from: State, bytes: &[u8]) -> Next
    ensures value { result ≡ next_of from bytes.now }
    ensures inside { IsInside (length bytes.now) result }
{
    let Some(change) = read_varint(bytes, LONGEST_VARINT, NUMBER_LIMIT) else {
        return Next::Broken { at: 0 };
    };
    if is_end(from.first, change.value as u32) {
        return Next::Stop { size: change.size };
    }
    let Some(value) = value_after(from.value, change.value as u32) else {
        return Next::Broken { at: 0 };
    };
    let rest = after(bytes, change.size);
    let Some(width) = read_varint(rest, LONGEST_VARINT, NUMBER_LIMIT) else {
        return Next::Broken { at: change.size };
    };
    let Some(end) = end_after(from.end, width.value as u32) else {
        return Next::Broken { at: change.size };
    };
    Next::Range {
        state: State {
            first: false,
            value,
            end,
        },
        size: change.size + width.size,
    }
}
