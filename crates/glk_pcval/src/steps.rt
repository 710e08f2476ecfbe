// The ranges of a table, one after another, and the value at an offset.
ghost use Rattle.std.specs.Prelude.{◌≡◌, pos, MatchOption, [], ◌∷◌};
ghost use Rattle.std.specs.Iterator.{YieldsFirst, item_count};
ghost use Rattle.glk_pcval.specs.Table.{ranges, ranges_from, value_of};
ghost use Rattle.glk_pcval.specs.Steps.{ranges_left};

use crate::step::{Next, START, State, after, next_step};

/// The ranges of a table, each a value and the offset where it ends: all before the first end,
/// the first varint that breaks a rule, or the end of the bytes. It takes no memory.
#[derive(Debug, Drop)]
pub struct Steps<'a> {
    rest: &'a [u8],
    from: State,
}

impl<'a> Steps<'a> {
    /// The ranges of these bytes, whether they are a table or not.
    pub fn new(table: &'a [u8]) -> Steps<'a>
        ensures { ranges_left result ≡ ranges table.now }
    {
        Steps {
            rest: table,
            from: START,
        }
    }
}

impl<'a> Iterator for Steps<'a> {
    type Item = (i32, u32);

    ghost next_gives = { YieldsFirst ranges_left };

    ghost remaining = { item_count ranges_left };

    fn next(&mut self) -> Option<(i32, u32)> {
        let (state, rest) = first_range(self.from, self.rest)?;
        self.from = state;
        self.rest = rest;
        Some((state.value, state.end))
    }
}

// The range that the bytes of a table begin with, and the bytes after it.
fn first_range(from: State, bytes: &[u8]) -> Option<(State, &[u8])>
    ensures { MatchOption result (ranges_from 0 from bytes.now ≡ [])
        (λ found. ranges_from 0 from bytes.now
        ≡ (found.0.value, found.0.end) ∷ ranges_from 0 found.0 found.1.now) }
{
    match next_step(from, bytes) {
        Next::Range { state, size } => Some((state, after(bytes, size))),
        Next::Stop { size: _ } => None,
        Next::Broken { at: _ } => None,
    }
}

/// The value at an offset, in one pass up to it: that of the first range whose end lies past the
/// offset. The bytes may be a table, a table with more bytes after it, or any others; there is no
/// value from the last end on, nor from the first varint on that breaks a rule.
pub fn value_at(table: &[u8], off: u32) -> Option<i32>
    ensures { result ≡ value_of table.now (pos off) }
{
    for (value, end) in Steps::new(table) {
        if off < end {
            return Some(value);
        }
    }
    None
}
