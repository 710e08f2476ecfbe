// The fields of a line.
ghost use Rattle.std.specs.Prelude.{◌≡◌, cond, length};
ghost use Rattle.glk_objtext.specs.Fields.{next_mode, is_between as between, fields, field_at, open_count};

/// Where reading is in a line: between fields, or in a field that began with no quote or whose
/// quote is closed, or in a quoted one, or there after a backslash.
#[derive(Clone, Copy, Debug)]
pub(crate) enum Mode {
    Between,
    Bare,
    Quoted,
    Escaped,
}

impl Mode {
    #[tactic(auto, unfolding(crate::specs::Fields::next_mode))]
    fn after(self, byte: u8) -> Mode
        ensures { result ≡ next_mode self byte }
    {
        match self {
            Mode::Between => match byte {
                b' ' => Mode::Between,
                b'"' => Mode::Quoted,
                _ => Mode::Bare,
            },
            Mode::Bare => match byte {
                b' ' => Mode::Between,
                _ => Mode::Bare,
            },
            Mode::Quoted => match byte {
                b'"' => Mode::Bare,
                b'\\' => Mode::Escaped,
                _ => Mode::Quoted,
            },
            Mode::Escaped => Mode::Quoted,
        }
    }

    fn is_between(self) -> bool
        ensures { result ≡ between self }
    {
        match self {
            Mode::Between => true,
            Mode::Bare | Mode::Quoted | Mode::Escaped => false,
        }
    }

    /// How many fields a byte ends that leads to the next mode: one or none.
    fn ended(self, next: Mode) -> usize
        ensures { result ≡ cond (between next) (open_count self) 0 }
    {
        if next.is_between() && !self.is_between() {
            1
        } else {
            0
        }
    }

    /// Where the field begins that the byte at `at` is in, given where the open field began.
    fn start(self, start: usize, at: usize) -> usize
        ensures { result ≡ cond (between self) at start }
    {
        if self.is_between() { at } else { start }
    }
}

/// How many fields a line has.
pub(crate) fn count_fields(line: &[u8]) -> usize
    ensures { result ≡ length (fields line.now) }
{
    let mut count = 0;
    let mut mode = Mode::Between;
    for b in line {
        let next = mode.after(*b);
        count += mode.ended(next);
        mode = next;
    }
    count + mode.ended(Mode::Between)
}

/// The field of this number, from 0, or nothing where the line has no such field.
pub(crate) fn nth_field(line: &[u8], n: usize) -> &[u8]
    ensures { result.now ≡ field_at (fields line.now) n }
{
    let mut before = n;
    let mut start = 0;
    let mut mode = Mode::Between;
    for (i, b) in line.iter().enumerate() {
        let next = mode.after(*b);
        let ended = mode.ended(next);
        if before < ended {
            return &line[start..i];
        }
        before -= ended;
        start = mode.start(start, i);
        mode = next;
    }
    if before < mode.ended(Mode::Between) {
        &line[start..]
    } else {
        &line[..0]
    }
}
