// The object in a member of an archive, or in a bare file.
ghost use Rattle.std.specs.Prelude.{◌≡◌, ◌==◌, ◌+◌, ◌≤◌, ◌↔◌, ℕ, length, take, drop, IfOk, IsErrOf, MatchOption};
ghost use Rattle.std.specs.List.{before_first};
ghost use Rattle.glk_ar.specs.Part.{newline, mark, HasLineStart, IsFirstMark, HasNoMark, HoldsPart};
ghost use Rattle.glk_ar.specs.Parts.{part_of};

// How the line of an object for this platform begins, as Go's `cmd/internal/archive` writes it.
const LINE_START: &[u8; 22] = b"go object linux amd64 ";

/// What separates an object's lines and its data.
pub(crate) const MARK: &[u8; 3] = b"\n!\n";

/// The number of the rule that an object's data come after a mark.
pub const MARK_RULE: u8 = 7;

/// Why a body holds no object.
#[derive(Clone, Copy, Debug, PartialEq, Eq)]
pub enum PartBad {
    /// It does not begin as an object for this platform does.
    NotGo,
    /// Rule A7 (`MARK_RULE`): it does, and has no newline, `!`, newline.
    NoMark,
}

/// An object in a body, borrowed from it.
#[derive(Clone, Copy, Debug, PartialEq, Eq)]
pub struct ObjectPart<'a> {
    /// The body up to its first newline.
    pub line: &'a [u8],
    /// The object's data: what comes after the first mark.
    pub goobj: &'a [u8],
    /// The offset of the data in the body.
    pub at: u64,
}

// The offset of the first mark.
fn first_mark(body: &[u8]) -> Option<usize>
    ensures { MatchOption result (HasNoMark body.now)
        (λ i. IsFirstMark body.now i × (i + length mark ≤ length body.now)) }
{
    for i in 0..body.len() {
        if body[i..].starts_with(MARK) {
            return Some(i);
        }
    }
    None
}

// The bytes up to the first newline; all of them where there is none.
fn first_line(body: &[u8]) -> &[u8]
    ensures { result.now ≡ before_first (λ x. x == newline) body.now }
{
    for (i, b) in body.iter().enumerate() {
        if *b == b'\n' {
            return &body[..i];
        }
    }
    body
}

/// The object in the body of a member, or in a bare file. It takes no memory, and one pass up to
/// the mark.
///
/// # Errors
/// `NotGo` exactly where the body does not begin as an object for this platform does, else `NoMark`
/// exactly where it has no mark.
pub fn object_part(body: &[u8]) -> Result<ObjectPart<'_>, PartBad>
    ensures part { IfOk result (λ part. HoldsPart body.now (part_of part)) }
    ensures not_go { IsErrOf result PartBad.NotGo ↔ (¬ HasLineStart body.now) }
    ensures no_mark { IsErrOf result PartBad.NoMark ↔ (HasLineStart body.now × HasNoMark body.now) }
{
    if !body.starts_with(LINE_START) {
        return Err(PartBad::NotGo);
    }
    let Some(mark) = first_mark(body) else {
        return Err(PartBad::NoMark);
    };
    let at = mark + MARK.len();
    Ok(ObjectPart {
        line: first_line(body),
        goobj: &body[at..],
        at: at as u64,
    })
}
