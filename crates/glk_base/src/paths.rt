// Paths of packages as objects store them: as they are, or in an escaped spelling, which Go's
// `cmd/internal/objabi` makes for symbol names (`PathToPrefix`).
ghost use Rattle.std.specs.Prelude.{◌≡◌, ◌<◌, ◌≤◌, ◌↔◌, ◌++◌, List, ℕ, length, take, IfOk, IsTrue, MatchOption};
ghost use Rattle.glk_base.specs.Paths.{must_escape as must_escape_of, hex_digit as hex_digit_of, byte_spelling, last_part as last_part_of, escaped_spelling, IsSamePath};

use super::{OutOfMemory, Text};
use std::alloc::Global;

/// How a byte is spelled: by the first `len` of `bytes`.
#[derive(Clone, Copy)]
struct Spelled {
    bytes: [u8; 3],
    len: usize,
}

fn hex_digit(d: u8) -> u8
    requires { d < 16 }
    ensures { result ≡ hex_digit_of d }
{
    if d < 10 { b'0' + d } else { b'a' - 10 + d }
}

fn must_escape(in_last_part: bool, b: u8) -> bool
    ensures { result ≡ must_escape_of in_last_part b }
{
    b <= b' ' || b == b'%' || b == b'"' || b > b'~' || (in_last_part && b == b'.')
}

#[tactic(auto, unfolding(crate::specs::Paths::byte_spelling))]
fn spelling(in_last_part: bool, b: u8) -> Spelled
    ensures same { take result.len result.bytes ≡ byte_spelling in_last_part b }
    ensures len { result.len ≤ 3 }
    ensures long { length (byte_spelling in_last_part b) ≡ result.len }
{
    if must_escape(in_last_part, b) {
        return Spelled {
            bytes: [b'%', hex_digit(b / 16), hex_digit(b % 16)],
            len: 3,
        };
    }
    Spelled {
        bytes: [b, 0, 0],
        len: 1,
    }
}

/// The index after the last slash.
#[tactic(auto, unfolding(crate::specs::Paths::last_part))]
fn last_part(path: &[u8]) -> usize
    ensures { result ≡ last_part_of path.now }
{
    let mut n = path.len();
    while n > 0 && path[n - 1] != b'/' {
        n -= 1;
    }
    n
}

/// What follows the spelling of a byte, or none where these bytes do not begin with it.
fn behind_spelling(rest: &[u8], in_last_part: bool, b: u8) -> Option<&[u8]>
    ensures { MatchOption result ((more : List ℕ) → rest.now ≡ byte_spelling in_last_part b ++ more → ⊥)
        (λ after. rest.now ≡ byte_spelling in_last_part b ++ after.now) }
{
    let code = spelling(in_last_part, b);
    let front = &code.bytes[..code.len];
    if rest.starts_with(front) {
        Some(&rest[code.len..])
    } else {
        None
    }
}

fn is_escaped(stored: &[u8], path: &[u8]) -> bool
    ensures { IsTrue result ↔ (stored.now ≡ escaped_spelling path.now) }
{
    let base = last_part(path);
    let mut rest = stored;
    for (i, b) in path.iter().enumerate() {
        match behind_spelling(rest, i >= base, *b) {
            Some(after) => rest = after,
            None => return false,
        }
    }
    rest.is_empty()
}

/// Whether a stored path means this one: it is equal, or its escaped spelling. It takes no memory
/// and one pass.
pub fn same_path(stored: &[u8], path: &[u8]) -> bool
    ensures { IsTrue result ↔ IsSamePath stored.now path.now }
{
    if stored == path {
        return true;
    }
    is_escaped(stored, path)
}

/// The escaped spelling of a path: each byte up to a space, `%`, `"`, each from 0x7f on, and each
/// dot after the last slash as `%` and two lower-case hexadecimal digits.
pub fn escaped_path(alloc: Global, path: &[u8]) -> Result<Text, OutOfMemory>
    ensures { IfOk result (λ t. t ≡ escaped_spelling path.now) }
{
    Ok(Text::of(escape(alloc, path)?))
}

fn escape(alloc: Global, path: &[u8]) -> Result<Vec<u8>, OutOfMemory>
    ensures { IfOk result (λ out. out.items ≡ escaped_spelling path.now) }
{
    let base = last_part(path);
    let mut out = Vec::new(alloc);
    for (i, b) in path.iter().enumerate() {
        let code = spelling(i >= base, *b);
        out.extend_from_slice(&code.bytes[..code.len])?;
    }
    Ok(out)
}
