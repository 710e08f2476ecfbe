// The members of an archive, one after another.
ghost use Rattle.std.specs.Prelude.{◌≡◌, ◌+◌, ◌%◌, ◌<◌, ◌≤◌, ◌^◌, IfOk, IfErr, min};
ghost use Rattle.glk_ar.specs.Archive.{HasMagic, no_magic, body_at};
ghost use Rattle.glk_ar.specs.Walks.{walk_from_start, entry_of};

use crate::headers::{HEADER_LENGTH, first_member};
use std::marker::Model;
use thiserror::Error;

/// What an archive begins with.
pub(crate) const MAGIC: &[u8; 8] = b"!<arch>\n";

// The number of the rule that the file begins with the magic.
const MAGIC_RULE: u8 = 1;

/// The first broken rule of an archive, and where it is broken.
#[derive(Clone, Copy, Debug, PartialEq, Eq, Error)]
#[error("no archive: rule A{rule} is broken at byte {offset}")]
pub struct ArBad {
    /// The rule's number, 1 to 6 for A1 to A6: the least of those that are broken at the first
    /// offset where there is no member.
    pub rule: u8,
    /// The offset in the file that the rule speaks of.
    pub offset: u64,
}

/// A member of an archive, borrowed from the file.
#[derive(Clone, Copy, Debug, PartialEq, Eq)]
pub struct Member<'a> {
    /// The name, without the spaces at its end.
    pub name: &'a [u8],
    /// The body, without padding.
    pub body: &'a [u8],
    /// The offset of the header in the file.
    pub at: u64,
}

impl<'a> Member<'a> {
    /// The offset of the body in the file.
    pub fn body_at(self) -> u64
        requires { body_at (entry_of self) < 2 ^ 64 }
        ensures { result ≡ body_at (entry_of self.entry) }
    {
        self.at + HEADER_LENGTH as u64
    }
}

/// The members of an archive, one after another, borrowed from the file: each as `Ok`, then, where
/// a rule is broken, the refusal, and nothing more. It takes no memory.
#[derive(Debug, Drop)]
pub struct MemberIter<'a> {
    bytes: &'a [u8],
    at: usize,
}

impl<'a> Model for MemberIter<'a> {
    ghost use Rattle.std.specs.Prelude.{◌≤◌, length};
    ghost use Rattle.glk_ar.specs.Walk.{Walk};

    ghost Value = { Walk };

    ghost view = { λ i. record { bytes = i.bytes.now; at = i.at } };

    ghost invariant = { λ i. i.at ≤ length i.bytes.now };
}

/// The members of these bytes. It takes no memory, and looks at the magic alone.
///
/// # Errors
/// Rule A1 exactly where they do not begin with the magic.
pub fn members(bytes: &[u8]) -> Result<MemberIter<'_>, ArBad>
    ensures magic { IfOk result (λ _. HasMagic bytes.now) }
    ensures start { IfOk result (λ walk. walk ≡ walk_from_start bytes.now) }
    ensures other { IfErr result (λ _. ¬ HasMagic bytes.now) }
    ensures err { IfErr result (λ bad. bad ≡ no_magic) }
{
    if bytes.starts_with(MAGIC) {
        Ok(MemberIter {
            bytes,
            at: MAGIC.len(),
        })
    } else {
        Err(ArBad {
            rule: MAGIC_RULE,
            offset: 0,
        })
    }
}

impl<'a> Iterator for MemberIter<'a> {
    type Item = Result<Member<'a>, ArBad>;

    ghost use Rattle.std.specs.Prelude.{◌-◌, length};
    ghost use Rattle.std.specs.Iterator.{at_most};
    ghost use Rattle.glk_ar.specs.Walks.{Steps};

    ghost next_gives = { Steps };

    ghost remaining = { λ walk. at_most (length walk.bytes - walk.at) };

    fn next(&mut self) -> Option<Result<Member<'a>, ArBad>> {
        let bytes = self.bytes;
        let at = self.at;
        if at == bytes.len() {
            return None;
        }
        match first_member(&bytes[at..]) {
            Ok(member) => {
                self.at = next_offset(at + HEADER_LENGTH + member.body.len(), bytes.len());
                Some(Ok(Member {
                    name: member.name,
                    body: member.body,
                    at: at as u64,
                }))
            }
            Err(rule) => {
                self.at = bytes.len();
                Some(Err(ArBad {
                    rule: rule.number(),
                    offset: at as u64 + rule.offset(),
                }))
            }
        }
    }
}

// Where the next header is: at an even offset, or at the end of the file.
fn next_offset(end: usize, length: usize) -> usize
    requires { end ≤ length }
    ensures { result ≡ min (end + end % 2) length }
{
    if end % 2 == 1 && end < length {
        end + 1
    } else {
        end
    }
}
