// What the objects of a file have to have in common.
ghost use Rattle.std.specs.Prelude.{◌≡◌, ◌↔◌, [], ◌∷◌, Option, IfOk, IsTrue, MatchOption};
ghost use Rattle.glk_obj.specs.Records.{hash_width};
ghost use Rattle.glk_package.specs.declared.refusal.PackageBad.TheVariants as bad;
ghost use Rattle.glk_package.specs.HeaderRule.{header_view, header_after as line_after, Allows, IsMismatch};
ghost use Rattle.glk_package.specs.WidthRule.{width_view, width_after as length_after, FitsWidth};
ghost use Rattle.glk_package.specs.ObjectRules.{rules_view, rules_after as after_rules, any_rules, uniform_rules};

use crate::object_entry::ObjectEntry;
use crate::refusal::PackageBad;
use glk_base::{OutOfMemory, Text};
use std::alloc::Global;

/// Which lines the objects of a file may have.
#[derive(Clone, Copy, Debug)]
pub enum HeaderRule<'a> {
    /// Any: each object stands for itself.
    Any,
    /// All the same one: that of the first object.
    Uniform,
    /// This one.
    Exactly(&'a [u8]),
}

/// Which length the long hashes of the objects of a file may have. An object without such hashes
/// goes with each.
#[derive(Clone, Copy, Debug)]
pub enum WidthRule {
    /// Any: each object stands for itself.
    Any,
    /// All the same one: that of the first object that has long hashes.
    Uniform,
    /// This one, in bytes.
    Exactly(u32),
}

/// What the objects of a file have to have in common.
#[derive(Clone, Copy, Debug)]
pub struct ObjectRules<'a> {
    /// Their lines.
    pub headers: HeaderRule<'a>,
    /// The length of their long hashes.
    pub widths: WidthRule,
}

impl<'a> ObjectRules<'a> {
    /// Nothing: each object stands for itself.
    pub fn any() -> ObjectRules<'a>
        ensures { rules_view result ≡ any_rules }
    {
        ObjectRules {
            headers: HeaderRule::Any,
            widths: WidthRule::Any,
        }
    }

    /// One line, and one length of long hashes.
    pub fn uniform() -> ObjectRules<'a>
        ensures { rules_view result ≡ uniform_rules }
    {
        ObjectRules {
            headers: HeaderRule::Uniform,
            widths: WidthRule::Uniform,
        }
    }
}

// The line that is asked in place of this one; nothing where this one is allowed.
pub(crate) fn mismatch<'a>(headers: HeaderRule<'a>, line: &[u8]) -> Option<&'a [u8]>
    ensures { MatchOption result (Allows (header_view headers.entry) line.now)
        (λ first. IsMismatch (header_view headers.entry) first.now line.now) }
{
    match headers {
        HeaderRule::Any | HeaderRule::Uniform => None,
        HeaderRule::Exactly(first) => { if line == first { None } else { Some(first) } }
    }
}

// The refusal of an object with this line, where the first is asked.
pub(crate) fn other_line(
    alloc: Global,
    member: u32,
    first: &[u8],
    here: &[u8],
) -> Result<PackageBad, OutOfMemory>
    ensures { IfOk result (λ broken. broken ≡ bad.HeaderMismatch member first.now here.now) }
{
    let first = Text::new(alloc, first)?;
    let here = Text::new(alloc, here)?;
    Ok(PackageBad::HeaderMismatch {
        member,
        first,
        here,
    })
}

// Whether an object may have long hashes of this length, or none.
pub(crate) fn fits_width(widths: WidthRule, width: Option<u32>) -> bool
    ensures { IsTrue result ↔ FitsWidth (width_view widths) width }
{
    match widths {
        WidthRule::Any | WidthRule::Uniform => true,
        WidthRule::Exactly(first) => match width {
            Some(width) => width == first,
            None => true,
        },
    }
}

// The rule for the lines of the objects after this one.
fn header_after<'b, 'a: 'b>(headers: HeaderRule<'b>, object: &ObjectEntry<'a>) -> HeaderRule<'b>
    ensures { header_view result ≡ line_after (header_view headers.entry) (object.now ∷ []) }
{
    match headers {
        HeaderRule::Uniform => HeaderRule::Exactly(object.line()),
        HeaderRule::Any | HeaderRule::Exactly(_) => headers,
    }
}

// The rule for the long hashes of the objects after this one.
fn width_after(widths: WidthRule, object: &ObjectEntry<'_>) -> WidthRule
    ensures { width_view result ≡ length_after (width_view widths) (object.now ∷ []) }
{
    match widths {
        WidthRule::Uniform => match object.view().hash_width() {
            Some(width) => WidthRule::Exactly(width),
            None => WidthRule::Uniform,
        },
        WidthRule::Any | WidthRule::Exactly(_) => widths,
    }
}

// The rules for the objects after this one.
pub(crate) fn rules_after<'b, 'a: 'b>(
    rules: ObjectRules<'b>,
    object: &ObjectEntry<'a>,
) -> ObjectRules<'b>
    ensures { rules_view result ≡ after_rules (rules_view rules.entry) (object.now ∷ []) }
{
    ObjectRules {
        headers: header_after(rules.headers, object),
        widths: width_after(rules.widths, object),
    }
}
