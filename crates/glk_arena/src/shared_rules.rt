// Whether objects that are found by themselves go with those of the packages before.
ghost use Rattle.std.specs.Prelude.{◌≡◌, IfSome, IsTrue, option_copied};
ghost use Rattle.glk_package.specs.HeaderRule.{header_view, Allows};
ghost use Rattle.glk_package.specs.WidthRule.{width_view, FitsWidth};
ghost use Rattle.glk_package.specs.ObjectRules.{rules_view};
ghost use Rattle.glk_arena.specs.Stored.{AreStored};
ghost use Rattle.glk_arena.specs.WaveFiles.{MeetsRules};

use crate::stored::{StoredObjects, first_hash_width};
use glk_package::{HeaderRule, ObjectRules, WidthRule};

// Whether a first line is allowed, where there is one.
fn allows_line(headers: HeaderRule<'_>, line: Option<&[u8]>) -> bool
    ensures { IsTrue result → IfSome (option_copied line.entry) (Allows (header_view headers.entry)) }
{
    match headers {
        HeaderRule::Any | HeaderRule::Uniform => true,
        HeaderRule::Exactly(first) => match line {
            Some(line) => line == first,
            None => true,
        },
    }
}

// Whether a first length of long hashes is allowed, where there is one.
fn allows_width(widths: WidthRule, width: Option<u32>) -> bool
    ensures { IsTrue result → FitsWidth (width_view widths) width }
{
    match widths {
        WidthRule::Any | WidthRule::Uniform => true,
        WidthRule::Exactly(first) => match width {
            Some(width) => width == first,
            None => true,
        },
    }
}

// Whether the first line and the first length of long hashes of the objects of a file are what the
// rules ask.
pub(crate) fn meets_rules(rules: ObjectRules<'_>, file: &[u8], found: &StoredObjects) -> bool
    requires { AreStored file.now found.now.list.items }
    ensures { IsTrue result → MeetsRules (rules_view rules.entry) file.now found.now }
{
    let line = found.line();
    let width = first_hash_width(file, &found.list);
    allows_line(rules.headers, line) && allows_width(rules.widths, width)
}
