// Inline trees, written.
ghost use Rattle.std.specs.Prelude.{◌≡◌, ◌++◌, ◌<◌, ◌^◌, OnOk, map, ℕ, List, length};
ghost use Rattle.glk_base.specs.Fields.{fields_bytes};
ghost use Rattle.glk_frames.specs.Written.{tree_bytes, entry_fields};
ghost use Rattle.glk_pctab.specs.FirstUse.{concat_of};
ghost use Rattle.glk_pctab.specs.Section.{zero_byte, tree_entry_of, trees_of};
ghost use Rattle.glk_pctab.specs.Views.{call_view, calls_view, functions_view};

use crate::function::{Function, InlinedCall};
use crate::lists::name_offset;
use crate::pool::Pool;
use glk_base::{Field, OutOfMemory, push_fields};

// Adds the entry of an inlined call.
fn push_entry(
    out: &mut Vec<u8>,
    names: &Pool<'_>,
    call: &InlinedCall<'_>,
) -> Result<(), OutOfMemory>
    requires mark { names.now.mark ≡ zero_byte }
    requires short { length (concat_of zero_byte names.now.elements) < 2 ^ 32 }
    ensures { OnOk result (out.new.items
        ≡ out.old.items
        ++ fields_bytes (entry_fields (tree_entry_of names.now.elements (call_view call.now)))) }
{
    let name = name_offset(names, call.name);
    push_fields(
        out,
        &[
            Field::Byte(call.id),
            Field::Byte(0),
            Field::Byte(0),
            Field::Byte(0),
            Field::U32(name),
            Field::U32(call.parent.cast_unsigned()),
            Field::U32(call.start_line),
        ],
    )
}

// Adds the tree of a function, an entry for each of its inlined calls.
#[tactic(auto, unfolding(glk_frames::specs::Written::tree_bytes))]
fn push_tree(
    out: &mut Vec<u8>,
    names: &Pool<'_>,
    calls: &[InlinedCall<'_>],
) -> Result<(), OutOfMemory>
    requires mark { names.now.mark ≡ zero_byte }
    requires short { length (concat_of zero_byte names.now.elements) < 2 ^ 32 }
    ensures { OnOk result (out.new.items
        ≡ out.old.items ++ tree_bytes (map (tree_entry_of names.now.elements) (calls_view calls.now))) }
{
    let mut rest = calls;
    while let [first, after @ ..] = rest {
        push_entry(out, names, first)?;
        rest = after;
    }
    Ok(())
}

/// Adds the trees of functions, one after the other.
#[tactic(auto, unfolding(crate::specs::Section::trees_of))]
pub(crate) fn push_trees(
    out: &mut Vec<u8>,
    names: &Pool<'_>,
    functions: &[Function<'_>],
) -> Result<(), OutOfMemory>
    requires mark { names.now.mark ≡ zero_byte }
    requires short { length (concat_of zero_byte names.now.elements) < 2 ^ 32 }
    ensures { OnOk result (out.new.items
        ≡ out.old.items ++ trees_of names.now.elements (functions_view functions.now)) }
{
    let mut rest = functions;
    while let [first, after @ ..] = rest {
        push_tree(out, names, first.inlined)?;
        rest = after;
    }
    Ok(())
}
