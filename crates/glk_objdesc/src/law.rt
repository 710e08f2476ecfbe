// What canonical objects say.
ghost use Rattle.std.specs.Prelude.{◌≡◌, ◌≤◌, length};
ghost use Rattle.glk_objdesc.specs.Printable.{IsPrintable};
ghost use Rattle.glk_objdesc.specs.Canonical.{object_bytes, object_limit};
ghost use Rattle.glk_objdesc.specs.Described.{description_of};

use crate::desc::ObjDesc;
use crate::typed::see_types;

/// A printable description that is written is described as itself, where its canonical bytes are
/// within the limit. This is a law: the call changes nothing, and takes one pass over the
/// description, by which a proof sees that its numbers are within their types.
pub fn written_is_described(d: &ObjDesc)
    requires printable { IsPrintable d.now }
    requires small { length (object_bytes d.now) ≤ object_limit }
    ensures { description_of (object_bytes d.now) ≡ d.now }
{
    see_types(d);
}
