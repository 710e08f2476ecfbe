// Marks of the bytes of fields.
ghost use Rattle.std.specs.Prelude.{◌≤◌, ◌+◌, ◌↔◌, IsTrue, length};
ghost use Rattle.glk_link.specs.Built.{call_size};
ghost use Rattle.glk_link.specs.FieldMarks.{IsFieldMarked, MarksField};

/// The size of the field of a call in bytes.
pub(crate) const CALL_SIZE: usize = 4;

/// Whether one of the bytes of the field is marked.
pub(crate) fn is_marked(marks: &[bool], from: usize) -> bool
    requires { from + call_size ≤ length marks.now }
    ensures { IsTrue result ↔ IsFieldMarked marks.now from }
{
    for p in from..from + CALL_SIZE {
        if marks[p] {
            return true;
        }
    }
    false
}

/// Marks the bytes of the field.
pub(crate) fn mark(marks: &mut [bool], from: usize)
    requires { from + call_size ≤ length marks.old }
    ensures { MarksField marks.old marks.new from }
{
    for p in from..from + CALL_SIZE {
        marks[p] = true;
    }
}
