// The rules on a field that records of several blocks have.
ghost use Rattle.std.specs.Prelude.{◌≡◌, ◌≢◌, ◌+◌, ◌*◌, ◌<◌, ◌≤◌, ◌^◌, ◌↔◌, ℕ, List, length, IsTrue};
ghost use Rattle.glk_obj.specs.Blocks.{offset_of, width_of, count as count_of, hash, ref_name};
ghost use Rattle.glk_obj.specs.Fields.{HasField, shift_of, field_offset as field_offset_of, IsFieldOffset, FailsAt, FailsIn};
ghost use Rattle.glk_obj.specs.Layout.{HasLayout};
ghost use Rattle.glk_base.specs.Least.{LeastOf};

use crate::blocks::{Block, count_at, offset_at, width_at};

/// A field of records: a string that is named, or a symbol that is meant. Both take eight bytes.
#[derive(Clone, Copy, Debug)]
pub(crate) enum Field {
    Text,
    Target,
}

/// A test of the field at an offset. It may know something of the object.
pub(crate) trait FieldTest {
    ghost knows: { Self → List ℕ → Type 0 };

    ghost can: { List ℕ → ℕ → Type 0 };

    ghost bad: { List ℕ → ℕ → Type 0 };

    fn fails(&self, bytes: &[u8], at: usize) -> bool
        requires room { at + 8 ≤ length bytes.now }
        requires knows { knows self.now bytes.now }
        requires can { can bytes.now at }
        ensures { IsTrue result ↔ bad bytes.now at };
}

// Whether the records of block `t` have the field.
#[tactic(auto, unfolding(crate::specs::Fields::HasField))]
fn has_field(field: Field, t: usize) -> bool
    ensures { IsTrue result ↔ HasField field t }
{
    let names = t == Block::RefName.number();
    match field {
        Field::Text => t <= Block::Nonpkgref.number() || names,
        Field::Target => {
            t == Block::RefFlags.number()
                || t == Block::Reloc.number()
                || t == Block::Aux.number()
                || names
        }
    }
}

// How far into a record of block `t` the field is.
#[tactic(auto, unfolding(crate::specs::Fields::shift_of))]
fn shift(field: Field, t: usize) -> usize
    ensures value { result ≡ shift_of field t }
    ensures small { result < 16 }
{
    match field {
        Field::Text => { if t == Block::RefName.number() { 8 } else { 0 } }
        Field::Target => {
            if t == Block::Reloc.number() {
                15
            } else if t == Block::Aux.number() {
                1
            } else {
                0
            }
        }
    }
}

// Where record `i` of block `t` has the field, the block being at `start`.
#[tactic(auto, unfolding(crate::specs::Fields::field_offset))]
fn field_offset(
    bytes: &[u8],
    field: Field,
    t: usize,
    start: usize,
    width: usize,
    shift: usize,
    i: u32,
) -> usize
    requires layout { HasLayout bytes.now }
    requires block { HasField field t }
    requires start { start ≡ offset_of bytes.now t }
    requires low { start < 2 ^ 32 }
    requires width { width ≡ width_of t }
    requires narrow { width ≤ 23 }
    requires shift { shift ≡ shift_of field t }
    requires near { shift < 16 }
    requires index { i < count_of bytes.now t }
    ensures value { result ≡ field_offset_of bytes.now field t i }
    ensures room { result + 8 ≤ length bytes.now }
{
    let _ = bytes;
    start + width * i as usize + shift
}

// The first offset in block `t` at which the test fails.
fn first_in_block<T: FieldTest>(bytes: &[u8], field: Field, t: usize, test: &T) -> Option<u64>
    requires layout { HasLayout bytes.now }
    requires block { HasField field t }
    requires inside { t ≤ ref_name }
    requires fixed { t ≢ hash }
    requires knows { T.knows test.now bytes.now }
    requires can { (at : ℕ) → IsFieldOffset bytes.now field at → T.can bytes.now at }
    ensures { LeastOf (FailsIn bytes.now field (T.bad bytes.now) t) result }
{
    let start = offset_at(bytes, t);
    let width = width_at(t);
    let shift = shift(field, t);
    for i in 0..count_at(bytes, t) {
        let at = field_offset(bytes, field, t, start, width, shift, i);
        if test.fails(bytes, at) {
            return Some(at as u64);
        }
    }
    None
}

/// The first offset at which the test fails.
pub(crate) fn first_failing<T: FieldTest>(bytes: &[u8], field: Field, test: &T) -> Option<u64>
    requires layout { HasLayout bytes.now }
    requires knows { T.knows test.now bytes.now }
    requires can { (at : ℕ) → IsFieldOffset bytes.now field at → T.can bytes.now at }
    ensures { LeastOf (FailsAt bytes.now field (T.bad bytes.now)) result }
{
    for t in 0..Block::End.number() {
        if has_field(field, t) {
            match first_in_block(bytes, field, t, test) {
                Some(found) => return Some(found),
                None => {}
            }
        }
    }
    None
}
