// All rules of an object, in their order.
ghost use Rattle.std.specs.Prelude.{◌≡◌, ◌-◌, ◌<◌, ◌≤◌, OnOk, IfErr, OnErr};
ghost use Rattle.glk_base.specs.Least.{LeastOf};
ghost use Rattle.glk_base.specs.Rules.{IsIntact, FirstBroken};
ghost use Rattle.glk_obj.specs.Layout.{HasLayout};
ghost use Rattle.glk_obj.specs.Object.{IsObject};
ghost use Rattle.glk_obj.specs.Positive.{HasIndexTables};
ghost use Rattle.glk_obj.specs.Rules.{Breaks};

use crate::definitions::{long_data, odd_align, stray_reloc};
use crate::fields::{Field, first_failing};
use crate::references::{StringPastEnd, TargetOutOfRange, string_with_nul};
use crate::rules::{
    late_end, misplaced_block, odd_hash, odd_hash64, other_magic, short, short_table, uneven_block,
    unlinkable,
};
use crate::tables::bad_entry;
use glk_base::BrokenRule;

/// The first broken rule of an object, of V1 to V16, and the least offset in the object at which it
/// is broken.
pub type ObjBad = BrokenRule;

// The outcome of a rule, after those before it: an error where it is broken.
fn stop_if_broken(bytes: &[u8], rule: u8, found: Option<u64>) -> Result<(), ObjBad>
    requires positive { 0 < rule }
    requires before { IsIntact (Breaks bytes.now) (rule - 1) }
    requires found { LeastOf (Breaks bytes.now rule) found }
    ensures ok { OnOk result (IsIntact (Breaks bytes.now) rule) }
    ensures err { IfErr result (λ bad. FirstBroken (Breaks bytes.now) bad.rule bad.offset) }
    ensures refused { OnErr result (¬ IsObject bytes.now) }
{
    let _ = bytes;
    match found {
        Some(offset) => Err(ObjBad { rule, offset }),
        None => Ok(()),
    }
}

// The outcome of the rules on the header and on where the blocks begin.
fn check_layout(bytes: &[u8]) -> Result<(), ObjBad>
    ensures ok { OnOk result (IsIntact (Breaks bytes.now) 5) }
    ensures layout { OnOk result (HasLayout bytes.now) }
    ensures err { IfErr result (λ bad. FirstBroken (Breaks bytes.now) bad.rule bad.offset) }
    ensures refused { OnErr result (¬ IsObject bytes.now) }
{
    stop_if_broken(bytes, 1, short(bytes))?;
    stop_if_broken(bytes, 2, other_magic(bytes))?;
    stop_if_broken(bytes, 3, misplaced_block(bytes))?;
    stop_if_broken(bytes, 4, late_end(bytes))?;
    stop_if_broken(bytes, 5, uneven_block(bytes))?;
    Ok(())
}

// The outcome of the rules on the flags, on the numbers of records and on the tables of indices.
fn check_numbers(bytes: &[u8]) -> Result<(), ObjBad>
    requires before { IsIntact (Breaks bytes.now) 5 }
    requires layout { HasLayout bytes.now }
    ensures ok { OnOk result (IsIntact (Breaks bytes.now) 10) }
    ensures err { IfErr result (λ bad. FirstBroken (Breaks bytes.now) bad.rule bad.offset) }
    ensures refused { OnErr result (¬ IsObject bytes.now) }
{
    stop_if_broken(bytes, 6, unlinkable(bytes))?;
    stop_if_broken(bytes, 7, odd_hash64(bytes))?;
    stop_if_broken(bytes, 8, odd_hash(bytes))?;
    stop_if_broken(bytes, 9, short_table(bytes))?;
    stop_if_broken(bytes, 10, bad_entry(bytes))?;
    Ok(())
}

// The outcome of the rules on the strings and the references of records.
fn check_fields(bytes: &[u8]) -> Result<(), ObjBad>
    requires before { IsIntact (Breaks bytes.now) 10 }
    requires layout { HasLayout bytes.now }
    ensures ok { OnOk result (IsIntact (Breaks bytes.now) 13) }
    ensures err { IfErr result (λ bad. FirstBroken (Breaks bytes.now) bad.rule bad.offset) }
    ensures refused { OnErr result (¬ IsObject bytes.now) }
{
    stop_if_broken(bytes, 11, first_failing(bytes, Field::Text, &StringPastEnd))?;
    stop_if_broken(bytes, 12, string_with_nul(bytes))?;
    stop_if_broken(
        bytes,
        13,
        first_failing(bytes, Field::Target, &TargetOutOfRange::of(bytes)),
    )?;
    Ok(())
}

// The outcome of the rules on the symbols' content.
fn check_content(bytes: &[u8]) -> Result<(), ObjBad>
    requires before { IsIntact (Breaks bytes.now) 13 }
    requires layout { HasLayout bytes.now }
    requires tables { HasIndexTables bytes.now }
    ensures ok { OnOk result (IsIntact (Breaks bytes.now) 16) }
    ensures err { IfErr result (λ bad. FirstBroken (Breaks bytes.now) bad.rule bad.offset) }
    ensures refused { OnErr result (¬ IsObject bytes.now) }
{
    stop_if_broken(bytes, 14, long_data(bytes))?;
    stop_if_broken(bytes, 15, stray_reloc(bytes))?;
    stop_if_broken(bytes, 16, odd_align(bytes))?;
    Ok(())
}

/// The first broken rule of all, if there is one. Its time is that of `ObjShape::check`.
pub(crate) fn check(bytes: &[u8]) -> Result<(), ObjBad>
    ensures ok { OnOk result (IsIntact (Breaks bytes.now) 16) }
    ensures layout { OnOk result (HasLayout bytes.now) }
    ensures tables { OnOk result (HasIndexTables bytes.now) }
    ensures err { IfErr result (λ bad. FirstBroken (Breaks bytes.now) bad.rule bad.offset) }
    ensures refused { OnErr result (¬ IsObject bytes.now) }
{
    check_layout(bytes)?;
    check_numbers(bytes)?;
    check_fields(bytes)?;
    check_content(bytes)?;
    Ok(())
}
