// Ranges as a table.
ghost use Rattle.std.specs.Prelude.{◌≡◌, ◌≢◌, ◌<◌, ◌^◌, ◌-◌, ◌-ℤ◌, ◌+ℤ◌, pos, true, OnOk, IfOk, Some, None, length, FitsSigned};
ghost use Rattle.std.specs.Int.{w32};
ghost use Rattle.std.proofs.Common.{get_or};
ghost use Rattle.glk_pcval.specs.Step.{fits_i32, next_value, next_end, zigzag};
ghost use Rattle.glk_pcval.specs.Table.{ranges, fault, state_after, IsTableOf};
ghost use Rattle.glk_pcval.specs.Encode.{IsEncodable, table_bytes, number_of as number_for};
ghost use Rattle.glk_pcval.specs.Encoding.{Appends, MayFollow, AddsRange};

use crate::step::{LONGEST_VARINT, START, State};
use glk_base::OutOfMemory;
use std::alloc::Global;

// The byte that ends a table: a change of 0.
const END: u8 = 0;

// A group of seven bits is below this; a byte of it and more says that another group follows.
const GROUP: u32 = 128;

// Writes a number as a varint of at most `most` bytes at the end.
fn push_varint_within(out: &mut Vec<u8>, number: u32, most: u32) -> Result<(), OutOfMemory>
    requires some { 0 < most }
    requires room { number < 128 ^ most }
    ensures { OnOk result (Appends out.old.items out.new.items most number) }
{
    if number < GROUP {
        out.push(number as u8)?;
        return Ok(());
    }
    out.push((number % GROUP + GROUP) as u8)?;
    push_varint_within(out, number / GROUP, most - 1)
}

// Writes a number as a varint at the end.
fn push_varint(out: &mut Vec<u8>, number: u32) -> Result<(), OutOfMemory>
    ensures { OnOk result (Appends out.old.items out.new.items LONGEST_VARINT number) }
{
    push_varint_within(out, number, LONGEST_VARINT)
}

#[tactic(auto, unfolding(crate::specs::Step::fits_i32))]
fn change_between(from: i32, to: i32) -> i32
    requires { FitsSigned w32 (to -ℤ from) }
    ensures value { result ≡ to -ℤ from }
    ensures change { from +ℤ result ≡ to }
    ensures fits { fits_i32 to ≡ true }
{
    to - from
}

// The number that stands for a change: even ones for 0, 1, 2 .., odd ones for -1, -2 ..
#[tactic(auto, unfolding(crate::specs::Step::zigzag, crate::specs::Encode::number_of))]
fn number_of(change: i32) -> u32
    ensures number { result ≡ number_for change }
    ensures value { zigzag result ≡ change }
    ensures some { change ≢ pos 0 → 0 < result }
{
    if change >= 0 {
        change as u32 * 2
    } else {
        (-(change + 1)) as u32 * 2 + 1
    }
}

// The number that changes one value into another.
fn number_between(from: i32, to: i32) -> u32
    requires { FitsSigned w32 (to -ℤ from) }
    ensures number { result ≡ number_for (to -ℤ from) }
    ensures value { next_value from result ≡ Some to }
    ensures some { from ≢ to → 0 < result }
{
    number_of(change_between(from, to))
}

#[tactic(auto, unfolding(crate::specs::Step::next_end))]
fn width_between(from: u32, to: u32) -> u32
    requires { from < to }
    ensures width { result ≡ to - from }
    ensures value { next_end from result ≡ Some to }
{
    to - from
}

// Writes one range at the end of a table that has been written so far.
fn push_range(out: &mut Vec<u8>, from: State, to: State) -> Result<(), OutOfMemory>
    requires { MayFollow from to }
    ensures { OnOk result (AddsRange out.old.items out.new.items from to) }
{
    push_varint(out, number_between(from.value, to.value))?;
    push_varint(out, width_between(from.end, to.end))
}

fn state_at(list: &[(i32, u32)], i: usize) -> State
    requires { i < length list.now }
    ensures { result ≡ state_after (get_or list.now i (pos 0, 0)) }
{
    let (value, end) = list[i];
    State {
        first: false,
        value,
        end,
    }
}

/// The table that has these ranges, each a value and the offset where it ends, with each number in its
/// shortest spelling: the empty table for no ranges. The first ends above 0, ends rise, neighbouring
/// values differ, and each value less the one before, -1 before the first, is an `i32`.
///
/// # Errors
/// Out of memory.
pub fn encode(alloc: Global, list: &[(i32, u32)]) -> Result<Vec<u8>, OutOfMemory>
    requires { IsEncodable list.now }
    ensures bytes { IfOk result (λ table. table.items ≡ table_bytes list.now) }
    ensures table { IfOk result (λ table. IsTableOf list.now table.items) }
    ensures read_back { IfOk result (λ table. ranges table.items ≡ list.now) }
    ensures whole { IfOk result (λ table. fault table.items ≡ None) }
{
    let mut out = Vec::new(alloc);
    let count = list.len();
    if count == 0 {
        return Ok(out);
    }
    let mut from = START;
    for i in 0..count {
        let to = state_at(list, i);
        push_range(&mut out, from, to)?;
        from = to;
    }
    out.push(END)?;
    Ok(out)
}
