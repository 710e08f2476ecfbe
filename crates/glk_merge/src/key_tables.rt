// The key of each row, and the chosen definition of each key.
ghost use Rattle.std.specs.Prelude.{◌≡◌, ◌<◌, ◌^◌, IfOk, IfSome};
ghost use Rattle.std.specs.Option.{option_map};
ghost use Rattle.glk_keys.specs.Choices.{SizesFit};
ghost use Rattle.glk_keys.specs.Definitions.{chosen_of, object_definition};
ghost use Rattle.glk_keys.specs.Keys.{key_id};
ghost use Rattle.glk_keys.specs.Rows.{row_count};
ghost use Rattle.glk_merge.specs.KeyTables.{AreKeyIds, AreChoices, choice_in};
ghost use Rattle.glk_merge.specs.Mergings.{IsPollOf, IsRow};

use glk_base::{OutOfMemory, SymId};
use glk_elect::Polled;
use glk_keys::{Rows, made_number};
use glk_table::rank_id;
use std::alloc::Global;

// What stands for no definition.
pub(crate) const NO_DEFINITION: u32 = u32::MAX;

// The key of a row.
fn key_of(rows: &Rows<'_>, polled: &Polled, id: u32) -> u32
    requires polled { IsPollOf rows.now polled.now }
    requires row { id < row_count rows.now }
    ensures { result ≡ key_id rows.now id }
{
    let _ = rows;
    polled.key(id).0
}

// The key of each row.
pub(crate) fn key_ids(
    alloc: Global,
    rows: &Rows<'_>,
    polled: &Polled,
) -> Result<Vec<u32>, OutOfMemory>
    requires { IsPollOf rows.now polled.now }
    ensures { IfOk result (λ keys. AreKeyIds rows.now keys.items) }
{
    let count = rows.count();
    let mut keys = Vec::with_capacity(alloc, count as usize)?;
    for id in 0..count {
        keys.push(key_of(rows, polled, id))?;
    }
    Ok(keys)
}

// The chosen definition in objects of the key of row `id`.
fn chosen_in_objects(rows: &Rows<'_>, polled: &Polled, id: u32) -> Option<u32>
    requires polled { IsPollOf rows.now polled.now }
    requires row { id < row_count rows.now }
    requires fits { SizesFit rows.now }
    ensures value { result ≡ object_definition rows.now (key_id rows.now id) }
    ensures within { IsRow rows.now result }
{
    let _rows = rows.count();
    match polled.least(id) {
        Some(rank) => Some(rank_id(rank).0),
        None => None,
    }
}

// The chosen definition of the key of row `id`.
#[tactic(auto, unfolding(glk_keys::specs::Definitions::chosen_of))]
fn chosen_for(rows: &Rows<'_>, polled: &Polled, id: u32) -> Option<u32>
    requires polled { IsPollOf rows.now polled.now }
    requires row { id < row_count rows.now }
    requires fits { SizesFit rows.now }
    ensures value { result ≡ chosen_of rows.now (key_id rows.now id) }
    ensures within { IsRow rows.now result }
{
    match made_number(rows.key_in(SymId(id))) {
        Some(k) => Some(rows.made_row(k).0),
        None => chosen_in_objects(rows, polled, id),
    }
}

// A chosen definition as a number.
fn choice_number(chosen: Option<u32>) -> u32
    requires { IfSome chosen (λ id. id < 2 ^ 24) }
    ensures { choice_in result ≡ chosen }
{
    match chosen {
        Some(id) => id,
        None => NO_DEFINITION,
    }
}

// The chosen definition of the key of row `id`, if the row is a key; of other rows none is looked for.
fn choice_at(rows: &Rows<'_>, polled: &Polled, id: u32, key: u32) -> u32
    requires polled { IsPollOf rows.now polled.now }
    requires row { id < row_count rows.now }
    requires fits { SizesFit rows.now }
    requires key { key ≡ key_id rows.now id }
    ensures value { key ≡ id → choice_in result ≡ chosen_of rows.now id }
    ensures within { key ≡ id → IsRow rows.now (chosen_of rows.now id) }
{
    let _rows = rows.count();
    if key == id {
        choice_number(chosen_for(rows, polled, id))
    } else {
        NO_DEFINITION
    }
}

// The chosen definition of each key.
pub(crate) fn choices(
    alloc: Global,
    rows: &Rows<'_>,
    polled: &Polled,
    keys: &[u32],
) -> Result<Vec<u32>, OutOfMemory>
    requires polled { IsPollOf rows.now polled.now }
    requires keys { AreKeyIds rows.now keys.now }
    ensures { IfOk result (λ chosen. AreChoices rows.now chosen.items) }
{
    rows.sizes_fit();
    let count = rows.count();
    let mut chosen = Vec::with_capacity(alloc, count as usize)?;
    for id in 0..count {
        chosen.push(choice_at(rows, polled, id, keys[id as usize]))?;
    }
    Ok(chosen)
}
