// The first clash of definitions.
ghost use Rattle.std.specs.Prelude.{◌≡◌, ◌<◌, is_some, IfSome};
ghost use Rattle.glk_keys.specs.Choices.{IsLeastStrong};
ghost use Rattle.glk_keys.specs.Clashes.{clash_at, first_clash as first_clash_of};
ghost use Rattle.glk_keys.specs.Definitions.{made_name_of};
ghost use Rattle.glk_keys.specs.Keys.{key_id};
ghost use Rattle.glk_keys.specs.Rows.{row_count};
ghost use Rattle.glk_merge.specs.Clashes.{clash_views};
ghost use Rattle.glk_merge.specs.Mergings.{IsPollOf};

use glk_base::{SymId, Text};
use glk_elect::Polled;
use glk_keys::{Rows, made_number};

/// Two definitions of a symbol, of which each has content and neither may be replaced: the name of the
/// symbol, and the load positions of the first and the last of all of these.
#[derive(Debug, Drop)]
pub struct Clash {
    pub name: Text,
    pub first: SymId,
    pub second: SymId,
}

// The first and the last of the strong definitions of one key.
#[derive(Clone, Copy, Debug)]
pub(crate) struct ClashRows {
    pub first: SymId,
    pub second: SymId,
}

// Whether the key of a row is a made name.
fn is_made(rows: &Rows<'_>, id: u32) -> bool
    requires { id < row_count rows.now }
    ensures { result ≡ is_some (made_name_of rows.now (key_id rows.now id)) }
{
    made_number(rows.key_in(SymId(id))).is_some()
}

// The clash of the key of row `id`, whose least strong definition is that row.
fn clash_with(rows: &Rows<'_>, polled: &Polled, id: u32) -> Option<ClashRows>
    requires polled { IsPollOf rows.now polled.now }
    requires row { id < row_count rows.now }
    requires least { IsLeastStrong rows.now (key_id rows.now id) id }
    ensures value { clash_views result ≡ clash_at rows.now id }
    ensures first { IfSome result (λ clash. clash.first.0 ≡ id) }
{
    let _rows = rows.count();
    if is_made(rows, id) {
        return None;
    }
    match polled.greatest_strong(id) {
        Some(last) => {
            if id < last.0 {
                Some(ClashRows {
                    first: SymId(id),
                    second: last,
                })
            } else {
                None
            }
        }
        None => None,
    }
}

// The clash whose first definition is row `id`.
fn clash_from(rows: &Rows<'_>, polled: &Polled, id: u32) -> Option<ClashRows>
    requires polled { IsPollOf rows.now polled.now }
    requires row { id < row_count rows.now }
    ensures value { clash_views result ≡ clash_at rows.now id }
    ensures first { IfSome result (λ clash. clash.first.0 ≡ id) }
{
    let _rows = rows.count();
    match polled.least(id) {
        Some(rank) => {
            // The rank of a strong definition is its load position.
            if rank == id as u64 {
                clash_with(rows, polled, id)
            } else {
                None
            }
        }
        None => None,
    }
}

// The first of all clashes.
pub(crate) fn first_clash(rows: &Rows<'_>, polled: &Polled) -> Option<ClashRows>
    requires { IsPollOf rows.now polled.now }
    ensures value { clash_views result ≡ first_clash_of rows.now }
    ensures within { IfSome result (λ clash. clash.first.0 < row_count rows.now) }
{
    for id in 0..rows.count() {
        match clash_from(rows, polled, id) {
            Some(clash) => return Some(clash),
            None => {}
        }
    }
    None
}
