// The made contents of `.rodata`, and the tables.
ghost use Rattle.std.specs.Prelude.{◌≡◌, ◌≤◌, ◌<◌, ◌+◌, ◌^◌, ℕ, length, map, slice_index, All};
ghost use Rattle.std.specs.List.{sum_by};
ghost use Rattle.glk_layout.specs.Boxes.{end_after, address_in};
ghost use Rattle.glk_layout.specs.Layout.{made_box, table_size as table_size_of, table_limit, IsPlaceable};
ghost use Rattle.glk_layout.specs.Placed.{placed_view};

use crate::input::{MadeContent, PlacedContents};
use glk_base::least_multiple;
use glk_elf::Section;

/// Places made contents from `start` on: each has its address at its index. Answers where they end.
pub(crate) fn place_made(made: &[MadeContent], start: u64, places: &mut [u64]) -> u64
    requires aligned { All (λ m. 0 < m.align) made.now }
    requires small { sum_by (λ m. m.align + m.size) made.now ≤ table_limit }
    requires same { length places.old ≡ length made.now }
    requires low { start ≤ 2 ^ 62 + 2 ^ 61 }
    ensures end { result ≡ end_after start (map made_box made.now) }
    ensures small { result ≤ start + table_limit }
    ensures places { (i : ℕ) → i < length made.now
        → slice_index places.new i ≡ address_in start (map made_box made.now) i }
{
    let mut end = start;
    for i in 0..made.len() {
        let address = least_multiple(made[i].align as u64, end);
        places[i] = address;
        end = address + made[i].size;
    }
    end
}

/// The size of a section that is one table; 0 for the others.
pub(crate) fn table_size(contents: &PlacedContents<'_>, number: u8) -> u64
    requires { IsPlaceable (placed_view contents.now) }
    ensures value { result ≡ table_size_of contents.now.tables number }
    ensures small { result ≤ table_limit }
{
    if number == Section::Typelink.number() {
        contents.tables.typelink
    } else if number == Section::Itablink.number() {
        contents.tables.itablink
    } else if number == Section::Gopclntab.number() {
        contents.tables.gopclntab
    } else if number == Section::GoModule.number() {
        contents.tables.go_module
    } else {
        0
    }
}
