// The boxes of kept symbols.
ghost use Rattle.std.specs.Prelude.{◌≡◌, ◌≤◌, ◌<◌, ◌+◌, ◌*◌, ◌^◌, ℕ, Option, Some, None, List, length, take, slice_index, if◌then◌else◌};
ghost use Rattle.glk_elf.specs.Sections.{text};
ghost use Rattle.glk_elf.specs.Placing.{text_start};
ghost use Rattle.glk_layout.specs.Boxes.{box_address, box_end, end_after};
ghost use Rattle.glk_layout.specs.Symbols.{section_of_kind, home_of as home_of_symbol, is_in, data_align as data_align_of, alignment_of, room_of, box_of, boxes_in, name_room as name_room_of, names_room as names_room_of};
ghost use Rattle.glk_layout.specs.Layout.{symbol_limit};
ghost use Rattle.glk_layout.specs.Steps.{PlacesIn};

use crate::input::KeptSymbol;
use glk_base::least_multiple;
use glk_elf::{Section, TEXT_START};
use glk_obj::SymKind;

// A function's alignment where it asks for none, and the least room that it takes.
const TEXT_ALIGN: u64 = 32;

const LEAST_ROOM: u64 = 16;

// The number of the section that holds symbols of a type.
fn section_number(kind: SymKind) -> Option<u8>
    ensures { result ≡ section_of_kind kind }
{
    match kind {
        SymKind::Text => Some(Section::Text.number()),
        SymKind::Rodata => Some(Section::Rodata.number()),
        SymKind::NoptrData => Some(Section::Noptrdata.number()),
        SymKind::Data => Some(Section::Data.number()),
        SymKind::Bss => Some(Section::Bss.number()),
        SymKind::NoptrBss => Some(Section::Noptrbss.number()),
        SymKind::TlsBss => None,
    }
}

/// The number of a symbol's section, if it is in one.
pub(crate) fn home_of(symbol: &KeptSymbol) -> Option<u8>
    ensures { result ≡ home_of_symbol symbol.now }
{
    match symbol.kind {
        Some(kind) => section_number(kind),
        None => None,
    }
}

// Whether a symbol is in the section of a number.
#[tactic(auto, unfolding(crate::specs::Symbols::is_in))]
fn is_home(number: u8, symbol: &KeptSymbol) -> bool
    ensures { result ≡ is_in number symbol.now }
{
    match home_of(symbol) {
        Some(home) => home == number,
        None => false,
    }
}

// The alignment of data of this size that ask for none.
#[tactic(auto, unfolding(crate::specs::Symbols::data_align))]
fn data_align(size: u32) -> u64
    ensures value { result ≡ data_align_of size }
    ensures some { 0 < result }
    ensures small { result ≤ 32 }
{
    if size >= 32 {
        32
    } else if size >= 16 {
        16
    } else if size >= 8 {
        8
    } else if size >= 4 {
        4
    } else if size >= 2 {
        2
    } else {
        1
    }
}

#[tactic(auto, unfolding(crate::specs::Symbols::alignment_of))]
fn alignment(symbol: &KeptSymbol) -> u64
    ensures value { result ≡ alignment_of symbol.now }
    ensures some { 0 < result }
    ensures small { result < 2 ^ 32 }
{
    if symbol.align != 0 {
        symbol.align as u64
    } else if is_home(Section::Text.number(), symbol) {
        TEXT_ALIGN
    } else {
        data_align(symbol.size)
    }
}

#[tactic(auto, unfolding(crate::specs::Symbols::room_of))]
fn room(symbol: &KeptSymbol) -> u64
    ensures value { result ≡ room_of symbol.now }
    ensures small { result < 2 ^ 32 }
{
    if is_home(Section::Text.number(), symbol) {
        LEAST_ROOM.max(symbol.size as u64)
    } else {
        symbol.size as u64
    }
}

// Where section `number` ends after a symbol, the symbols before ending at `end`, and the symbol's
// place; that stays as it was where the symbol is in another section.
fn place_symbol(number: u8, symbol: &KeptSymbol, end: u64, place: u64) -> (u64, u64)
    requires low { end ≤ 2 ^ 63 }
    ensures end { result.0 ≡ (if is_in number symbol.now then box_end end (box_of symbol.now) else end) }
    ensures place { result.1
        ≡ (if is_in number symbol.now then box_address end (box_of symbol.now) else place) }
    ensures small { result.0 ≤ end + 2 ^ 33 }
{
    if !is_home(number, symbol) {
        return (end, place);
    }
    let address = least_multiple(alignment(symbol), end);
    (address + room(symbol), address)
}

/// Places the symbols of section `number` from `start` on, in load order: each has its address at its
/// index. Answers where they end. One pass over all symbols.
pub(crate) fn place_symbols(
    symbols: &[KeptSymbol],
    number: u8,
    start: u64,
    places: &mut [u64],
) -> u64
    requires few { length symbols.now ≤ symbol_limit }
    requires same { length places.old ≡ length symbols.now }
    requires low { start ≤ 2 ^ 62 }
    ensures end { result ≡ end_after start (boxes_in number symbols.now) }
    ensures small { result ≤ start + 2 ^ 57 }
    ensures places { PlacesIn number start symbols.now places.old places.new }
{
    let mut end = start;
    for i in 0..symbols.len() {
        let (after, place) = place_symbol(number, &symbols[i], end, places[i]);
        places[i] = place;
        end = after;
    }
    end
}

/// Where the functions among these symbols end in memory: the end of `.text`. The made contents of
/// `.rodata` may depend on it.
pub fn text_end(symbols: &[KeptSymbol]) -> u64
    requires { length symbols.now ≤ symbol_limit }
    ensures { result ≡ end_after text_start (boxes_in text symbols.now) }
{
    let mut end = TEXT_START;
    for symbol in symbols {
        end = place_symbol(Section::Text.number(), symbol, end, 0).0;
    }
    end
}

// The length of a symbol's name with the zero byte that ends it.
#[tactic(auto, unfolding(crate::specs::Symbols::name_room))]
fn name_room(symbol: &KeptSymbol) -> u64
    ensures value { result ≡ name_room_of symbol.now }
    ensures small { result ≤ 2 ^ 32 }
{
    if symbol.name_len == 0 {
        0
    } else {
        symbol.name_len as u64 + 1
    }
}

/// The length of the names of all symbols, with the zero byte that ends each.
#[tactic(auto, unfolding(crate::specs::Symbols::names_room))]
pub(crate) fn names_room(symbols: &[KeptSymbol]) -> u64
    requires { length symbols.now ≤ symbol_limit }
    ensures { result ≡ names_room_of symbols.now }
{
    let mut length = 0;
    for symbol in symbols {
        length += name_room(symbol);
    }
    length
}
