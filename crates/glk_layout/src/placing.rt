// Sections, their symbols and made contents, placed one section after the other.
ghost use Rattle.std.specs.Prelude.{◌≡◌, ◌≤◌, ◌<◌, ◌+◌, ◌-◌, ◌^◌, ℕ, Option, None, length, IfOk, IfErr, OnOk};
ghost use Rattle.glk_elf.specs.Sections.{text, noptrbss};
ghost use Rattle.glk_elf.specs.Placing.{text_start, of_section};
ghost use Rattle.glk_layout.specs.Boxes.{end_after};
ghost use Rattle.glk_layout.specs.Symbols.{home_of as home_of_symbol, boxes_in};
ghost use Rattle.glk_layout.specs.Layout.{section_boxes, section_start, section_end, address_at, IsLayout, IsPlaceable, symbol_limit, table_limit};
ghost use Rattle.glk_layout.specs.Limits.{excess as excess_of, IsFaultOf};
ghost use Rattle.glk_layout.specs.Placed.{placed_view};
ghost use Rattle.glk_layout.specs.Steps.{PlacesIn, PlacesMade, ArePlacedTo};
ghost use Rattle.glk_layout.specs.Sections.{AreRanges};

use crate::input::{KeptSymbol, PlacedContents};
use crate::limits::{TooLarge, excess};
use crate::made::{place_made, table_size};
use crate::symbols::{home_of, names_room, place_symbols};
use glk_base::{Fault, least_multiple};
use glk_elf::{PLACED_SECTIONS, Section, TEXT_START, start_multiple};
use std::alloc::Global;

// How many sections take addresses: all but the storage of threads.
const ADDRESSED_SECTIONS: usize = 10;

/// Where everything is in memory. The lists are in the order of the contents that were placed.
#[derive(Debug, Drop)]
pub struct Layout {
    /// The addresses of the sections, in the order of their numbers.
    pub addrs: [u64; PLACED_SECTIONS],
    /// The sizes of the sections in bytes, in the order of their numbers.
    pub sizes: [u64; PLACED_SECTIONS],
    /// The address of each symbol, or 0 where it is in no section.
    pub symbols: Vec<u64>,
    /// The address of each made content.
    pub made: Vec<u64>,
}

impl Layout {
    /// The address of the symbol of an index, if it is in a section, in constant time.
    pub fn address(&self, index: u32) -> Option<u64>
        requires { index < length self.now.symbols.items }
        ensures { result ≡ address_at self.now.symbols.items index }
    {
        let address = self.symbols[index as usize];
        if address == 0 { None } else { Some(address) }
    }
}

/// The number of the section that a symbol is in, if it is in one.
pub fn section_of_symbol(symbol: &KeptSymbol) -> Option<u8>
    ensures { result ≡ home_of_symbol symbol.now }
{
    home_of(symbol)
}

// The addresses and sizes of the sections.
#[derive(Clone, Copy)]
struct Ranges {
    addrs: [u64; PLACED_SECTIONS],
    sizes: [u64; PLACED_SECTIONS],
}

// Places what is in section `number`, which starts there. Answers where it ends.
fn place_section(
    contents: &PlacedContents<'_>,
    number: u8,
    start: u64,
    symbols: &mut [u64],
    made: &mut [u64],
) -> u64
    requires placeable { IsPlaceable (placed_view contents.now) }
    requires symbols { length symbols.old ≡ length contents.now.symbols.now }
    requires made { length made.old ≡ length contents.now.made.now }
    requires low { start ≤ 2 ^ 62 }
    ensures end { result ≡ end_after start (section_boxes (placed_view contents.now) number) }
    ensures small { result ≤ start + 2 ^ 57 + table_limit }
    ensures symbols { PlacesIn number start contents.now.symbols.now symbols.old symbols.new }
    ensures made { PlacesMade (placed_view contents.now) number start made.old made.new }
{
    let end = place_symbols(contents.symbols, number, start, symbols);
    if number == Section::Rodata.number() {
        place_made(contents.made, end, made)
    } else {
        end + table_size(contents, number)
    }
}

// Places all sections, one after the other.
fn place_sections(contents: &PlacedContents<'_>, symbols: &mut [u64], made: &mut [u64]) -> Ranges
    requires placeable { IsPlaceable (placed_view contents.now) }
    requires before { ArePlacedTo (placed_view contents.now) 0 symbols.old made.old }
    ensures after { ArePlacedTo (placed_view contents.now) noptrbss symbols.new made.new }
    ensures ranges { AreRanges (placed_view contents.now) result.addrs result.sizes }
    ensures small { section_end (placed_view contents.now) noptrbss ≤ 2 ^ 63 }
{
    let mut addrs = [0; PLACED_SECTIONS];
    let mut sizes = [0; PLACED_SECTIONS];
    let mut end = TEXT_START;
    for index in 0..ADDRESSED_SECTIONS {
        let number = index + 1;
        let start = least_multiple(start_multiple(number), end);
        end = place_section(contents, number as u8, start, symbols, made);
        addrs[index] = start;
        sizes[index] = end - start;
    }
    addrs[Section::Tbss.index()] = addrs[Section::Bss.index()];
    sizes[Section::Tbss.index()] = contents.tables.tbss;
    Ranges { addrs, sizes }
}

/// Where all sections, symbols and made contents are in memory. It takes eight bytes a symbol and a
/// made content, and passes over the symbols once for each section that takes addresses.
///
/// # Errors
/// The first limit that is passed: of the file, of the addresses, of the names. Out of memory.
pub fn place(alloc: Global, contents: &PlacedContents<'_>) -> Result<Layout, Fault<TooLarge>>
    requires { IsPlaceable (placed_view contents.now) }
    ensures layout { IfOk result (IsLayout (placed_view contents.now)) }
    ensures small { OnOk result (excess_of (placed_view contents.now) ≡ None) }
    ensures fault { IfErr result (IsFaultOf (placed_view contents.now)) }
{
    let mut symbols = vec![in alloc; 0u64; contents.symbols.len()]?;
    let mut made = vec![in alloc; 0u64; contents.made.len()]?;
    let Ranges { addrs, sizes } = place_sections(contents, &mut symbols, &mut made);
    let data = Section::Data.index();
    let last = Section::Noptrbss.index();
    match excess(
        contents,
        addrs[data] + sizes[data],
        addrs[last] + sizes[last],
        names_room(contents.symbols),
    ) {
        Some(refusal) => Err(Fault::Bad(refusal)),
        None => Ok(Layout {
            addrs,
            sizes,
            symbols,
            made,
        }),
    }
}
