// Where the kept symbols of a program are.
ghost use Rattle.std.specs.Prelude.{◌≡◌, ◌+◌, ◌<◌, ◌≤◌, ◌^◌, All, None, length, IfOk, IfSome, OnOk, IfErr};
ghost use Rattle.glk_elf.specs.Placing.{of_section, address_limit};
ghost use Rattle.glk_elf.specs.Sections.{text, noptrbss, placed_sections};
ghost use Rattle.glk_placing.specs.Indices.{IsInSection};
ghost use Rattle.glk_keys.specs.Rows.{row_count};
ghost use Rattle.glk_layout.specs.Layout.{section_address, section_size, made_address};
ghost use Rattle.glk_layout.specs.Limits.{excess, IsFaultOf};
ghost use Rattle.glk_layout.specs.Sections.{AreRanges};
ghost use Rattle.glk_layout.specs.Symbols.{is_in};
ghost use Rattle.glk_merge.specs.Mergings.{IsKey};
ghost use Rattle.glk_placing.specs.KeptSymbols.{kept_symbol};
ghost use Rattle.glk_placing.specs.Locations.{kept_location as kept_location_of, key_location as key_location_of};
ghost use Rattle.glk_placing.specs.Programs.{AreSmall, contents_of, key_at, made_index, placed_program};

use crate::indices::{NOT_KEPT, indices_by_key};
use crate::location::{Location, Sections};
use crate::made::{MadeContentKind, MadeSizes, made_list};
use crate::places::{LocationTable, locations};
use crate::symbols::kept_symbols;
use glk_base::{Fault, KeyId};
use glk_elf::PLACED_SECTIONS;
use glk_layout::{Layout, PlacedContents, Tables, TooLarge, place};
use glk_merge::Merged;
use std::alloc::Global;
use std::marker::Model;

/// Where the kept symbols of a program are. Contracts see what was placed: where things are follows from
/// that. It takes four bytes a key and nine a kept symbol.
#[derive(Drop)]
pub struct Placement<'m, 'a> {
    merged: &'m Merged<'a>,
    kept: &'m [u32],
    made: MadeSizes,
    tables: Tables,
    // by section
    addrs: [u64; PLACED_SECTIONS],
    sizes: [u64; PLACED_SECTIONS],
    // of the made contents
    made_addresses: Vec<u64>,
    // by key
    indices: Vec<u32>,
    // by index
    sections: Vec<u8>,
    addresses: Vec<u64>,
}

impl<'m, 'a> Model for Placement<'m, 'a> {
    ghost use Rattle.glk_placing.specs.Programs.{PlacedProgram, placed_program};
    ghost use Rattle.glk_placing.specs.Tables.{HoldsPlaces};

    ghost Value = { PlacedProgram };

    ghost view = { λ p. placed_program p.merged.now.program p.kept.now p.made p.tables };

    ghost invariant = { λ p.
        HoldsPlaces (placed_program p.merged.now.program p.kept.now p.made p.tables)
        p.addrs p.sizes p.made_addresses.items p.indices.items p.sections.items p.addresses.items };
}

impl<'m, 'a> Placement<'m, 'a> {
    /// The keys that are kept, in their order.
    pub fn kept(&self) -> &'m [u32]
        ensures value { result.now ≡ self.now.kept }
        ensures keys { All (IsKey self.now.program) self.now.kept }
        ensures few { length self.now.kept ≤ 2 ^ 24 }
    {
        self.kept
    }

    /// The program.
    pub fn merged(&self) -> &'m Merged<'a>
        ensures { result.now.program ≡ self.now.program }
    {
        self.merged
    }

    /// Where the kept symbol of an index is: a symbol by its section and those before it, a made name by its
    /// place. A symbol whose type has no section is nowhere. It takes constant time.
    pub fn kept_location(&self, i: u32) -> Option<Location>
        requires { i < length self.now.kept }
        ensures value { result ≡ kept_location_of self.now i }
        ensures within { IfSome result IsInSection }
    {
        let section = self.sections[i as usize];
        let address = self.addresses[i as usize];
        if section == 0 {
            return None;
        }
        Some(Location { section, address })
    }

    /// Whether the kept symbol of an index is a definition of an object that is in the section of a number,
    /// from 1. It takes constant time.
    pub fn holds(&self, number: u8, i: u32) -> bool
        requires number { text ≤ number }
        requires index { i < length self.now.kept }
        ensures { result ≡ is_in number (kept_symbol self.now.program (key_at self.now i)) }
    {
        if self.sections[i as usize] != number {
            return false;
        }
        match self.merged.chosen(KeyId(self.kept[i as usize])) {
            Some(id) => self.merged.is_def(id),
            None => false,
        }
    }

    /// Where a key is, if it is kept. It takes constant time.
    #[tactic(auto, unfolding(crate::specs::Locations::key_location))]
    pub fn key_location(&self, key: u32) -> Option<Location>
        requires { key < row_count self.now.program }
        ensures value { result ≡ key_location_of self.now key }
        ensures within { IfSome result IsInSection }
    {
        let index = self.indices[key as usize];
        if index == NOT_KEPT {
            return None;
        }
        self.kept_location(index)
    }

    /// The sections, as the frame of an image takes them.
    pub fn sections(&self) -> Sections
        ensures ranges { AreRanges (contents_of self.now) result.addrs result.sizes }
        ensures limit { of_section result.addrs noptrbss + of_section result.sizes noptrbss ≤ address_limit }
    {
        Sections {
            addrs: self.addrs,
            sizes: self.sizes,
        }
    }

    /// The address at which the section of a number, from 1, starts.
    pub fn section_start(&self, number: u8) -> u64
        requires { (text ≤ number) × (number ≤ placed_sections) }
        ensures { result ≡ section_address (contents_of self.now) number }
    {
        self.addrs[number as usize - 1]
    }

    /// The size of the section of a number, from 1, in bytes.
    pub fn section_size(&self, number: u8) -> u64
        requires { (text ≤ number) × (number ≤ placed_sections) }
        ensures { result ≡ section_size (contents_of self.now) number }
    {
        self.sizes[number as usize - 1]
    }

    /// The address of a made content.
    pub fn made_address(&self, content: MadeContentKind) -> u64
        ensures { result ≡ made_address (contents_of self.now) (made_index content) }
    {
        self.made_addresses[content.index()]
    }
}

/// Places the kept symbols of a program, and what is made for it. The keys are those that are kept, in
/// their order. The time is linear in the kept symbols, and the memory four bytes a key and, at its
/// peak, some 40 bytes a kept symbol.
///
/// # Errors
/// The first limit that is passed: of the file, of the addresses, of the names. Out of memory.
pub fn place_program<'m, 'a>(
    alloc: Global,
    merged: &'m Merged<'a>,
    kept: &'m [u32],
    made: MadeSizes,
    tables: Tables,
) -> Result<Placement<'m, 'a>, Fault<TooLarge>>
    requires keys { All (IsKey merged.now.program) kept.now }
    requires few { length kept.now ≤ 2 ^ 24 }
    requires sizes { AreSmall made tables }
    ensures placed { IfOk result (λ p. p ≡ placed_program merged.now.program kept.now made tables) }
    ensures small { OnOk result (excess
        (contents_of (placed_program merged.now.program kept.now made tables)) ≡ None) }
    ensures fault { IfErr result (IsFaultOf
        (contents_of (placed_program merged.now.program kept.now made tables))) }
{
    let keys = merged.rows();
    let indices = indices_by_key(alloc, kept, keys)?;
    let symbols = kept_symbols(alloc, merged, kept)?;
    let list = made_list(&made);
    let contents = PlacedContents {
        symbols: &symbols,
        made: &list,
        tables,
    };
    let layout = place(alloc, &contents)?;
    let LocationTable {
        sections,
        addresses,
    } = locations(alloc, merged, kept, &made, &contents, &layout)?;
    let Layout {
        addrs,
        sizes,
        symbols: _,
        made: made_addresses,
    } = layout;
    Ok(Placement {
        merged,
        kept,
        made,
        tables,
        addrs,
        sizes,
        made_addresses,
        indices,
        sections,
        addresses,
    })
}
