// Where made names and kept symbols are, by where the sections and their symbols are.
ghost use Rattle.std.specs.Prelude.{◌≡◌, ◌≤◌, ◌<◌, ◌+◌, ◌^◌, None, length, IfOk, IfSome, OnOk};
ghost use Rattle.std.specs.List.{All};
ghost use Rattle.glk_elf.specs.Views.{number_of};
ghost use Rattle.glk_keys.specs.Definitions.{made_name_of};
ghost use Rattle.glk_keys.specs.MadeNames.{made_count};
ghost use Rattle.glk_keys.specs.MadeViews.{made_at, made_view};
ghost use Rattle.glk_layout.specs.Layout.{section_address, section_size, made_address as made_address_of, IsLayout, IsPlaceable};
ghost use Rattle.glk_layout.specs.Limits.{excess};
ghost use Rattle.glk_layout.specs.Placed.{placed_view};
ghost use Rattle.glk_merge.specs.Mergings.{IsKey};
ghost use Rattle.glk_placing.specs.Indices.{address_bound, AreLocationsTo, IsInSection};
ghost use Rattle.glk_placing.specs.Locations.{place_address as place_address_of, made_location as made_location_of, symbol_location as symbol_location_of, location_by};
ghost use Rattle.glk_placing.specs.Programs.{contents_of, made_contents, made_index, thread_limit, placed_program};
ghost use Rattle.glk_placing.specs.Pushes.{AddsLocation};

use crate::location::Location;
use crate::made::{MadeContentKind, MadeSizes};
use glk_base::{KeyId, OutOfMemory};
use glk_elf::Section;
use glk_keys::{MODULE_DATA_SIZE, MadePlace, made_name};
use glk_layout::{Layout, PlacedContents, section_of_symbol};
use glk_merge::Merged;
use std::alloc::Global;

// Where a section is.
#[derive(Drop)]
struct SectionRange {
    start: u64,
    size: u64,
}

fn section_range(contents: &PlacedContents<'_>, layout: &Layout, section: Section) -> SectionRange
    requires placeable { IsPlaceable (placed_view contents.now) }
    requires layout { IsLayout (placed_view contents.now) layout.now }
    requires small { excess (placed_view contents.now) ≡ None }
    requires tbss { contents.now.tables.tbss ≤ thread_limit }
    ensures start { result.start ≡ section_address (placed_view contents.now) (number_of section) }
    ensures size { result.size ≡ section_size (placed_view contents.now) (number_of section) }
    ensures small { result.start + result.size ≤ 2 ^ 49 }
{
    let _placed = contents;
    let index = section.index();
    SectionRange {
        start: layout.addrs[index],
        size: layout.sizes[index],
    }
}

// The address of a made content.
fn made_address(contents: &PlacedContents<'_>, layout: &Layout, content: MadeContentKind) -> u64
    requires layout { IsLayout (placed_view contents.now) layout.now }
    requires placeable { IsPlaceable (placed_view contents.now) }
    requires small { excess (placed_view contents.now) ≡ None }
    requires made { length contents.now.made.now ≡ made_contents }
    ensures value { result ≡ made_address_of (placed_view contents.now) (made_index content) }
    ensures low { result ≤ 2 ^ 40 }
{
    let _placed = contents;
    layout.made[content.index()]
}

// The address of a place of a section.
fn place_address(
    contents: &PlacedContents<'_>,
    layout: &Layout,
    section: Section,
    place: MadePlace,
) -> u64
    requires placeable { IsPlaceable (placed_view contents.now) }
    requires layout { IsLayout (placed_view contents.now) layout.now }
    requires small { excess (placed_view contents.now) ≡ None }
    requires tbss { contents.now.tables.tbss ≤ thread_limit }
    requires made { length contents.now.made.now ≡ made_contents }
    ensures value { result ≡ place_address_of (placed_view contents.now) (number_of section) place }
    ensures low { result ≤ address_bound }
{
    let range = section_range(contents, layout, section);
    match place {
        MadePlace::Start => range.start,
        MadePlace::End => range.start + range.size,
        MadePlace::FindFuncTab => { made_address(contents, layout, MadeContentKind::FindFuncTab) },
        MadePlace::GcData | MadePlace::GcBss => {
            made_address(contents, layout, MadeContentKind::Pointers)
        },
        MadePlace::MainTasks => { made_address(contents, layout, MadeContentKind::MainTasks) },
        MadePlace::RuntimeTasks => {
            made_address(contents, layout, MadeContentKind::RuntimeTasks)
        },
        MadePlace::AfterModuleData => range.start + MODULE_DATA_SIZE as u64,
    }
}

// Where made name `k` is.
fn made_location(contents: &PlacedContents<'_>, layout: &Layout, k: u8) -> Location
    requires placeable { IsPlaceable (placed_view contents.now) }
    requires layout { IsLayout (placed_view contents.now) layout.now }
    requires small { excess (placed_view contents.now) ≡ None }
    requires tbss { contents.now.tables.tbss ≤ thread_limit }
    requires made { length contents.now.made.now ≡ made_contents }
    requires name { k < made_count }
    ensures value { result ≡ made_location_of (placed_view contents.now) (made_at k) }
    ensures within { IsInSection result }
{
    let name = made_name(k);
    Location {
        section: name.section.number(),
        address: place_address(contents, layout, name.section, name.place),
    }
}

// Where symbol `i` is, which is no made name.
fn symbol_location(contents: &PlacedContents<'_>, layout: &Layout, i: u32) -> Option<Location>
    requires layout { IsLayout (placed_view contents.now) layout.now }
    requires inside { i < length contents.now.symbols.now }
    ensures { result ≡ symbol_location_of (placed_view contents.now) i }
{
    let section = section_of_symbol(&contents.symbols[i as usize])?;
    let address = layout.address(i)?;
    Some(Location { section, address })
}

// Where symbol `i` is, whose key is this.
fn locate(
    merged: &Merged<'_>,
    contents: &PlacedContents<'_>,
    layout: &Layout,
    key: u32,
    i: u32,
) -> Option<Location>
    requires placeable { IsPlaceable (placed_view contents.now) }
    requires layout { IsLayout (placed_view contents.now) layout.now }
    requires small { excess (placed_view contents.now) ≡ None }
    requires tbss { contents.now.tables.tbss ≤ thread_limit }
    requires made { length contents.now.made.now ≡ made_contents }
    requires key { IsKey merged.now.program key }
    requires inside { i < length contents.now.symbols.now }
    ensures value { result ≡ location_by (placed_view contents.now) i (made_name_of merged.now.program key) }
    ensures within { IfSome result IsInSection }
{
    match merged.made(KeyId(key)) {
        Some(k) => Some(made_location(contents, layout, k)),
        None => symbol_location(contents, layout, i),
    }
}

/// Where kept symbols are, by index: section numbers, 0 where a symbol is nowhere, and addresses.
#[derive(Drop)]
pub(crate) struct LocationTable {
    pub(crate) sections: Vec<u8>,
    pub(crate) addresses: Vec<u64>,
}

// Adds the location of one more symbol.
fn push_location(
    locations: &mut LocationTable,
    location: Option<Location>,
) -> Result<(), OutOfMemory>
    requires { IfSome location IsInSection }
    ensures { OnOk result (AddsLocation locations.old locations.new location) }
{
    match location {
        Some(Location { section, address }) => {
            locations.sections.push(section)?;
            locations.addresses.push(address)?;
        }
        None => {
            locations.sections.push(0)?;
            locations.addresses.push(0)?;
        }
    }
    Ok(())
}

/// Where the kept symbols of a program are whose sections and their symbols are there.
pub(crate) fn locations(
    alloc: Global,
    merged: &Merged<'_>,
    kept: &[u32],
    made: &MadeSizes,
    contents: &PlacedContents<'_>,
    layout: &Layout,
) -> Result<LocationTable, OutOfMemory>
    requires placeable { IsPlaceable (placed_view contents.now) }
    requires layout { IsLayout (placed_view contents.now) layout.now }
    requires small { excess (placed_view contents.now) ≡ None }
    requires tbss { contents.now.tables.tbss ≤ thread_limit }
    requires keys { All (IsKey merged.now.program) kept.now }
    requires few { length kept.now ≤ 2 ^ 24 }
    requires contents { placed_view contents.now
        ≡ contents_of (placed_program merged.now.program kept.now made.now contents.now.tables) }
    ensures { IfOk result (λ l. AreLocationsTo
        (placed_program merged.now.program kept.now made.now contents.now.tables)
        (length kept.now) l.sections.items l.addresses.items) }
{
    let _made = made;
    let mut locations = LocationTable {
        sections: Vec::with_capacity(alloc, kept.len())?,
        addresses: Vec::with_capacity(alloc, kept.len())?,
    };
    for i in 0..kept.len() {
        push_location(
            &mut locations,
            locate(merged, contents, layout, kept[i], i as u32),
        )?;
    }
    Ok(locations)
}
