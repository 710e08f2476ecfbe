// The symbols that are listed, and their order.
ghost use Rattle.std.specs.Prelude.{◌≡◌, IfOk, OnOk, map};
ghost use Rattle.glk_elf.specs.ReaderViews.{symbol_record};
ghost use Rattle.glk_nm.specs.Listing.{is_listed as is_listed_one, listed_symbols, IsInOrder, IsOrderedBy, falling, name_cmp};
ghost use Rattle.std.specs.Ordering.{nat_cmp};
ghost use Rattle.glk_nm.specs.declared.options.NmSort.TheVariants as by;

use crate::gabi::{STT_FILE, STT_SECTION, st_type};
use crate::options::NmSort;
use glk_base::OutOfMemory;
use glk_elf::{ElfSym, ElfView};
use std::alloc::Global;
use std::cmp::Reverse;

// Whether a symbol is listed.
pub(crate) fn is_listed(symbol: &ElfSym<'_>) -> bool
    ensures { result ≡ is_listed_one (symbol_record symbol.now) }
{
    !matches!(st_type(symbol), STT_SECTION | STT_FILE)
}

// The symbols that are listed, in the order of the symbol table.
fn listed_symbols<'a>(alloc: Global, view: &ElfView<'a>) -> Result<Vec<ElfSym<'a>>, OutOfMemory>
    ensures { IfOk result (λ rows. map symbol_record rows.items ≡ listed_symbols view.now) }
{
    let mut rows = Vec::new(alloc);
    for k in 0..view.symbols() {
        let symbol = view.symbol(k);
        if is_listed(&symbol) {
            rows.push(symbol)?;
        }
    }
    Ok(rows)
}

// Sorts symbols by their values.
fn sort_by_address(rows: &mut Vec<ElfSym<'_>>) -> Result<(), OutOfMemory>
    ensures { OnOk result (IsOrderedBy (λ symbol. symbol.value) nat_cmp
        (map symbol_record rows.old.items) (map symbol_record rows.new.items)) }
{
    rows.sort_by_key(|symbol| symbol.value)?;
    Ok(())
}

// Sorts symbols by their names.
fn sort_by_name(rows: &mut Vec<ElfSym<'_>>) -> Result<(), OutOfMemory>
    ensures { OnOk result (IsOrderedBy (λ symbol. symbol.name) name_cmp
        (map symbol_record rows.old.items) (map symbol_record rows.new.items)) }
{
    rows.sort_by_key(|symbol| symbol.name)?;
    Ok(())
}

// Sorts symbols by their sizes, the largest first.
fn sort_by_size(rows: &mut Vec<ElfSym<'_>>) -> Result<(), OutOfMemory>
    ensures { OnOk result (IsOrderedBy (λ symbol. symbol.size) falling
        (map symbol_record rows.old.items) (map symbol_record rows.new.items)) }
{
    rows.sort_by_key(|symbol| Reverse(symbol.size))?;
    Ok(())
}

// Puts symbols, which are in the order of the symbol table, into the order that is asked for.
fn sort_symbols(rows: &mut Vec<ElfSym<'_>>, sort: NmSort) -> Result<(), OutOfMemory>
    ensures { OnOk result (IsInOrder sort
        (map symbol_record rows.old.items) (map symbol_record rows.new.items)) }
{
    match sort {
        NmSort::Address => sort_by_address(rows),
        NmSort::Name => sort_by_name(rows),
        NmSort::Plain => Ok(()),
        NmSort::Size => sort_by_size(rows),
    }
}

// The symbols that are listed, in the order that is asked for.
pub(crate) fn sorted_symbols<'a>(
    alloc: Global,
    view: &ElfView<'a>,
    sort: NmSort,
) -> Result<Vec<ElfSym<'a>>, OutOfMemory>
    ensures { IfOk result (λ rows.
        IsInOrder sort (listed_symbols view.now) (map symbol_record rows.items)) }
{
    let mut rows = listed_symbols(alloc, view)?;
    sort_symbols(&mut rows, sort)?;
    Ok(rows)
}
