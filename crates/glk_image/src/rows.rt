// The rows of an image's symbol table.
ghost use Rattle.std.specs.Prelude.{◌≡◌, ◌<◌, ◌≤◌, ◌++◌, ◌∷◌, [], All, length, map, IfOk, OnOk, if◌then◌else◌};
ghost use Rattle.glk_elf.specs.Image.{names_length, row_names};
ghost use Rattle.glk_elf.specs.Placing.{symbol_types};
ghost use Rattle.glk_elf.specs.Views.{symbol_row};
ghost use Rattle.glk_elf.specs.Written.{names_of};
ghost use Rattle.glk_image.specs.Rows.{type_in, row_of as row_of_symbol, has_row, rows_bound, table_rows};

use glk_base::OutOfMemory;
use glk_elf::{Section, SymbolRow};
use std::alloc::Global;

/// A kept symbol, as its row is concerned. 40 bytes; the name is borrowed.
#[derive(Clone, Copy, Debug)]
pub struct Symbol<'a> {
    /// Its name. A symbol without one has no row.
    pub name: &'a [u8],
    /// Its address.
    pub value: u64,
    /// Its size in bytes.
    pub size: u64,
    /// The section in which it is.
    pub section: Section,
    /// Whether only its own object knows it.
    pub is_local: bool,
}

// The ELF types of symbols.
const STT_OBJECT: u8 = 1;

const STT_FUNC: u8 = 2;

const STT_TLS: u8 = 6;

// The ELF type of a symbol in a section.
fn type_in(section: Section) -> u8
    ensures value { result ≡ type_in section }
    ensures small { result < symbol_types }
{
    match section {
        Section::Text => STT_FUNC,
        Section::Tbss => STT_TLS,
        _ => STT_OBJECT,
    }
}

// The row of a symbol.
fn row_of<'a>(symbol: &Symbol<'a>) -> SymbolRow<'a>
    ensures row { symbol_row result ≡ row_of_symbol symbol.now }
    ensures kind { result.kind < symbol_types }
{
    SymbolRow {
        name: symbol.name,
        value: symbol.value,
        size: symbol.size,
        local: symbol.is_local,
        kind: type_in(symbol.section),
        section: symbol.section.number(),
    }
}

// Whether a symbol has a row, and with this binding.
fn has_row(symbol: &Symbol<'_>, local: bool) -> bool
    ensures { result ≡ has_row local (row_of_symbol symbol.now) }
{
    if symbol.name.is_empty() {
        return false;
    }
    if local {
        symbol.is_local
    } else {
        !symbol.is_local
    }
}

// Adds a row, or leaves it out.
fn push_if<'a>(
    rows: &mut Vec<SymbolRow<'a>>,
    row: SymbolRow<'a>,
    is_taken: bool,
) -> Result<(), OutOfMemory>
    ensures { OnOk result (rows.new.items ≡ rows.old.items ++ (if is_taken then row.entry ∷ [] else [])) }
{
    if is_taken {
        rows.push(row)?;
    }
    Ok(())
}

// Adds the rows of the symbols that have a name and this binding.
fn push_rows<'a>(
    rows: &mut Vec<SymbolRow<'a>>,
    symbols: &[Symbol<'a>],
    local: bool,
) -> Result<(), OutOfMemory>
    requires { All (λ row. row.kind < symbol_types) rows.old.items }
    ensures rows { OnOk result (map symbol_row rows.new.items
        ≡ map symbol_row rows.old.items ++ rows_bound local (map row_of_symbol symbols.now)) }
    ensures kinds { OnOk result (All (λ row. row.kind < symbol_types) rows.new.items) }
{
    let mut rest = symbols;
    while let [symbol, after @ ..] = rest {
        push_if(rows, row_of(symbol), has_row(symbol, local))?;
        rest = after;
    }
    Ok(())
}

/// The rows of a symbol table after the null row, for symbols in image order (by section, then by
/// load position) with the made names after them: the rows of the local symbols, then those of the
/// others, so the made names' last. With `strip` there are none. 40 bytes a symbol, and two passes
/// over the symbols.
///
/// # Errors
/// Out of memory.
pub fn symbol_rows<'a>(
    alloc: Global,
    symbols: &[Symbol<'a>],
    strip: bool,
) -> Result<Vec<SymbolRow<'a>>, OutOfMemory>
    ensures rows { IfOk result (λ rows. map symbol_row rows.items
        ≡ table_rows strip (map row_of_symbol symbols.now)) }
    ensures kinds { IfOk result (λ rows. All (λ row. row.kind < symbol_types) rows.items) }
    ensures count { IfOk result (λ rows. length rows.items ≤ length symbols.now) }
    ensures names { IfOk result (λ rows. names_length (names_of rows.items)
        ≤ names_length (row_names (map row_of_symbol symbols.now))) }
{
    if strip {
        return Ok(Vec::new(alloc));
    }
    let mut rows = Vec::with_capacity(alloc, symbols.len())?;
    push_rows(&mut rows, symbols, true)?;
    push_rows(&mut rows, symbols, false)?;
    Ok(rows)
}
