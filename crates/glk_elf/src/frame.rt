// All of an image but the bytes of its sections.
ghost use Rattle.std.specs.Prelude.{◌≡◌, ◌+◌, ◌<◌, ◌≤◌, All, map, length};
ghost use Rattle.glk_elf.specs.ReaderLaw.{FitsFields, FitsSymbolFields};
ghost use Rattle.glk_elf.specs.Written.{names_of};
ghost use Rattle.glk_elf.specs.Sections.{noptrbss};
ghost use Rattle.glk_elf.specs.Image.{names_length};
ghost use Rattle.glk_elf.specs.Placing.{ArePlaced, IsPlaced, of_section, address_limit, row_limit, names_limit, symbol_types};
ghost use Rattle.glk_elf.specs.Views.{blank_view, symbol_row};

use super::sections::PLACED_SECTIONS;

/// A row of the symbol table: its name, its binding (local or global), its ELF type, the number
/// of its section, its address and its size in bytes. 40 bytes; the name is borrowed.
#[derive(Clone, Copy, Debug, Drop)]
pub struct SymbolRow<'a> {
    pub name: &'a [u8],
    pub value: u64,
    pub size: u64,
    pub local: bool,
    pub kind: u8,
    pub section: u8,
}

/// All of an image but the bytes of its sections: the address of its entry, the sizes in bytes and
/// the addresses of its eleven sections in the order of their numbers, and the rows of its symbol
/// table after the null row.
#[derive(Clone, Copy, Debug, Drop)]
pub struct Frame<'a> {
    pub entry: u64,
    pub sizes: [u64; PLACED_SECTIONS],
    pub addrs: [u64; PLACED_SECTIONS],
    pub rows: &'a [SymbolRow<'a>],
}

// The numbers of a row fit the fields of its symbol, as their types say.
fn row_fits(row: &SymbolRow<'_>)
    ensures { FitsSymbolFields (symbol_row row.now) }
{
    let _section = row.section;
    let _value = row.value;
    let _size = row.size;
}

// The same of all rows. There is nothing to do for it.
fn rows_fit(rows: &[SymbolRow<'_>])
    ensures { All (λ row. FitsSymbolFields (symbol_row row)) rows.now }
{
    for row in rows {
        row_fits(row);
    }
}

impl<'a> Frame<'a> {
    /// The frame of an image whose sections have these sizes and addresses, both in the order of the
    /// sections' numbers, and whose symbol table has these rows. Its numbers fit the fields of the
    /// file. Takes no memory.
    pub fn new(
        entry: u64,
        sizes: &[u64; PLACED_SECTIONS],
        addrs: &[u64; PLACED_SECTIONS],
        rows: &'a [SymbolRow<'a>],
    ) -> Frame<'a>
        requires places { ArePlaced sizes.now addrs.now }
        requires limit { of_section addrs.now noptrbss + of_section sizes.now noptrbss ≤ address_limit }
        requires kinds { All (λ row. row.kind < symbol_types) rows.now }
        requires few { length rows.now ≤ row_limit }
        requires names { names_length (names_of rows.now) ≤ names_limit }
        ensures entry { result.entry ≡ entry }
        ensures sizes { result.sizes ≡ sizes.now }
        ensures addrs { result.addrs ≡ addrs.now }
        ensures rows { result.rows.now ≡ rows.now }
        ensures placed { IsPlaced (blank_view result) }
        ensures fields { FitsFields (blank_view result) }
    {
        rows_fit(rows);
        Frame {
            entry,
            sizes: *sizes,
            addrs: *addrs,
            rows,
        }
    }
}
