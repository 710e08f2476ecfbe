// The text of an image's symbols, written to a sink.
ghost use Rattle.std.specs.Prelude.{◌≡◌, [], ◌∷◌, filter, map};
ghost use Rattle.glk_io.specs.Changes.{WritesText};
ghost use Rattle.glk_elf.specs.ReaderViews.{symbol_record};
ghost use Rattle.glk_nm.specs.Answers.{WritesSymbols, with_fault};
ghost use Rattle.glk_nm.specs.Listing.{is_listed as is_listed_one, listed_symbols, lines_of};
ghost use Rattle.glk_pending.specs.Writing.{WritesAfter};

use crate::line::write_line;
use crate::listing::{is_listed, sorted_symbols};
use crate::options::{NmOptions, NmSort};
use glk_base::Fault;
use glk_elf::{ElfSym, ElfView};
use glk_io::{Failed, Sink};
use glk_pending::Pending;
use std::alloc::Global;

/// Writes the lines of an image's symbols, all but those that stand for a section or a source file.
/// A line has the address in hexadecimal, right in 8 places, or blanks where the symbol is not
/// defined; where it is asked for, a blank and the size, right in 10 places; and then the symbol's
/// letter and its name, each after a blank.
///
/// The letter tells of the symbol's section: `U` where it is not defined, `B` for memory without
/// bytes in the file, `T` for code, `D` for data, `R` for what is only read, else `?`. A local symbol
/// has the small letter, or `_`.
///
/// All memory is taken before the first write. In the order of the table no symbol is copied.
///
/// # Errors
/// `Failed`: a prefix of the lines was written, and the sink's count of faults rose. Out of memory:
/// nothing was written.
pub fn nm<O: Sink>(
    alloc: Global,
    view: &ElfView<'_>,
    opts: &NmOptions,
    out: &mut O,
) -> Result<(), Fault<Failed>>
    ensures { WritesSymbols (O.state out.old) (O.state out.new) opts.now view.now result }
{
    match opts.sort {
        NmSort::Plain => {
            let pending = Pending::new(alloc)?;
            as_answer(print_table(view, opts.size, pending, out))
        }
        sort => {
            let rows = sorted_symbols(alloc, view, sort)?;
            let pending = Pending::new(alloc)?;
            as_answer(print_lines(view, opts.size, &rows, pending, out))
        }
    }
}

// The same answer, where a call may also be out of memory.
fn as_answer(written: Result<(), Failed>) -> Result<(), Fault<Failed>>
    ensures { result ≡ with_fault written }
{
    match written {
        Ok(()) => Ok(()),
        Err(failed) => Err(Fault::Bad(failed)),
    }
}

// Writes the lines of the symbol table.
fn print_table<O: Sink>(
    view: &ElfView<'_>,
    with_size: bool,
    mut pending: Pending,
    out: &mut O,
) -> Result<(), Failed>
    requires { pending ≡ [] }
    ensures { WritesText (O.state out.old) (O.state out.new)
        (lines_of view.now with_size (listed_symbols view.now)) result }
{
    write_table(view, with_size, &mut pending, out)?;
    pending.flush(out)
}

// Writes the lines of these symbols.
fn print_lines<O: Sink>(
    view: &ElfView<'_>,
    with_size: bool,
    rows: &[ElfSym<'_>],
    mut pending: Pending,
    out: &mut O,
) -> Result<(), Failed>
    requires { pending ≡ [] }
    ensures { WritesText (O.state out.old) (O.state out.new)
        (lines_of view.now with_size (map symbol_record rows.now)) result }
{
    write_lines(view, with_size, rows, &mut pending, out)?;
    pending.flush(out)
}

// Writes the lines of the symbol table, whose end may be pending.
fn write_table<O: Sink>(
    view: &ElfView<'_>,
    with_size: bool,
    pending: &mut Pending,
    out: &mut O,
) -> Result<(), Failed>
    ensures { WritesAfter (O.state out.old) (O.state out.new) pending.old pending.new
        (lines_of view.now with_size (listed_symbols view.now)) result }
{
    for k in 0..view.symbols() {
        let symbol = view.symbol(k);
        write_listed(view, with_size, &symbol, pending, out)?;
    }
    Ok(())
}

// Writes the line of a symbol, where it is listed.
fn write_listed<O: Sink>(
    view: &ElfView<'_>,
    with_size: bool,
    symbol: &ElfSym<'_>,
    pending: &mut Pending,
    out: &mut O,
) -> Result<(), Failed>
    ensures { WritesAfter (O.state out.old) (O.state out.new) pending.old pending.new
        (lines_of view.now with_size (filter is_listed_one (symbol_record symbol.now ∷ []))) result }
{
    if is_listed(symbol) {
        write_line(view, with_size, symbol, pending, out)
    } else {
        Ok(())
    }
}

// Writes the lines of these symbols, whose end may be pending.
fn write_lines<O: Sink>(
    view: &ElfView<'_>,
    with_size: bool,
    rows: &[ElfSym<'_>],
    pending: &mut Pending,
    out: &mut O,
) -> Result<(), Failed>
    ensures { WritesAfter (O.state out.old) (O.state out.new) pending.old pending.new
        (lines_of view.now with_size (map symbol_record rows.now)) result }
{
    for symbol in rows {
        write_line(view, with_size, symbol, pending, out)?;
    }
    Ok(())
}
