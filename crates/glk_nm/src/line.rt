// A line of the text.
ghost use Rattle.std.specs.Prelude.{◌≡◌, ◌≤◌};
ghost use Rattle.glk_elf.specs.ReaderViews.{symbol_record};
ghost use Rattle.glk_nm.specs.Lines.{blanks_before as blanks_of, address_text as address_text_of, address_field, size_field, words_of, line_of};
ghost use Rattle.glk_pending.specs.Writing.{WritesAfter};

use crate::gabi::SHN_UNDEF;
use crate::hexadecimal::{HEX_DIGITS, hexadecimal};
use crate::letter::letter_of;
use glk_elf::{ElfSym, ElfView};
use glk_io::{Failed, Sink};
use glk_pending::Pending;
use itoa::Buffer;

// How many places the address has.
const ADDRESS_WIDTH: usize = 8;

// How many places the size has.
const SIZE_WIDTH: usize = 10;

const BLANKS: [u8; 16] = *b"                ";

// The blanks before a text that is right in a field of this width.
fn blanks_before(width: usize, text: &[u8]) -> &'static [u8]
    requires { width ≤ 16 }
    ensures { result.now ≡ blanks_of width text.now }
{
    &BLANKS[..width.saturating_sub(text.len())]
}

// The address of a symbol, where it is defined.
fn address_text<'a>(symbol: &ElfSym<'_>, room: &'a mut [u8; HEX_DIGITS]) -> &'a [u8]
    ensures { result.now ≡ address_text_of (symbol_record symbol.now) }
{
    if symbol.section == SHN_UNDEF {
        b""
    } else {
        hexadecimal(symbol.value, room)
    }
}

// Writes the address of a symbol.
fn write_address<O: Sink>(
    symbol: &ElfSym<'_>,
    pending: &mut Pending,
    out: &mut O,
) -> Result<(), Failed>
    ensures { WritesAfter (O.state out.old) (O.state out.new) pending.old pending.new
        (address_field (symbol_record symbol.now)) result }
{
    let mut room = [0; HEX_DIGITS];
    let address = address_text(symbol, &mut room);
    pending.write_each(&[blanks_before(ADDRESS_WIDTH, address), address], out)
}

// Writes the size of a symbol, where it is asked for.
fn write_size<O: Sink>(
    with_size: bool,
    symbol: &ElfSym<'_>,
    pending: &mut Pending,
    out: &mut O,
) -> Result<(), Failed>
    ensures { WritesAfter (O.state out.old) (O.state out.new) pending.old pending.new
        (size_field with_size (symbol_record symbol.now)) result }
{
    if !with_size {
        return Ok(());
    }
    let mut room = Buffer::new();
    let size = room.format(symbol.size).as_bytes();
    pending.write_each(&[b" ", blanks_before(SIZE_WIDTH, size), size], out)
}

// Writes a letter and a name, each after a blank, and the line's end.
fn write_words<'a, O: Sink>(
    letter: &'a [u8],
    name: &'a [u8],
    pending: &mut Pending,
    out: &mut O,
) -> Result<(), Failed>
    ensures { WritesAfter (O.state out.old) (O.state out.new) pending.old pending.new
        (words_of letter.now name.now) result }
{
    pending.write_each(&[b" ", letter, b" ", name, b"\n"], out)
}

// Writes the line of a symbol.
pub(crate) fn write_line<O: Sink>(
    view: &ElfView<'_>,
    with_size: bool,
    symbol: &ElfSym<'_>,
    pending: &mut Pending,
    out: &mut O,
) -> Result<(), Failed>
    ensures { WritesAfter (O.state out.old) (O.state out.new) pending.old pending.new
        (line_of view.now with_size (symbol_record symbol.now)) result }
{
    write_address(symbol, pending, out)?;
    write_size(with_size, symbol, pending, out)?;
    write_words(letter_of(view, symbol), symbol.name, pending, out)
}
