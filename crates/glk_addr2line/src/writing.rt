// A function with a file and a line, as it is printed.
ghost use Rattle.std.specs.Fmt.{signed_decimal};
ghost use Rattle.std.specs.Prelude.{◌++◌, codes};
ghost use Rattle.glk_pending.specs.Writing.{WritesAfter};
ghost use Rattle.glk_addr2line.specs.Texts.{pair_text, unknown_text};

use glk_io::{Failed, Sink};
use glk_pending::Pending;
use itoa::Buffer;

// Writes a function, a file and the digits of a line.
fn write_words<'a, O: Sink>(
    name: &'a [u8],
    file: &'a [u8],
    line: &'a [u8],
    pending: &mut Pending,
    out: &mut O,
) -> Result<(), Failed>
    ensures { WritesAfter (O.state out.old) (O.state out.new) pending.old pending.new
        (name.now ++ codes "\n" ++ file.now ++ codes ":" ++ line.now ++ codes "\n") result }
{
    pending.write_each(&[name, b"\n", file, b":", line, b"\n"], out)
}

// Writes a function, a file and a line.
#[tactic(auto, unfolding(crate::specs::Texts::pair_text))]
pub(crate) fn write_pair<O: Sink>(
    name: &[u8],
    file: &[u8],
    line: i32,
    pending: &mut Pending,
    out: &mut O,
) -> Result<(), Failed>
    ensures { WritesAfter (O.state out.old) (O.state out.new) pending.old pending.new
        (pair_text name.now file.now line) result }
{
    let mut room = Buffer::new();
    write_words(name, file, room.format(line).as_bytes(), pending, out)
}

// Writes that there is no function.
pub(crate) fn write_unknown<O: Sink>(pending: &mut Pending, out: &mut O) -> Result<(), Failed>
    ensures { WritesAfter (O.state out.old) (O.state out.new) pending.old pending.new unknown_text result }
{
    pending.write(b"?\n?:0\n", out)
}
