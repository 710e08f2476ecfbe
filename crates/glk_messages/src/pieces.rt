// The pieces of a message, and the one writer of its line. Writing takes no memory.
ghost use Rattle.std.specs.Prelude.{◌≡◌};
ghost use Rattle.std.specs.List.{concat};
ghost use Rattle.hex.specs.Hex.{encode_lower};
ghost use Rattle.glk_io.specs.Changes.{WritesText};
ghost use Rattle.glk_messages.specs.Lines.{line_of, ReportsLine};
ghost use Rattle.glk_messages.specs.Pieces.{spelled_piece, spelled_pieces};

use glk_base::Text;
use glk_io::{Failed, Sink, write_all};
use hex::encode_to_slice;
use itoa::Buffer;

// How each line begins.
const NAME: &[u8] = b"golink: ";

// How it ends.
const END: &[u8] = b"\n";

// A piece of a message.
#[derive(Clone, Copy)]
pub(crate) enum Piece<'a> {
    Words(&'a [u8]),
    Name(&'a Text),
    // Numbers in decimal digits.
    Byte(u8),
    Count(u32),
    Number(u64),
    Signed(&'a i128),
    // A fingerprint in hexadecimal digits.
    Fingerprint([u8; 8]),
}

// Writes the line with these pieces, or a prefix of it where the sink fails. A fault of the sink
// changes nothing else.
pub(crate) fn write_line<S: Sink>(sink: &mut S, pieces: &[Piece<'_>])
    ensures { ReportsLine (S.state sink.old) (S.state sink.new) (line_of (spelled_pieces pieces.now)) }
{
    let _ = try_line(sink, pieces);
}

// The same, with whether it was written whole.
fn try_line<S: Sink>(sink: &mut S, pieces: &[Piece<'_>]) -> Result<(), Failed>
    ensures { WritesText (S.state sink.old) (S.state sink.new) (line_of (spelled_pieces pieces.now)) result }
{
    write_all(sink, NAME)?;
    write_each(sink, pieces)?;
    write_all(sink, END)
}

// Writes these pieces, one after the other.
fn write_each<S: Sink>(sink: &mut S, pieces: &[Piece<'_>]) -> Result<(), Failed>
    ensures { WritesText (S.state sink.old) (S.state sink.new) (concat (spelled_pieces pieces.now)) result }
{
    for piece in pieces {
        write_piece(sink, piece)?;
    }
    Ok(())
}

// Writes a piece.
fn write_piece<S: Sink>(sink: &mut S, piece: &Piece<'_>) -> Result<(), Failed>
    ensures { WritesText (S.state sink.old) (S.state sink.new) (spelled_piece piece.now) result }
{
    let mut room = Buffer::new();
    match piece {
        Piece::Words(words) => write_all(sink, words),
        Piece::Name(name) => write_all(sink, name.as_bytes()),
        Piece::Byte(number) => write_all(sink, room.format(*number).as_bytes()),
        Piece::Count(number) => write_all(sink, room.format(*number).as_bytes()),
        Piece::Number(number) => write_all(sink, room.format(*number).as_bytes()),
        Piece::Signed(number) => write_all(sink, room.format(**number).as_bytes()),
        Piece::Fingerprint(fingerprint) => write_all(sink, &digits_of(*fingerprint)),
    }
}

// A fingerprint in hexadecimal.
fn digits_of(fingerprint: [u8; 8]) -> [u8; 16]
    ensures { result ≡ encode_lower fingerprint }
{
    let mut digits = [0; 16];
    // Two digits for each byte fit exactly.
    let _ = encode_to_slice(fingerprint, &mut digits);
    digits
}
