// Numbers in hexadecimal digits.
ghost use Rattle.std.specs.Prelude.{◌≡◌, ◌<◌, false, length, drop};
ghost use Rattle.std.specs.Fmt.{digit_glyph};
ghost use Rattle.glk_nm.specs.Lines.{hexadecimal as hexadecimal_of};

// How many hexadecimal digits a number may have.
pub(crate) const HEX_DIGITS: usize = 16;

// A hexadecimal digit.
fn hex_digit(digit: u64) -> u8
    requires { digit < 16 }
    ensures { result ≡ digit_glyph false digit }
{
    if digit < 10 {
        b'0' + digit as u8
    } else {
        b'a' - 10 + digit as u8
    }
}

// Writes the digits of a number at the end of the room, and answers where they begin.
fn write_digits(number: u64, room: &mut [u8; HEX_DIGITS]) -> usize
    ensures inside { result < length room.new }
    ensures digits { drop result room.new ≡ hexadecimal_of number }
{
    let mut rest = number;
    let mut start = HEX_DIGITS - 1;
    room[start] = hex_digit(rest % 16);
    while rest >= 16 {
        rest /= 16;
        start -= 1;
        room[start] = hex_digit(rest % 16);
    }
    start
}

// A number in hexadecimal digits.
pub(crate) fn hexadecimal(number: u64, room: &mut [u8; HEX_DIGITS]) -> &[u8]
    ensures { result.now ≡ hexadecimal_of number }
{
    let start = write_digits(number, room);
    &room[start..]
}
