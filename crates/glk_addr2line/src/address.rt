// Lines that are addresses.
ghost use Rattle.std.specs.Prelude.{◌≡◌, ◌≤◌, length, if◌then◌else◌, Some, None};
ghost use Rattle.std.specs.Str.Parse.{digits_value};
ghost use Rattle.glk_addr2line.specs.Addresses.{are_digits, number_of as number_by, without_prefix as line_without_prefix, address_of as address_by};

// How many digits an address may have.
const MOST_DIGITS: usize = 16;

// The number that so many hexadecimal digits write, if all of them are.
fn digits_value(digits: &[u8]) -> Option<u64>
    requires { length digits.now ≤ 16 }
    ensures { result ≡ (if are_digits digits.now then Some (digits_value 16 digits.now) else None) }
{
    let mut value = 0;
    for digit in digits {
        match char::from(*digit).to_digit(16) {
            Some(digit) => value = value * 16 + u64::from(digit),
            None => return None,
        }
    }
    Some(value)
}

// The number that 1 to 16 hexadecimal digits write.
#[tactic(auto, unfolding(crate::specs::Addresses::number_of))]
fn number_of(digits: &[u8]) -> Option<u64>
    ensures { result ≡ number_by digits.now }
{
    if digits.is_empty() || digits.len() > MOST_DIGITS {
        return None;
    }
    digits_value(digits)
}

// A line without the `0x` that it may begin with.
#[tactic(auto, unfolding(crate::specs::Addresses::without_prefix))]
fn without_prefix(line: &[u8]) -> &[u8]
    ensures { result.now ≡ line_without_prefix line.now }
{
    if line.starts_with(b"0x") {
        &line[2..]
    } else {
        line
    }
}

// The address that a line is, if it is one.
pub(crate) fn address_of(line: &[u8]) -> Option<u64>
    ensures { result ≡ address_by line.now }
{
    number_of(without_prefix(line))
}
