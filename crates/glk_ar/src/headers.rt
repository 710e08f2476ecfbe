// The member that some bytes begin with, and the rules that it keeps.
ghost use Rattle.std.specs.Prelude.{◌≡◌, ◌+◌, ◌*◌, ◌<◌, ◌≤◌, ℕ, List, length, IfOk, IfErr, MatchOption};
ghost use Rattle.std.specs.Str.Parse.{digits_value, AllDigits};
ghost use Rattle.glk_ar.specs.Member.{field_text, header_length, most_digits, name_of, size_of, body_of, IsMember, BreaksFirst, rule_offset};
ghost use Rattle.glk_ar.specs.Rules.{number_of};

/// The number of bytes of a member's header.
pub const HEADER_LENGTH: usize = 60;
/// The number of bytes of its first field, the name.
pub(crate) const NAME_WIDTH: usize = 16;
/// The number of bytes of the size, the last field.
pub(crate) const SIZE_WIDTH: usize = 10;
// Where the size begins.
const SIZE_OFFSET: usize = 48;
/// What a header ends with.
pub(crate) const HEADER_END: &[u8] = b"`\n";
// Where that end begins.
const END_OFFSET: usize = SIZE_OFFSET + SIZE_WIDTH;

// How the special names of System V begin, and its names that are in the body.
const SYSTEM_V_NAME: &[u8; 1] = b"/";
// How the names of BSD that are in the body begin.
const BSD_NAME: &[u8; 3] = b"#1/";

/// A rule that a member breaks, by its number.
#[derive(Clone, Copy, Debug, PartialEq, Eq)]
pub(crate) enum Rule {
    /// A2: there is no room for a header.
    Header = 2,
    /// A3: the header does not end as headers do.
    End = 3,
    /// A4: the size is no number.
    Size = 4,
    /// A5: the body goes past the end of the file.
    Body = 5,
    /// A6: the name is one of System V's or BSD's.
    Name = 6,
}

impl Rule {
    /// The number of the rule.
    pub(crate) fn number(self) -> u8
        ensures { result ≡ number_of self }
    {
        self as u8
    }

    /// Where the rule is broken, counted from the header.
    pub(crate) fn offset(self) -> u64
        ensures value { result ≡ rule_offset (number_of self) }
        ensures small { result ≤ header_length }
    {
        match self {
            Rule::Header | Rule::Name => 0,
            Rule::End => END_OFFSET as u64,
            Rule::Size => SIZE_OFFSET as u64,
            Rule::Body => HEADER_LENGTH as u64,
        }
    }
}

/// The member that some bytes begin with.
#[derive(Clone, Copy, Debug)]
pub(crate) struct ParsedMember<'a> {
    pub(crate) name: &'a [u8],
    pub(crate) body: &'a [u8],
}

// A field without the spaces at its end.
fn trim(field: &[u8]) -> &[u8]
    ensures { result.now ≡ field_text field.now }
{
    let mut n = field.len();
    while n > 0 && field[n - 1] == b' ' {
        n -= 1;
    }
    &field[..n]
}

// The number that decimal digits spell, or none where there is another byte among them.
fn decimal(digits: &[u8]) -> Option<u64>
    requires { length digits.now ≤ most_digits }
    ensures { MatchOption result (¬ AllDigits 10 digits.now)
        (λ n. AllDigits 10 digits.now × (n ≡ digits_value 10 digits.now)) }
{
    let mut n = 0u64;
    for d in digits {
        if *d < b'0' || *d > b'9' {
            return None;
        }
        n = n * 10 + (*d - b'0') as u64;
    }
    Some(n)
}

/// The member whose header begins the bytes, or the rule of least number that is broken there.
pub(crate) fn first_member(bytes: &[u8]) -> Result<ParsedMember<'_>, Rule>
    ensures member { IfOk result (λ _. IsMember bytes.now) }
    ensures name { IfOk result (λ member. member.name.now ≡ name_of bytes.now) }
    ensures body { IfOk result (λ member. member.body.now ≡ body_of bytes.now) }
    ensures size { IfOk result (λ member. length member.body.now ≡ size_of bytes.now) }
    ensures room { IfOk result (λ member. header_length + length member.body.now ≤ length bytes.now) }
    ensures err { IfErr result (λ rule. BreaksFirst bytes.now (number_of rule)) }
{
    if bytes.len() < HEADER_LENGTH {
        return Err(Rule::Header);
    }
    let (header, rest) = bytes.split_at(HEADER_LENGTH);
    if !header.ends_with(HEADER_END) {
        return Err(Rule::End);
    }
    let digits = trim(&header[SIZE_OFFSET..END_OFFSET]);
    if digits.is_empty() {
        return Err(Rule::Size);
    }
    let Some(size) = decimal(digits) else {
        return Err(Rule::Size);
    };
    let size = size as usize;
    if size > rest.len() {
        return Err(Rule::Body);
    }
    let name = trim(&header[..NAME_WIDTH]);
    if name.starts_with(SYSTEM_V_NAME) || name.starts_with(BSD_NAME) {
        return Err(Rule::Name);
    }
    Ok(ParsedMember {
        name,
        body: &rest[..size],
    })
}
