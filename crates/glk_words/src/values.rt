// The values that flags take.
ghost use Rattle.std.specs.Prelude.{◌≡◌};
ghost use Rattle.std.specs.Str.{all_ascii_digits};
ghost use Rattle.glk_words.specs.Values.{found_in, truth_of, number_of as number_by, is_spelled as is_one_spelling, is_up_to as is_within, sorts};

/// The most threads that work at once.
pub const WORKER_LIMIT: u64 = 64;

/// The order in which nm lists symbols.
#[derive(Clone, Copy, Debug, PartialEq, Eq)]
pub enum SymbolOrder {
    Address,
    Name,
    /// As in the symbol table.
    Table,
    /// The largest first.
    Size,
}

/// A truth value, as Go's `strconv.ParseBool` reads it.
#[tactic(auto, unfolding(crate::specs::Values::truth_of))]
pub fn truth(text: &str) -> Option<bool>
    ensures { result ≡ truth_of text.now }
{
    match text {
        "1" | "t" | "T" | "TRUE" | "true" | "True" => Some(true),
        "0" | "f" | "F" | "FALSE" | "false" | "False" => Some(false),
        _ => None,
    }
}

/// A number below 2^64 in its one spelling: digits, without a sign or a zero before others.
#[tactic(auto, unfolding(crate::specs::Values::number_of))]
pub fn number(text: &str) -> Option<u64>
    ensures { result ≡ number_by text.now }
{
    if !is_spelled(text.as_bytes()) {
        return None;
    }
    match text.parse::<u64>() {
        Ok(n) => Some(n),
        Err(_) => None,
    }
}

// Whether this is the one spelling of a number.
#[tactic(auto, unfolding(crate::specs::Values::is_spelled))]
fn is_spelled(text: &[u8]) -> bool
    ensures { result ≡ is_one_spelling text.now }
{
    if text.is_empty() || (text[0] == b'0' && text.len() > 1) {
        return false;
    }
    are_digits(text)
}

// Whether all bytes are digits.
fn are_digits(text: &[u8]) -> bool
    ensures { result ≡ all_ascii_digits text.now }
{
    for b in text {
        if !b.is_ascii_digit() {
            return false;
        }
    }
    true
}

/// Whether there is a number, from 1 to the bound.
pub fn is_up_to(most: u64, number: Option<u64>) -> bool
    ensures { result ≡ is_within most number }
{
    match number {
        Some(n) => 1 <= n && n <= most,
        None => false,
    }
}

/// An order of symbols, by its name.
pub fn order_named(name: &str) -> Option<SymbolOrder>
    ensures { result ≡ found_in sorts name.now }
{
    match name {
        "address" => Some(SymbolOrder::Address),
        "name" => Some(SymbolOrder::Name),
        "none" => Some(SymbolOrder::Table),
        "size" => Some(SymbolOrder::Size),
        _ => None,
    }
}
