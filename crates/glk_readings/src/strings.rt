// The strings of types.
ghost use Rattle.std.specs.Prelude.{◌≡◌, ◌<◌};
ghost use Rattle.glk_readings.specs.Readings.{extra_star_read as extra_star_reading, type_string_read as type_string_reading};
ghost use Rattle.glk_readings.specs.Views.{name_view};

use crate::references::{NAME_RULE, name_read};
use crate::symbols::Symbols;
use crate::unreadable::{Unreadable, broken};
use glk_types::abi::TYPE_STR;
use glk_types::{extra_star, type_string};

// Y1: whether the first byte of the string of a type is a star that is not the type's.
#[tactic(auto, unfolding(crate::specs::Readings::extra_star_read))]
fn extra_star_read<S: Symbols>(symbols: &S, key: u32) -> Result<bool, Unreadable>
    requires { key < (S.table symbols.now).keys }
    ensures { result ≡ extra_star_reading (S.table symbols.now) key }
{
    match extra_star(symbols.data(key)) {
        Ok(star) => Ok(star),
        Err(bad) => Err(broken(key, bad)),
    }
}

/// The string of the type that is a key.
///
/// # Errors
/// Y1 at the data's length; Y6 or Y7 at the type's field for it; or the name's symbol has no
/// definition.
#[tactic(auto, unfolding(crate::specs::Readings::type_string_read))]
pub fn type_string_read<S: Symbols>(symbols: &S, key: u32) -> Result<&[u8], Unreadable>
    requires { key < (S.table symbols.now).keys }
    ensures { name_view result ≡ type_string_reading (S.table symbols.now) key }
{
    let star = extra_star_read(symbols, key)?;
    let name = name_read(symbols, key, TYPE_STR)?;
    match type_string(name, star) {
        Some(string) => Ok(string),
        None => Err(Unreadable::Breaks {
            holder: key,
            rule: NAME_RULE,
            offset: TYPE_STR,
        }),
    }
}
