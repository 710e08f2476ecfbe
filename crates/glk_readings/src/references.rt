// What relocations refer to.
ghost use Rattle.std.specs.Prelude.{◌≡◌, ◌<◌, IfOk};
ghost use Rattle.glk_types.specs.Names.{name_at as name_in};
ghost use Rattle.glk_readings.specs.Views.{name_view};
ghost use Rattle.glk_readings.specs.Readings.{name_rule, read_at, defined_read as defined_reading, symbol_read as symbol_reading, reference_read as reference_reading, target_read as target_reading, name_read as name_reading};
ghost use Rattle.glk_readings.specs.Symbols.{IsKeyBelow, IsWithin};

use crate::symbols::{Relocation, Symbols, TargetSymbol};
use crate::unreadable::Unreadable;
use glk_types::name;

// Y6: a relocation with a target is missing where one is read.
const NO_TARGET_RULE: u8 = 6;

/// Y7: a name ends outside the data, or a type has no string.
pub(crate) const NAME_RULE: u8 = 7;

/// The key of a symbol that the holder refers to.
///
/// # Errors
/// `Lacks`: the symbol has no definition, or is missing.
pub fn defined_read<S: Symbols>(
    symbols: &S,
    holder: u32,
    target: TargetSymbol,
) -> Result<u32, Unreadable>
    requires { IsKeyBelow (S.table symbols.now).keys target }
    ensures value { result ≡ defined_reading (S.table symbols.now) holder target }
    ensures within { IfOk result (λ t. t < (S.table symbols.now).keys) }
{
    match target {
        TargetSymbol::Key(key) => {
            if !symbols.is_defined(key) {
                return Err(Unreadable::Lacks { holder, target });
            }
            Ok(key)
        }
        TargetSymbol::Missing { .. } => Err(Unreadable::Lacks { holder, target }),
    }
}

// The key of the target of a relocation at an offset of the holder.
fn symbol_read<S: Symbols>(
    symbols: &S,
    holder: u32,
    offset: u32,
    target: Option<TargetSymbol>,
) -> Result<u32, Unreadable>
    requires { IsWithin (S.table symbols.now).keys target }
    ensures value { result ≡ symbol_reading (S.table symbols.now) holder offset target }
    ensures within { IfOk result (λ t. t < (S.table symbols.now).keys) }
{
    match target {
        Some(symbol) => defined_read(symbols, holder, symbol),
        None => Err(Unreadable::Breaks {
            holder,
            rule: NO_TARGET_RULE,
            offset,
        }),
    }
}

// Y6: the relocation at an offset of a key.
#[tactic(auto, unfolding(crate::specs::Readings::reference_read))]
fn reference_read<S: Symbols>(symbols: &S, key: u32, offset: u32) -> Result<Relocation, Unreadable>
    requires { key < (S.table symbols.now).keys }
    ensures value { result ≡ reference_reading (S.table symbols.now) key offset }
    ensures within { IfOk result (λ reloc. IsWithin (S.table symbols.now).keys reloc.target) }
{
    match symbols.reloc_at(key, offset) {
        Some(reloc) => Ok(reloc),
        None => Err(Unreadable::Breaks {
            holder: key,
            rule: NO_TARGET_RULE,
            offset,
        }),
    }
}

/// The key that a key refers to at an offset of its data.
///
/// # Errors
/// Y6 at the offset; or the target has no definition.
#[tactic(auto, unfolding(crate::specs::Readings::target_read))]
pub fn target_read<S: Symbols>(symbols: &S, key: u32, offset: u32) -> Result<u32, Unreadable>
    requires { key < (S.table symbols.now).keys }
    ensures value { result ≡ target_reading (S.table symbols.now) key offset }
    ensures within { IfOk result (λ t. t < (S.table symbols.now).keys) }
{
    let reloc = reference_read(symbols, key, offset)?;
    symbol_read(symbols, key, offset, reloc.target)
}

// The name in the data of a symbol at an addend, to which the holder refers at an offset.
fn name_at<'a, S: Symbols>(
    symbols: &'a S,
    target: u32,
    addend: i64,
    holder: u32,
    offset: u32,
) -> Result<&'a [u8], Unreadable>
    requires { target < (S.table symbols.now).keys }
    ensures { name_view result
        ≡ read_at holder name_rule offset (name_in ((S.table symbols.now).content target) addend) }
{
    match name(symbols.data(target), addend) {
        Some(found) => Ok(found),
        None => Err(Unreadable::Breaks {
            holder,
            rule: NAME_RULE,
            offset,
        }),
    }
}

/// The name that a key refers to at an offset of its data.
///
/// # Errors
/// Y6 or Y7 at the offset; or the name's symbol has no definition.
#[tactic(auto, unfolding(crate::specs::Readings::name_read))]
pub fn name_read<S: Symbols>(symbols: &S, key: u32, offset: u32) -> Result<&[u8], Unreadable>
    requires { key < (S.table symbols.now).keys }
    ensures { name_view result ≡ name_reading (S.table symbols.now) key offset }
{
    let reloc = reference_read(symbols, key, offset)?;
    let target = symbol_read(symbols, key, offset, reloc.target)?;
    name_at(symbols, target, reloc.addend, key, offset)
}
