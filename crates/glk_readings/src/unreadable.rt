// Why a reading finds nothing.
ghost use Rattle.std.specs.Prelude.{◌≡◌};
ghost use Rattle.glk_types.specs.Faults.{fault_of};
ghost use Rattle.glk_readings.specs.Readings.{broken_by};

use crate::symbols::TargetSymbol;
use glk_types::TypeBad;

/// Why a reading finds nothing.
#[derive(Clone, Copy, Debug, PartialEq, Eq)]
pub enum Unreadable {
    /// Data break a rule of type data.
    Breaks {
        /// The key of the symbol in which the offset counts.
        holder: u32,
        /// The rule's number, 1 to 8 for Y1 to Y8.
        rule: u8,
        /// The offset that the rule reports.
        offset: u32,
    },
    /// A symbol that is referred to has no definition.
    Lacks {
        /// The key of the symbol whose relocation refers to it.
        holder: u32,
        /// What has no definition.
        target: TargetSymbol,
    },
}

// The data of the holder break this rule.
pub(crate) fn broken(holder: u32, bad: TypeBad) -> Unreadable
    ensures { result ≡ broken_by holder (fault_of bad) }
{
    Unreadable::Breaks {
        holder,
        rule: bad.rule,
        offset: bad.offset,
    }
}
