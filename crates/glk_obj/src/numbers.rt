// The numbers that relocations have for their kinds.
ghost use Rattle.std.specs.Prelude.{◌≡◌, ◌<◌, ◌≤◌, ◌↔◌, ℕ, length, slice_index, Some, false, OnOk, IfOk, IfErr, MatchOption};
ghost use Rattle.glk_base.specs.Lines.{lines, trimmed_line, is_skipped as skipped, AllGood, IsFirstBad};
ghost use Rattle.glk_obj.specs.declared.kinds.RelocKind.{RelocKind};
ghost use Rattle.glk_obj.specs.NumberSteps.{Takes, IsKindNamed, IsEntryOf};
ghost use Rattle.glk_obj.specs.Numbers.{number_in, kind_of, Gives, IsGood, IsStandard, IsListed, HasNoOthers};

use crate::kinds::{KINDS, RelocKind};
use glk_base::ConfigLine;
use glk_base::lines::{after_word, cut_line, first_word, is_skipped, small_number, trim};

// The greatest number of a kind.
const GREATEST: u16 = 32767;

/// Which number means which kind of relocation. The numbers are those of the compiler, so another
/// table serves the objects of another one. A kind has at most one number, and no number has two
/// kinds.
#[derive(Clone, Copy, Debug)]
pub struct Numbers {
    /// The number of each kind, in the order of `RelocKind`; 0 where a kind has none.
    numbers: [u16; KINDS],
}

// The kind of this name.
fn kind_named(name: &[u8]) -> Option<RelocKind>
    ensures { IsKindNamed name.now result }
{
    for index in 0..KINDS {
        let kind = RelocKind::at(index);
        if kind.name() == name {
            return Some(kind);
        }
    }
    None
}

// The kind and the number that a line gives, which has no blanks at its ends and isn't skipped.
fn entry(line: &[u8]) -> Option<(RelocKind, u16)>
    requires { skipped line.now ≡ false }
    ensures { IsEntryOf line.now result }
{
    let kind = kind_named(first_word(line))?;
    let number = small_number(after_word(line))?;
    if number == 0 {
        return None;
    }
    if GREATEST < number {
        return None;
    }
    Some((kind, number))
}

impl Numbers {
    /// The numbers where no file lists others: ADDR 1, CALL 2, PCREL 3,
    /// ADDROFF 4, METHODOFF 5, TLS_LE 6, USEIFACE 7, USEIFACEMETHOD 8, USENAMEDMETHOD 9, USETYPE 10,
    /// INITORDER 11, CALLIND 12, KEEP 13, IGNORE 14.
    #[tactic(auto, unfolding(crate::specs::Numbers::kind_of))]
    pub fn standard() -> Numbers
        ensures kinds { IsStandard result }
        ensures size { length result.numbers ≡ 14 }
    {
        Numbers {
            numbers: [1, 2, 3, 4, 5, 6, 7, 8, 9, 10, 11, 12, 13, 14],
        }
    }

    /// The numbers that a file lists. Each line has the name of a kind, spaces,
    /// and a number from 1 to 32767 in decimal; blanks at its ends don't count, and empty lines and
    /// lines that begin with `#` are skipped. A line that gives a name or a number which an
    /// earlier line has given is bad. A kind that is not listed has no number.
    ///
    /// # Errors
    ///
    /// The number of the first bad line, from 1.
    pub fn parse(text: &[u8]) -> Result<Numbers, ConfigLine>
        ensures good { OnOk result (AllGood (lines text.now) (IsGood (lines text.now))) }
        ensures kinds { IfOk result (IsListed (lines text.now)) }
        ensures others { IfOk result (HasNoOthers (lines text.now)) }
        ensures bad { IfErr result (λ bad. IsFirstBad (lines text.now) (IsGood (lines text.now)) bad.line) }
    {
        let mut table = Numbers {
            numbers: [0; KINDS],
        };
        let mut rest = Some(text);
        let mut number = 1u32;
        while let Some(left) = rest {
            let (line, after) = cut_line(left);
            match table.with_line(trim(line)) {
                Some(next) => table = next,
                None => return Err(ConfigLine { line: number }),
            }
            number = number.saturating_add(1);
            rest = after;
        }
        Ok(table)
    }

    /// The kind that has this number, if there is one.
    #[tactic(auto, unfolding(crate::specs::Numbers::kind_of))]
    pub fn kind(&self, number: u16) -> Option<RelocKind>
        ensures { result ≡ kind_of self.now number }
    {
        if number == 0 {
            return None;
        }
        for index in 0..KINDS {
            let kind = RelocKind::at(index);
            if self.number(kind) == number {
                return Some(kind);
            }
        }
        None
    }

    // The number of a kind, or 0.
    fn number(&self, kind: RelocKind) -> u16
        ensures { result ≡ number_in self.now kind }
    {
        self.numbers[kind.index()]
    }

    // The table with what a line gives added, or none where the line is bad. The line has no blanks
    // at its ends.
    fn with_line(self, line: &[u8]) -> Option<Numbers>
        ensures { Takes self line.now result }
    {
        if is_skipped(line) {
            return Some(self);
        }
        match entry(line) {
            Some((kind, number)) => self.with(line, kind, number),
            None => None,
        }
    }

    // The same where the line gives the kind the number.
    fn with(self, line: &[u8], kind: RelocKind, number: u16) -> Option<Numbers>
        requires { Gives line.now kind number }
        ensures { Takes self line.now result }
    {
        let _ = line;
        if self.number(kind) != 0 {
            return None;
        }
        match self.kind(number) {
            Some(_) => return None,
            None => {}
        }
        let mut numbers = self.numbers;
        numbers[kind.index()] = number;
        Some(Numbers { numbers })
    }
}
