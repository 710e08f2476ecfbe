// The builtin list: the functions that the compiler calls by their number in a list of its own.
ghost use Rattle.std.specs.Prelude.{◌≡◌, [], length, false, IfOk, IfErr, OnOk, slice_get, option_copied};
ghost use Rattle.glk_base.specs.Lines.{lines, is_skipped as skipped, AllGood};
ghost use Rattle.glk_arena.specs.Builtins.{IsGoodLine, AreListed, IsFaultOf};
ghost use Rattle.glk_arena.specs.BuiltinLines.{IsGivenBy, TakesLine};

use glk_base::lines::{after_word, cut_line, first_word, is_skipped, is_text, small_number, trim};
use glk_base::{ConfigLine, Fault, OutOfMemory};
use std::alloc::Global;
use std::marker::Model;

/// A function that objects refer to by its number in the builtin list. Contracts see its name and
/// its ABI.
#[derive(Drop)]
pub struct Builtin {
    name: Vec<u8>,
    abi: u16,
}

impl Model for Builtin {
    ghost use Rattle.glk_arena.specs.Builtins.{Builtin as BuiltinValue};

    ghost Value = { BuiltinValue };

    ghost view = { λ b. record { name = b.name.items; abi = b.abi } };
}

impl Builtin {
    /// The name.
    pub fn name(&self) -> &[u8]
        ensures { result.now ≡ self.now.name }
    {
        self.name.as_slice()
    }

    /// The ABI: 0 is ABI0, 1 ABIInternal, 65535 that of a static symbol.
    pub fn abi(&self) -> u16
        ensures { result ≡ self.now.abi }
    {
        self.abi
    }
}

/// The builtin list. Contracts see the builtins in their order.
#[derive(Drop)]
pub struct Builtins {
    list: Vec<Builtin>,
}

impl Model for Builtins {
    ghost use Rattle.std.specs.Prelude.{◌<◌, ◌^◌, List, length};
    ghost use Rattle.glk_arena.specs.Builtins.{Builtin as BuiltinValue};

    ghost Value = { List BuiltinValue };

    ghost view = { λ b. b.list.items };

    ghost invariant = { λ b. length b.list.items < 2 ^ 32 };
}

// What a line without blanks at its ends gives, which isn't skipped.
fn given_by(alloc: Global, line: &[u8]) -> Result<Option<Builtin>, OutOfMemory>
    requires { skipped line.now ≡ false }
    ensures { IfOk result (IsGivenBy line.now) }
{
    if !is_text(line) {
        return Ok(None);
    }
    match small_number(after_word(line)) {
        Some(abi) => {
            let name = first_word(line).to_vec(alloc)?;
            Ok(Some(Builtin { name, abi }))
        }
        None => Ok(None),
    }
}

impl Builtins {
    /// No builtins.
    pub fn none(alloc: Global) -> Builtins
        ensures { result ≡ [] }
    {
        Builtins {
            list: Vec::new(alloc),
        }
    }

    /// The builtins that a text lists, or its first bad line. A line that counts is UTF-8 and has
    /// the form `NAME ABI`: a name without spaces, spaces, and a number from 0 to 65535 in decimal.
    /// Blanks at a line's ends don't count, and empty lines and lines that begin with `#` are
    /// skipped.
    pub fn parse(alloc: Global, text: &[u8]) -> Result<Builtins, Fault<ConfigLine>>
        ensures good { OnOk result (AllGood (lines text.now) (IsGoodLine (lines text.now))) }
        ensures list { IfOk result (AreListed (lines text.now)) }
        ensures bad { IfErr result (IsFaultOf (lines text.now)) }
    {
        let mut builtins = Builtins::none(alloc);
        let mut rest = Some(text);
        let mut number = 1u32;
        while let Some(left) = rest {
            let (line, after) = cut_line(left);
            if !builtins.take_line(alloc, trim(line))? {
                return Err(Fault::Bad(ConfigLine { line: number }));
            }
            number = number.saturating_add(1);
            rest = after;
        }
        Ok(builtins)
    }

    // Lists what a line gives, which has no blanks at its ends; false where the line is bad.
    fn take_line(&mut self, alloc: Global, line: &[u8]) -> Result<bool, OutOfMemory>
        ensures { IfOk result (TakesLine line.now self.old self.new) }
    {
        if is_skipped(line) {
            return Ok(true);
        }
        match given_by(alloc, line)? {
            Some(builtin) => {
                // So many builtins would not fit in memory.
                if self.list.len() >= u32::MAX as usize {
                    return Err(OutOfMemory);
                }
                self.list.push(builtin)?;
                Ok(true)
            }
            None => Ok(false),
        }
    }

    /// How many builtins there are.
    pub fn len(&self) -> u32
        ensures { result ≡ length self.now }
    {
        self.list.len() as u32
    }

    /// Builtin `k`, from 0.
    pub fn get(&self, k: u32) -> Option<&Builtin>
        ensures { option_copied result ≡ slice_get self.now k }
    {
        self.list.get(k as usize)
    }
}
