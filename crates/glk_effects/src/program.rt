// A merged program, and its symbols as readings ask for them.
ghost use Rattle.std.specs.Prelude.{◌≡◌, ◌<◌, IfOk};
ghost use Rattle.glk_keys.specs.Rows.{row_count};
ghost use Rattle.glk_readings.specs.Readings.{defined_read as defined_reading};
ghost use Rattle.glk_readings.specs.Symbols.{IsKeyBelow};
ghost use Rattle.glk_reach.specs.Chosen.{symbols_of};

use glk_base::OutOfMemory;
use glk_merge::Merged;
use glk_reach::MergedSymbols;
use glk_readings::{TargetSymbol, Unreadable, defined_read};
use std::alloc::Global;

/// A merged program, and its symbols as readings ask for them.
#[derive(Drop)]
pub struct ReadProgram<'m, 'a> {
    /// The program.
    pub merged: &'m Merged<'a>,
    /// Its symbols.
    pub symbols: MergedSymbols<'m, 'a>,
    ghost same: { symbols ≡ merged.now.program },
}

impl<'m, 'a> ReadProgram<'m, 'a> {
    /// A merged program, of which all relocations are looked at once.
    ///
    /// # Errors
    /// Out of memory.
    pub fn new(alloc: Global, merged: &'m Merged<'a>) -> Result<ReadProgram<'m, 'a>, OutOfMemory>
        ensures { IfOk result (λ read. read.merged.now.program ≡ merged.now.program) }
    {
        let symbols = MergedSymbols::new(alloc, merged)?;
        Ok(ReadProgram { merged, symbols })
    }

    /// The key of a symbol that the holder refers to.
    ///
    /// # Errors
    /// `Lacks`: the symbol has no definition, or is missing.
    pub fn defined(&self, holder: u32, target: TargetSymbol) -> Result<u32, Unreadable>
        requires { IsKeyBelow (row_count self.now.merged.now.program) target }
        ensures value { result ≡ defined_reading (symbols_of self.now.merged.now.program) holder target }
        ensures within { IfOk result (λ t. t < row_count self.now.merged.now.program) }
    {
        defined_read(&self.symbols, holder, target)
    }
}
