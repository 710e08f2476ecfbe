// What is kept, with the calls of methods by which it is kept.
ghost use Rattle.std.specs.Prelude.{◌≡◌, ◌<◌, length, false, IfOk, IfSome};
ghost use Rattle.std.specs.Option.{option_map_or};
ghost use Rattle.glk_closure.specs.Facts.{AreLeastFacts, has_fact};
ghost use Rattle.glk_closure.specs.Marks.{called_at};
ghost use Rattle.glk_closure.specs.Reach.{Sig, Named, Reflect};

use crate::call_table::CallTable;
use crate::kept::KeptSet;
use crate::marks::WaitingRow;
use crate::program::Program;
use crate::search::reach;
use glk_base::OutOfMemory;
use std::alloc::Global;
use std::marker::Model;

/// What is kept, with the calls of methods by kept symbols. Contracts see for each key whether it is
/// kept and whether it may be in an interface, and the calls.
#[derive(Drop)]
pub struct KeptFacts<'a> {
    set: KeptSet,
    calls: CallTable<'a>,
    rows: Vec<WaitingRow>,
}

impl<'a> Model for KeptFacts<'a> {
    ghost use Rattle.glk_closure.specs.Facts.{FactsView, HaveRows, met_calls};

    ghost Value = { FactsView };

    ghost view = { λ s. record {
      kept = s.set.kept;
      iface = s.set.iface;
      calls = met_calls s.calls s.rows.items;
    } };

    ghost invariant = { λ s. HaveRows s.calls s.rows.items };
}

// Whether the call of a row was met, if there is one.
fn is_met(rows: &[WaitingRow], row: Option<u32>) -> bool
    requires { IfSome row (λ r. r < length rows.now) }
    ensures { result ≡ option_map_or (called_at rows.now) row false }
{
    match row {
        Some(r) => rows[r as usize].called,
        None => false,
    }
}

impl<'a> KeptFacts<'a> {
    /// What is kept.
    pub fn set(&self) -> &KeptSet
        ensures kept { result.now.kept ≡ self.now.kept }
        ensures iface { result.now.iface ≡ self.now.iface }
    {
        &self.set
    }

    /// Whether methods of this name and type are called. It takes constant time, but for the name's
    /// bytes.
    pub fn calls_sig(&self, name: &[u8], of: u32) -> bool
        ensures { result ≡ has_fact self.now (Sig name.now of) }
    {
        is_met(self.rows.as_slice(), self.calls.sig_at(name, of))
    }

    /// Whether methods of this name are called, whatever their type. It takes constant time, but for
    /// the name's bytes.
    pub fn calls_named(&self, name: &[u8]) -> bool
        ensures { result ≡ has_fact self.now (Named name.now) }
    {
        is_met(self.rows.as_slice(), self.calls.named_at(name))
    }

    /// Whether methods are called by reflection.
    pub fn reflects(&self) -> bool
        ensures { result ≡ has_fact self.now Reflect }
    {
        is_met(self.rows.as_slice(), self.calls.reflection_at())
    }
}

/// Finds what a program keeps, as `kept_set` does, with the calls of methods.
///
/// # Errors
/// Out of memory.
pub fn kept_facts<'a, P: Program>(
    alloc: Global,
    program: &'a P,
) -> Result<KeptFacts<'a>, OutOfMemory>
    ensures { IfOk result (λ facts. AreLeastFacts (P.graph program.now) facts) }
{
    let marks = reach(alloc, program)?;
    Ok(KeptFacts {
        set: KeptSet {
            kept: marks.kept,
            iface: marks.iface,
        },
        calls: marks.calls,
        rows: marks.rows,
    })
}
