// The marks of a search, the keys that wait for a visit, and the methods that wait for a call.
ghost use Rattle.std.specs.Prelude.{◌≡◌, ◌<◌, length, true, IfOk, OnOk};
ghost use Rattle.glk_closure.specs.Graph.{Graph};
ghost use Rattle.glk_closure.specs.Reach.{Kept, Iface, Sig, Named, Reflect, is_exported};

use crate::call_table::CallTable;
use crate::effect::Targets;
use crate::mark_table::MarkTable;
use glk_base::OutOfMemory;
use std::alloc::Global;

/// The methods that wait for a call, and whether it was met.
#[derive(Drop)]
pub(crate) struct WaitingRow {
    pub(crate) called: bool,
    pub(crate) methods: Vec<Targets>,
}

/// What is marked, the keys that wait for a visit, and a row for each call.
#[derive(Drop)]
pub(crate) struct Marks<'a> {
    pub(crate) kept: MarkTable,
    pub(crate) iface: MarkTable,
    pub(crate) work: Vec<u32>,
    pub(crate) calls: CallTable<'a>,
    pub(crate) rows: Vec<WaitingRow>,
}

impl<'a> Marks<'a> {
    ghost use Rattle.glk_closure.specs.Marks.{Adds, Extends};
    ghost use Rattle.glk_closure.specs.Rows.{Stands};

    /// Marks a key as kept.
    pub(crate) fn keep(&mut self, key: u32) -> Result<(), OutOfMemory>
        requires { key < length self.old.kept }
        ensures { OnOk result (Adds self.old self.new (Kept key) true) }
    {
        if self.kept.has(key) {
            return Ok(());
        }
        self.kept.mark(key);
        self.work.push(key)?;
        Ok(())
    }

    /// Marks a key as one that may be in an interface.
    pub(crate) fn mark_iface(&mut self, key: u32) -> Result<(), OutOfMemory>
        requires kept { key < length self.old.kept }
        requires iface { key < length self.old.iface }
        ensures { OnOk result (Adds self.old self.new (Iface key) true) }
    {
        if self.iface.has(key) {
            return Ok(());
        }
        self.iface.mark(key);
        self.work.push(key)?;
        Ok(())
    }

    /// The row of a name.
    pub(crate) fn named_row(&mut self, alloc: Global, name: &'a [u8]) -> Result<u32, OutOfMemory>
        requires { length self.old.rows.items ≡ length self.old.calls }
        ensures extends { OnOk result ((g : Graph) → Extends g self.old self.new) }
        ensures stands { IfOk result (λ row. Stands self.new.calls row (Named name.now)) }
    {
        let row = self.calls.named_row(name)?;
        if row as usize == self.rows.len() {
            self.rows.push(WaitingRow {
                called: false,
                methods: Vec::new(alloc),
            })?;
        }
        Ok(row)
    }

    /// The row of a name and type; the name alone has the row `named`.
    pub(crate) fn sig_row(
        &mut self,
        alloc: Global,
        named: u32,
        name: &'a [u8],
        of: u32,
    ) -> Result<u32, OutOfMemory>
        requires rows { length self.old.rows.items ≡ length self.old.calls }
        requires named { Stands self.old.calls named (Named name.now) }
        ensures extends { OnOk result ((g : Graph) → Extends g self.old self.new) }
        ensures stands { IfOk result (λ row. Stands self.new.calls row (Sig name.now of)) }
    {
        let row = self.calls.sig_row(named, name, of)?;
        if row as usize == self.rows.len() {
            self.rows.push(WaitingRow {
                called: false,
                methods: Vec::new(alloc),
            })?;
        }
        Ok(row)
    }

    /// The row of reflection.
    pub(crate) fn reflection_row(&mut self, alloc: Global) -> Result<u32, OutOfMemory>
        requires { length self.old.rows.items ≡ length self.old.calls }
        ensures extends { OnOk result ((g : Graph) → Extends g self.old self.new) }
        ensures stands { IfOk result (λ row. Stands self.new.calls row Reflect) }
    {
        let row = self.calls.reflection_row()?;
        if row as usize == self.rows.len() {
            self.rows.push(WaitingRow {
                called: false,
                methods: Vec::new(alloc),
            })?;
        }
        Ok(row)
    }
}

/// Whether reflection can call a method of this name.
pub(crate) fn is_exported_name(name: &[u8]) -> bool
    ensures { result ≡ is_exported name.now }
{
    match name {
        [] => false,
        [first, ..] => (b'A' <= *first && *first <= b'Z') || 0x80 <= *first,
    }
}
