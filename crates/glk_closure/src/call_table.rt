// The calls of methods, each with a number.
ghost use Rattle.std.specs.Prelude.{◌≡◌, [], IfOk, MatchOption};
ghost use Rattle.std.specs.List.{Contains};
ghost use Rattle.glk_closure.specs.Reach.{Sig, Named, Reflect};
ghost use Rattle.glk_closure.specs.Rows.{Numbers, Stands};
ghost use Rattle.glk_closure.specs.CallTable.{facts_of, name_eq, signature_eq};
ghost use Rattle.std.specs.HashMap.{get};

use crate::call::Call;
use crate::name::{Name, Signature};
use glk_base::OutOfMemory;
use std::alloc::Global;
use std::collections::HashMap;
use std::marker::Model;

/// The calls that have a row, in the order of their rows. Contracts see it as the list of these facts.
#[derive(Drop)]
pub(crate) struct CallTable<'a> {
    calls: Vec<Call<'a>>,
    names: HashMap<Name<'a>, u32>,
    signatures: HashMap<Signature, u32>,
    reflection: Option<u32>,
}

impl<'a> Model for CallTable<'a> {
    ghost use Rattle.std.specs.Prelude.{List};
    ghost use Rattle.glk_closure.specs.Reach.{Fact};
    ghost use Rattle.glk_closure.specs.CallTable.{facts_of, Fits};

    ghost Value = { List Fact };

    ghost view = { λ c. facts_of c.calls.items };

    ghost invariant = { λ c. Fits (facts_of c.calls.items) c.names c.signatures c.reflection };
}

// The number of the next row.
fn next_row(rows: usize) -> Result<u32, OutOfMemory>
    ensures { IfOk result (λ row. row ≡ rows) }
{
    match u32::try_from(rows) {
        Ok(row) => Ok(row),
        Err(_) => Err(OutOfMemory),
    }
}

// The row that is noted for a name.
fn row_of_name(names: &HashMap<Name<'_>, u32>, name: &Name<'_>) -> Option<u32>
    ensures { result ≡ get name_eq names.now name.now }
{
    names.get(name).copied()
}

// The row that is noted for a name and type.
fn row_of_signature(signatures: &HashMap<Signature, u32>, key: Signature) -> Option<u32>
    ensures { result ≡ get signature_eq signatures.now key }
{
    signatures.get(&key).copied()
}

impl<'a> CallTable<'a> {
    /// No calls.
    pub(crate) fn new(alloc: Global) -> CallTable<'a>
        ensures { result ≡ [] }
    {
        CallTable {
            calls: Vec::new(alloc),
            names: HashMap::new(alloc),
            signatures: HashMap::new(alloc),
            reflection: None,
        }
    }

    /// The row of a name, which is added where it is new.
    pub(crate) fn named_row(&mut self, name: &'a [u8]) -> Result<u32, OutOfMemory>
        ensures { IfOk result (λ row. Numbers self.old self.new (Named name.now) row) }
    {
        let key = Name { bytes: name };
        match row_of_name(&self.names, &key) {
            Some(row) => return Ok(row),
            None => {}
        }
        let row = next_row(self.calls.len())?;
        self.calls.reserve(1)?;
        self.names.insert(key, row)?;
        self.calls.push(Call::Named(name))?;
        Ok(row)
    }

    /// The row of a name and type, which is added where it is new; the name alone has the row `named`.
    pub(crate) fn sig_row(
        &mut self,
        named: u32,
        name: &'a [u8],
        of: u32,
    ) -> Result<u32, OutOfMemory>
        requires { Stands self.old named (Named name.now) }
        ensures { IfOk result (λ row. Numbers self.old self.new (Sig name.now of) row) }
    {
        let key = Signature { named, of };
        match row_of_signature(&self.signatures, key) {
            Some(row) => return Ok(row),
            None => {}
        }
        let row = next_row(self.calls.len())?;
        self.calls.reserve(1)?;
        self.signatures.insert(key, row)?;
        self.calls.push(Call::Sig(name, of))?;
        Ok(row)
    }

    /// The row of reflection, which is added where it is new.
    pub(crate) fn reflection_row(&mut self) -> Result<u32, OutOfMemory>
        ensures { IfOk result (λ row. Numbers self.old self.new Reflect row) }
    {
        match self.reflection {
            Some(row) => return Ok(row),
            None => {}
        }
        let row = next_row(self.calls.len())?;
        self.calls.push(Call::Reflect)?;
        self.reflection = Some(row);
        Ok(row)
    }

    /// The row of a name, if it has one.
    pub(crate) fn named_at(&self, name: &[u8]) -> Option<u32>
        ensures { MatchOption result (Contains self.now (Named name.now) → ⊥)
            (λ row. Stands self.now row (Named name.now)) }
    {
        row_of_name(&self.names, &Name { bytes: name })
    }

    /// The row of a name and type, if it has one.
    pub(crate) fn sig_at(&self, name: &[u8], of: u32) -> Option<u32>
        ensures { MatchOption result (Contains self.now (Sig name.now of) → ⊥)
            (λ row. Stands self.now row (Sig name.now of)) }
    {
        let named = row_of_name(&self.names, &Name { bytes: name })?;
        row_of_signature(&self.signatures, Signature { named, of })
    }

    /// The row of reflection, if it has one.
    pub(crate) fn reflection_at(&self) -> Option<u32>
        ensures { MatchOption result (Contains self.now Reflect → ⊥) (λ row. Stands self.now row Reflect) }
    {
        self.reflection
    }
}
