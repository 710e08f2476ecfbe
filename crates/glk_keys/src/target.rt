// What a reference in an object means.
use glk_base::{KeyId, SymId};

/// The row that a reference in an object means.
#[derive(Clone, Copy, Debug, PartialEq, Eq)]
pub enum Referent {
    /// None: the reference is empty.
    Nothing,
    /// The row of a symbol.
    Row(SymId),
    /// None: no loaded object has the symbol.
    Missing,
}

/// The symbol that a reference in an object means.
#[derive(Clone, Copy, Debug, PartialEq, Eq)]
pub enum Target {
    /// None: the reference is empty.
    Nothing,
    /// A symbol, by its key.
    Key(KeyId),
    /// A symbol that no loaded object has, by the package number and the index of the reference.
    Missing { pkg: u32, index: u32 },
}
