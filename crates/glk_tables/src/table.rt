// The tables of a function, as refusals name them.

/// A table of a function, in the order in which refusals name them.
#[derive(Clone, Copy, Debug, PartialEq, Eq)]
pub enum Table {
    /// The FuncInfo.
    Info,
    /// The pc table of the stack's depth.
    Pcsp,
    /// The pc table of files.
    Pcfile,
    /// The pc table of lines.
    Pcline,
    /// The pc table of nodes of the inline tree.
    Pcinline,
    /// The other pc tables.
    Pcdata,
    /// The data for the runtime.
    Funcdata,
    /// The inline tree.
    Tree,
}

/// The first rule, of P1 to P9, that a function breaks, and the first table that breaks it.
#[derive(Clone, Copy, Debug, PartialEq, Eq)]
pub struct BrokenTable {
    pub table: Table,
    pub rule: u8,
}
