// How symbols are listed.

/// The order in which symbols are listed. Those that it does not tell apart stay in the order of the
/// symbol table.
#[derive(Clone, Copy, Debug, PartialEq, Eq)]
pub enum NmSort {
    /// By their values.
    Address,
    /// By their names, as bytes.
    Name,
    /// As in the symbol table.
    Plain,
    /// By their sizes, the largest first.
    Size,
}

/// How symbols are listed: whether with their sizes, and in which order.
#[derive(Clone, Copy, Debug, PartialEq, Eq)]
pub struct NmOptions {
    pub size: bool,
    pub sort: NmSort,
}
