// What a symbol does where it is kept.

/// The targets of the three relocations of a method, in their order: its type, and its two
/// functions. Each may be missing. The numbers are keys.
#[derive(Clone, Copy, Debug, PartialEq, Eq)]
pub struct Targets {
    pub first: Option<u32>,
    pub second: Option<u32>,
    pub third: Option<u32>,
}

/// What a symbol does by one of its relocations or auxes. The numbers are keys.
#[derive(Clone, Copy, Debug, PartialEq, Eq)]
pub enum Effect<'a> {
    /// A strong relocation of a plain kind has this target, and not both are type symbols.
    Keeps(u32),
    /// A strong relocation of a plain kind has this target, and both are type symbols.
    Links(u32),
    /// A funcdata aux has this target.
    Funcdata(u32),
    /// This type is converted to an interface: by a marker on it, or on an itab of it.
    Uses(u32),
    /// A method of an interface is called, by this name and type.
    Calls {
        name: &'a [u8],
        of: u32,
    },
    /// Methods are called by this name, whatever their type.
    Names(&'a [u8]),
    /// A type symbol has this method. Its name is missing where it can't be read.
    Method {
        name: Option<&'a [u8]>,
        targets: Targets,
    },
}
