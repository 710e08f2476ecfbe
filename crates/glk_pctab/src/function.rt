// What the tables of functions are made from.

/// An inlined call: the name, the id and the first line of its function, and the offset of the call
/// in the function that it stands in.
#[derive(Clone, Copy, Debug)]
pub struct InlinedCall<'a> {
    pub name: &'a [u8],
    pub parent: i32,
    pub start_line: u32,
    pub id: u8,
}

/// A function of the image, and what its object says of it.
#[derive(Clone, Copy, Debug)]
pub struct Function<'a> {
    pub name: &'a [u8],
    /// Its pc tables; no bytes are the empty table.
    pub pcsp: &'a [u8],
    pub pcfile: &'a [u8],
    pub pcline: &'a [u8],
    pub pcinline: &'a [u8],
    pub inlined: &'a [InlinedCall<'a>],
    /// The pc tables of its pcdata, an empty one where a place is empty.
    pub pcdata: &'a [&'a [u8]],
    /// Its funcdata: addresses less a base, or 0xFFFFFFFF where a place is empty.
    pub funcdata: &'a [u32],
    /// Which of the units it comes from.
    pub unit: u32,
    /// Its start, as an offset in the text.
    pub start: u32,
    pub args: u32,
    pub deferreturn: u32,
    pub start_line: u32,
    pub id: u8,
    pub flag: u8,
}

/// The functions of an image in the order of their addresses, the names of the files of each unit,
/// the address of the text and its size, and the address of the inline trees, less the base from
/// which funcdata count.
#[derive(Clone, Copy, Debug)]
pub struct Pclntab<'a> {
    pub functions: &'a [Function<'a>],
    pub units: &'a [&'a [&'a [u8]]],
    pub text: u64,
    pub text_size: u32,
    pub trees: u32,
}
