// A call of methods, as the search has it.

/// A fact that calls methods.
#[derive(Clone, Copy)]
pub(crate) enum Call<'a> {
    /// By name and type.
    Sig(&'a [u8], u32),
    /// By name, whatever the type.
    Named(&'a [u8]),
    /// By reflection.
    Reflect,
}
