// The methods of a type that was read, as one value.
ghost use Rattle.std.specs.Prelude.{◌<◌, ◌+◌, ◌*◌, ◌^◌};

/// The methods of a type, of which the offsets of the type's METHODOFF relocations are known to be
/// those of its methods.
#[derive(Clone, Copy, Debug)]
pub struct Methods {
    // how many there are
    pub(crate) count: u16,
    // where their entries start
    pub(crate) start: u64,

    ghost inside: { 0 < count → start + 16 * count < 2 ^ 32 },
}
