// What a reading asks of the symbols of a linked program.
ghost use Rattle.std.specs.Prelude.{◌≡◌, ◌<◌, ◌^◌, length, Some, IfSome, slice_get};
ghost use Rattle.glk_readings.specs.Symbols.{SymbolTable, IsWithin};
ghost use Rattle.glk_readings.specs.References.{reference_at};

/// The symbol that a relocation refers to.
#[derive(Clone, Copy, Debug, PartialEq, Eq)]
pub enum TargetSymbol {
    /// A symbol, by its key.
    Key(u32),
    /// None that is loaded: the package number and the index of the reference.
    Missing { pkg: u32, index: u32 },
}

/// A relocation of a symbol.
#[derive(Clone, Copy, Debug, PartialEq, Eq)]
pub struct Relocation {
    /// Where its field is, in bytes from the start of the symbol's data.
    pub offset: u32,
    /// What is added to the target's address.
    pub addend: i64,
    /// What it refers to, if anything.
    pub target: Option<TargetSymbol>,
    /// Whether its kind is METHODOFF.
    pub is_methodoff: bool,
}

/// The symbols of a linked program. They are keys, the numbers below `keys`, and what is read of a key
/// is read of its chosen definition.
pub trait Symbols {
    ghost table: { Self → SymbolTable };

    /// Whether a key has a definition.
    fn is_defined(&self, key: u32) -> bool
        requires { key < (table self.now).keys }
        ensures { result ≡ (table self.now).defined key };

    /// The data of a key.
    fn data(&self, key: u32) -> &[u8]
        requires { key < (table self.now).keys }
        ensures value { result.now ≡ (table self.now).content key }
        ensures small { length ((table self.now).content key) < 2 ^ 32 };

    /// How many relocations a key has.
    fn reloc_count(&self, key: u32) -> u32
        requires { key < (table self.now).keys }
        ensures { result ≡ length ((table self.now).relocs key) };

    /// Relocation `i` of a key.
    fn reloc(&self, key: u32, i: u32) -> Relocation
        requires key { key < (table self.now).keys }
        requires index { i < length ((table self.now).relocs key) }
        ensures value { slice_get ((table self.now).relocs key) i ≡ Some result }
        ensures within { IsWithin (table self.now).keys result.target };

    /// The first relocation of a key that has this offset and a target.
    fn reloc_at(&self, key: u32, offset: u32) -> Option<Relocation>
        requires { key < (table self.now).keys }
        ensures value { result ≡ reference_at ((table self.now).relocs key) offset }
        ensures within { IfSome result (λ reloc. IsWithin (table self.now).keys reloc.target) };
}
