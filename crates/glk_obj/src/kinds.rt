// The kinds of relocations.
ghost use Rattle.std.specs.Prelude.{◌≡◌, ◌<◌, Some};
ghost use Rattle.std.specs.List.{slice_get};
ghost use Rattle.glk_obj.specs.Numbers.{kinds, index_of, standard_number, name_of};

/// What a relocation asks for. Go's own names for these are those of `cmd/internal/objabi`, as
/// `R_ADDR`.
#[derive(Clone, Copy, Debug, PartialEq, Eq)]
pub enum RelocKind {
    /// The target's address.
    Addr,
    /// A call of the target, relative to the end of the field.
    Call,
    /// The target's address, relative to the end of the field.
    PcRel,
    /// The target's address, relative to the start of its section.
    AddrOff,
    /// A method of a type, relative to the start of its section; -1 where the method is not kept.
    MethodOff,
    /// The offset of a thread's own variable.
    TlsLe,
    /// The function turns the target, a type, into an interface.
    UseIface,
    /// The function calls a method of the target, an interface type.
    UseIfaceMethod,
    /// The function calls a method by the name that the target holds.
    UseNamedMethod,
    /// The function uses the target, a type; it keeps nothing.
    UseType,
    /// The initialization of the target comes before that of the symbol.
    InitOrder,
    /// An indirect call.
    CallInd,
    /// The target is kept.
    Keep,
    /// Nothing.
    Ignore,
}

/// How many kinds there are.
pub(crate) const KINDS: usize = 14;

// The kinds in their order.
const ORDER: [RelocKind; KINDS] = [
    RelocKind::Addr,
    RelocKind::Call,
    RelocKind::PcRel,
    RelocKind::AddrOff,
    RelocKind::MethodOff,
    RelocKind::TlsLe,
    RelocKind::UseIface,
    RelocKind::UseIfaceMethod,
    RelocKind::UseNamedMethod,
    RelocKind::UseType,
    RelocKind::InitOrder,
    RelocKind::CallInd,
    RelocKind::Keep,
    RelocKind::Ignore,
];

impl RelocKind {
    /// The kind at an index in their order.
    pub(crate) fn at(index: usize) -> RelocKind
        requires { index < 14 }
        ensures { slice_get kinds index ≡ Some result }
    {
        ORDER[index]
    }

    /// The index of the kind in their order.
    pub(crate) fn index(self) -> usize
        ensures value { result ≡ index_of self }
        ensures small { result < 14 }
    {
        self as usize
    }

    /// The number of the kind where no file of numbers lists others: 1 to 14, in the order of the
    /// kinds.
    pub fn standard_number(self) -> u16
        ensures { result ≡ standard_number self }
    {
        self as u16 + 1
    }

    /// The name by which a file of numbers lists the kind.
    pub(crate) fn name(self) -> &'static [u8]
        ensures { result.now ≡ name_of self }
    {
        match self {
            RelocKind::Addr => b"ADDR",
            RelocKind::Call => b"CALL",
            RelocKind::PcRel => b"PCREL",
            RelocKind::AddrOff => b"ADDROFF",
            RelocKind::MethodOff => b"METHODOFF",
            RelocKind::TlsLe => b"TLS_LE",
            RelocKind::UseIface => b"USEIFACE",
            RelocKind::UseIfaceMethod => b"USEIFACEMETHOD",
            RelocKind::UseNamedMethod => b"USENAMEDMETHOD",
            RelocKind::UseType => b"USETYPE",
            RelocKind::InitOrder => b"INITORDER",
            RelocKind::CallInd => b"CALLIND",
            RelocKind::Keep => b"KEEP",
            RelocKind::Ignore => b"IGNORE",
        }
    }
}
