// What the numbers in the records of symbols and auxes say (`cmd/internal/goobj`, `cmd/internal/objabi`).
ghost use Rattle.std.specs.Prelude.{◌≡◌, ◌↔◌, IsTrue};
ghost use Rattle.glk_obj.specs.Symbols.{abi_number, abi_of, type_number, type_of, aux_number, aux_kind_of, IsTableKind};

use crate::records::AuxRec;

/// A calling convention.
#[derive(Clone, Copy, Debug, PartialEq, Eq)]
pub enum Abi {
    /// ABI0, of assembly: arguments are in memory.
    Abi0,
    /// ABIInternal, of compiled code: arguments are in registers.
    Internal,
    /// None: the symbol is static, so only its own object knows it.
    Static,
}

impl Abi {
    /// The convention of a number in a symbol's record, if it is one's.
    pub fn of(number: u16) -> Option<Abi>
        ensures { result ≡ abi_of number }
    {
        match number {
            0 => Some(Abi::Abi0),
            1 => Some(Abi::Internal),
            65535 => Some(Abi::Static),
            _ => None,
        }
    }

    /// Its number in a symbol's record.
    pub fn number(self) -> u16
        ensures { result ≡ abi_number self }
    {
        match self {
            Abi::Abi0 => 0,
            Abi::Internal => 1,
            Abi::Static => 65535,
        }
    }
}

/// The type of a symbol with content.
#[derive(Clone, Copy, Debug, PartialEq, Eq)]
pub enum SymKind {
    /// A function.
    Text,
    /// Data that are only read.
    Rodata,
    /// Data without pointers.
    NoptrData,
    /// Data.
    Data,
    /// Zeros.
    Bss,
    /// Zeros without pointers.
    NoptrBss,
    /// Zeros of each thread.
    TlsBss,
}

impl SymKind {
    /// The type of a number in a symbol's record, if it is one's.
    pub fn of(number: u8) -> Option<SymKind>
        ensures { result ≡ type_of number }
    {
        match number {
            1 => Some(SymKind::Text),
            2 => Some(SymKind::Rodata),
            3 => Some(SymKind::NoptrData),
            4 => Some(SymKind::Data),
            5 => Some(SymKind::Bss),
            6 => Some(SymKind::NoptrBss),
            7 => Some(SymKind::TlsBss),
            _ => None,
        }
    }

    /// Its number in a symbol's record.
    pub fn number(self) -> u8
        ensures { result ≡ type_number self }
    {
        self as u8 + 1
    }
}

/// What an aux is of its symbol.
#[derive(Clone, Copy, Debug, PartialEq, Eq)]
pub enum AuxKind {
    /// The Go type of a variable.
    GoType,
    /// A function's sizes, files and inlined calls.
    FuncInfo,
    /// A pointer map and the like; the k-th one of a function has number k, from 0.
    FuncData,
    /// Parts of DWARF.
    DwarfInfo,
    DwarfLoc,
    DwarfRanges,
    DwarfLines,
    /// The depth of the stack by program counter.
    PcSp,
    /// The file by program counter.
    PcFile,
    /// The line by program counter.
    PcLine,
    /// The inlined call by program counter.
    PcInline,
    /// Data by program counter; the k-th one of a function has number k, from 0.
    PcData,
}

// The kinds of auxes in the order of their numbers, from 0 on.
const AUX_KINDS: [AuxKind; 12] = [
    AuxKind::GoType,
    AuxKind::FuncInfo,
    AuxKind::FuncData,
    AuxKind::DwarfInfo,
    AuxKind::DwarfLoc,
    AuxKind::DwarfRanges,
    AuxKind::DwarfLines,
    AuxKind::PcSp,
    AuxKind::PcFile,
    AuxKind::PcLine,
    AuxKind::PcInline,
    AuxKind::PcData,
];

impl AuxKind {
    /// What an aux with this number as its type is, if the number has a meaning.
    pub fn of(number: u8) -> Option<AuxKind>
        ensures { result ≡ aux_kind_of number }
    {
        AUX_KINDS.get(number as usize).copied()
    }

    /// Its number in an aux's record.
    pub fn number(self) -> u8
        ensures { result ≡ aux_number self }
    {
        self as u8
    }
}

impl AuxRec {
    /// Whether the aux is a part of a runtime table, not a Go type and not DWARF.
    #[tactic(auto, unfolding(crate::specs::Symbols::IsTableKind))]
    pub fn is_table(&self) -> bool
        ensures { IsTrue result ↔ IsTableKind self.now.kind }
    {
        let kind = self.kind;
        kind == AuxKind::FuncInfo as u8
            || kind == AuxKind::FuncData as u8
            || (AuxKind::PcSp as u8 <= kind && kind <= AuxKind::PcData as u8)
    }
}
