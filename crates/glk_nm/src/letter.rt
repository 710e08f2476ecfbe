// The letter of a symbol.
ghost use Rattle.std.specs.Prelude.{◌≡◌};
ghost use Rattle.glk_elf.specs.ReaderViews.{section_record, symbol_record};
ghost use Rattle.glk_nm.specs.Letters.{class_in as class_of_section, class_of as class_of_symbol, letter as letter_for, letter_of as letter_of_symbol};

use crate::gabi::{
    SHF_ALLOC, SHF_EXECINSTR, SHF_WRITE, SHN_COMMON, SHN_UNDEF, SHT_NOBITS, has_flags, is_local,
};
use glk_elf::{ElfSection, ElfSym, ElfView};

// What a symbol names.
#[derive(Clone, Copy)]
pub(crate) enum SymbolClass {
    // It is defined elsewhere.
    Undefined,
    // Memory that has no bytes in the file.
    Bss,
    Code,
    Data,
    ReadOnly,
    Unknown,
}

// The class of what is in a section.
fn class_in(section: &ElfSection<'_>) -> SymbolClass
    ensures { result ≡ class_of_section (section_record section.now) }
{
    if section.kind == SHT_NOBITS {
        SymbolClass::Bss
    } else if has_flags(section.flags, SHF_ALLOC + SHF_EXECINSTR) {
        SymbolClass::Code
    } else if has_flags(section.flags, SHF_ALLOC + SHF_WRITE) {
        SymbolClass::Data
    } else if has_flags(section.flags, SHF_ALLOC) {
        SymbolClass::ReadOnly
    } else {
        SymbolClass::Unknown
    }
}

// The class of a symbol.
fn class_of(view: &ElfView<'_>, symbol: &ElfSym<'_>) -> SymbolClass
    ensures { result ≡ class_of_symbol view.now (symbol_record symbol.now) }
{
    match symbol.section {
        SHN_UNDEF => SymbolClass::Undefined,
        SHN_COMMON => SymbolClass::Bss,
        number => match view.section_at(number) {
            Some(section) => class_in(&section),
            None => SymbolClass::Unknown,
        },
    }
}

// The letter of a class.
fn letter(class: SymbolClass, local: bool) -> &'static [u8]
    ensures { result.now ≡ letter_for class local }
{
    match (class, local) {
        (SymbolClass::Undefined, false) => b"U",
        (SymbolClass::Undefined, true) => b"u",
        (SymbolClass::Bss, false) => b"B",
        (SymbolClass::Bss, true) => b"b",
        (SymbolClass::Code, false) => b"T",
        (SymbolClass::Code, true) => b"t",
        (SymbolClass::Data, false) => b"D",
        (SymbolClass::Data, true) => b"d",
        (SymbolClass::ReadOnly, false) => b"R",
        (SymbolClass::ReadOnly, true) => b"r",
        (SymbolClass::Unknown, false) => b"?",
        (SymbolClass::Unknown, true) => b"_",
    }
}

// The letter of a symbol.
#[tactic(auto, unfolding(crate::specs::Letters::letter_of))]
pub(crate) fn letter_of(view: &ElfView<'_>, symbol: &ElfSym<'_>) -> &'static [u8]
    ensures { result.now ≡ letter_of_symbol view.now (symbol_record symbol.now) }
{
    letter(class_of(view, symbol), is_local(symbol))
}
