// The numbers of ELF-64 that tell what a symbol is, named as the System V gABI names them.
ghost use Rattle.std.specs.Prelude.{◌≡◌};
ghost use Rattle.glk_elf.specs.ReaderViews.{symbol_record};
ghost use Rattle.glk_nm.specs.Gabi.{st_type as st_type_of, is_local as is_local_one, has_flags as has_all};

use glk_elf::ElfSym;

// st_info has the binding above the type.
const ST_TYPES: u8 = 16;

const STB_LOCAL: u8 = 0;

pub const STT_SECTION: u8 = 3;

pub const STT_FILE: u8 = 4;

pub const SHN_UNDEF: u16 = 0;

pub const SHN_COMMON: u16 = 0xfff2;

pub const SHT_NOBITS: u32 = 8;

pub const SHF_WRITE: u64 = 1;

pub const SHF_ALLOC: u64 = 2;

pub const SHF_EXECINSTR: u64 = 4;

// The type of a symbol.
pub(crate) fn st_type(symbol: &ElfSym<'_>) -> u8
    ensures { result ≡ st_type_of (symbol_record symbol.now) }
{
    symbol.info % ST_TYPES
}

// Whether a symbol is local.
pub(crate) fn is_local(symbol: &ElfSym<'_>) -> bool
    ensures { result ≡ is_local_one (symbol_record symbol.now) }
{
    symbol.info / ST_TYPES == STB_LOCAL
}

// Whether all of these flags are set.
pub(crate) fn has_flags(flags: u64, wanted: u64) -> bool
    ensures { result ≡ has_all flags wanted }
{
    flags & wanted == wanted
}
