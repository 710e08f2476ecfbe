// The names that the linker gives to places of the image.
ghost use Rattle.std.specs.Prelude.{◌≡◌, ◌<◌, ◌≤◌, map, length, IfSome};
ghost use Rattle.std.specs.List.{position, position_or_len};
ghost use Rattle.std.specs.Str.{bytes_eq};
ghost use Rattle.glk_keys.specs.Definitions.{made_number as number_of_made};
ghost use Rattle.glk_keys.specs.Views.{key_view};
ghost use Rattle.glk_keys.specs.MadeNames.{made_names, made_count};
ghost use Rattle.glk_keys.specs.MadeViews.{made_view, made_at};

use crate::keys::SymbolKey;
use glk_elf::Section;

/// Which place of its section a made name is.
#[derive(Clone, Copy, Debug, PartialEq, Eq)]
pub enum MadePlace {
    /// Where the section starts.
    Start,
    /// Where it ends.
    End,
    /// Where the table of buckets starts by which functions are found.
    FindFuncTab,
    /// Where the pointer program of the section of data starts.
    GcData,
    /// Where that of the section of zeros starts.
    GcBss,
    /// Where the init tasks of the main package are listed.
    MainTasks,
    /// Where those of the runtime are listed.
    RuntimeTasks,
    /// After module data, where the slice of the runtime's init tasks is.
    AfterModuleData,
}

/// A name that the linker gives to a place of the image: a symbol of ABI0.
#[derive(Clone, Copy, Debug)]
pub struct MadeName {
    pub name: &'static str,
    pub section: Section,
    pub place: MadePlace,
    /// The size of what is there in bytes, 0 where the name has none.
    pub size: u32,
}

/// How many bytes module data have.
pub const MODULE_DATA_SIZE: u32 = 584;

// A pointer, a length and a capacity.
const SLICE_SIZE: u32 = 24;

// What a thread has of its own.
const TLS_SIZE: u32 = 8;

const ABI0: u16 = 0;

/// How many made names there are.
pub const MADE_COUNT: u32 = 27;

// All of them, in the order of their numbers.
const TABLE: [MadeName; MADE_COUNT as usize] = [
    MadeName {
        name: "runtime.text",
        section: Section::Text,
        place: MadePlace::Start,
        size: 0,
    },
    MadeName {
        name: "runtime.etext",
        section: Section::Text,
        place: MadePlace::End,
        size: 0,
    },
    MadeName {
        name: "runtime.rodata",
        section: Section::Rodata,
        place: MadePlace::Start,
        size: 0,
    },
    MadeName {
        name: "runtime.erodata",
        section: Section::Rodata,
        place: MadePlace::End,
        size: 0,
    },
    MadeName {
        name: "runtime.types",
        section: Section::Rodata,
        place: MadePlace::Start,
        size: 0,
    },
    MadeName {
        name: "runtime.etypes",
        section: Section::Rodata,
        place: MadePlace::End,
        size: 0,
    },
    MadeName {
        name: "type:*",
        section: Section::Rodata,
        place: MadePlace::Start,
        size: 0,
    },
    MadeName {
        name: "go:func.*",
        section: Section::Rodata,
        place: MadePlace::Start,
        size: 0,
    },
    MadeName {
        name: "runtime.findfunctab",
        section: Section::Rodata,
        place: MadePlace::FindFuncTab,
        size: 0,
    },
    MadeName {
        name: "runtime.gcdata",
        section: Section::Rodata,
        place: MadePlace::GcData,
        size: 0,
    },
    MadeName {
        name: "runtime.gcbss",
        section: Section::Rodata,
        place: MadePlace::GcBss,
        size: 0,
    },
    MadeName {
        name: "runtime.pclntab",
        section: Section::Gopclntab,
        place: MadePlace::Start,
        size: 0,
    },
    MadeName {
        name: "runtime.epclntab",
        section: Section::Gopclntab,
        place: MadePlace::End,
        size: 0,
    },
    MadeName {
        name: "runtime.noptrdata",
        section: Section::Noptrdata,
        place: MadePlace::Start,
        size: 0,
    },
    MadeName {
        name: "runtime.enoptrdata",
        section: Section::Noptrdata,
        place: MadePlace::End,
        size: 0,
    },
    MadeName {
        name: "runtime.data",
        section: Section::Data,
        place: MadePlace::Start,
        size: 0,
    },
    MadeName {
        name: "runtime.edata",
        section: Section::Data,
        place: MadePlace::End,
        size: 0,
    },
    MadeName {
        name: "runtime.bss",
        section: Section::Bss,
        place: MadePlace::Start,
        size: 0,
    },
    MadeName {
        name: "runtime.ebss",
        section: Section::Bss,
        place: MadePlace::End,
        size: 0,
    },
    MadeName {
        name: "runtime.noptrbss",
        section: Section::Noptrbss,
        place: MadePlace::Start,
        size: 0,
    },
    MadeName {
        name: "runtime.enoptrbss",
        section: Section::Noptrbss,
        place: MadePlace::End,
        size: 0,
    },
    MadeName {
        name: "runtime.end",
        section: Section::Noptrbss,
        place: MadePlace::End,
        size: 0,
    },
    MadeName {
        name: "go:main.inittasks",
        section: Section::Rodata,
        place: MadePlace::MainTasks,
        size: 0,
    },
    MadeName {
        name: "go:runtime.inittasks",
        section: Section::Rodata,
        place: MadePlace::RuntimeTasks,
        size: 0,
    },
    MadeName {
        name: "runtime.firstmoduledata",
        section: Section::GoModule,
        place: MadePlace::Start,
        size: MODULE_DATA_SIZE,
    },
    MadeName {
        name: "runtime.runtime_inittasks",
        section: Section::GoModule,
        place: MadePlace::AfterModuleData,
        size: SLICE_SIZE,
    },
    MadeName {
        name: "runtime.tlsg",
        section: Section::Tbss,
        place: MadePlace::Start,
        size: TLS_SIZE,
    },
];

// The name of number `k` in a table of made names.
fn nth(table: &[MadeName], k: usize) -> MadeName
    requires table { map made_view table.now ≡ made_names }
    requires index { k < made_count }
    ensures { made_view result ≡ made_at k }
{
    table[k]
}

/// Made name `k`, from 0.
#[tactic(auto, unfolding(crate::specs::MadeNames::made_names))]
pub fn made_name(k: u8) -> MadeName
    requires { k < made_count }
    ensures { made_view result ≡ made_at k }
{
    nth(&TABLE, k as usize)
}

// The index of the first made name in a table that is this name, or the length where none is.
fn first_named(table: &[MadeName], name: &[u8]) -> usize
    ensures place { result ≡ position_or_len (λ m. bytes_eq name.now m.name.now) table.now }
    ensures inside { result ≤ length table.now }
{
    for (k, made) in table.iter().enumerate() {
        if name == made.name.as_bytes() {
            return k;
        }
    }
    table.len()
}

// The number of the made name in a table that is this name, if one is.
fn number_in(table: &[MadeName], name: &[u8]) -> Option<u8>
    requires { map made_view table.now ≡ made_names }
    ensures number { result ≡ position (λ m. bytes_eq name.now m.name) made_names }
    ensures inside { IfSome result (λ k. k < made_count) }
{
    let k = first_named(table, name);
    if k < MADE_COUNT as usize {
        Some(k as u8)
    } else {
        None
    }
}

/// The number of the made name that a key is, if it is one: a made name has ABI0.
#[tactic(auto, unfolding(crate::specs::MadeNames::made_names))]
pub fn made_number(key: SymbolKey<'_>) -> Option<u8>
    ensures number { result ≡ number_of_made (key_view key.entry) }
    ensures inside { IfSome result (λ k. k < made_count) }
{
    match key {
        SymbolKey::Named { name, abi } => {
            if abi == ABI0 {
                number_in(&TABLE, name)
            } else {
                None
            }
        }
        _ => None,
    }
}
