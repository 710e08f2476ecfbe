// The rules J1 to J5 on the type, the data and the size of a kept symbol.
ghost use Rattle.std.specs.Prelude.{◌≡◌, ◌<◌, ◌==◌, length};
ghost use Rattle.std.specs.List.{list_any};
ghost use Rattle.glk_keys.specs.Rows.{row_count};
ghost use Rattle.glk_merge.specs.Mergings.{IsKey};
ghost use Rattle.glk_reach.specs.Chosen.{symbol_of, content_of, is_listed_type};
ghost use Rattle.glk_reach.specs.Graphs.{entry_keys};
ghost use Rattle.glk_reach.specs.KindFaults.{symbol_type, is_zeros as is_zeros_in, kind_fault as kind_fault_of};

use glk_base::KeyId;
use glk_merge::Merged;
use glk_reach::definition;

// The types of symbols with a section, from functions to zeros without pointers.
const TEXT: u8 = 1;

const RODATA: u8 = 2;

const BSS: u8 = 5;

const NOPTRBSS: u8 = 6;

// What the rules read of a symbol.
#[derive(Clone, Copy, Debug)]
pub(crate) struct KindFacts {
    // the number of its type
    pub(crate) kind: u8,
    // its size, and how many bytes of data it has
    pub(crate) size: u32,
    pub(crate) length: usize,
    // whether it is a type that is listed in the image
    pub(crate) listed: bool,
}

// What the rules read of a key.
#[tactic(auto, unfolding(glk_reach::specs::Chosen::symbol_of, glk_reach::specs::Chosen::content_of))]
pub(crate) fn kind_facts(merged: &Merged<'_>, key: u32) -> KindFacts
    requires { key < row_count merged.now.program }
    ensures kind { result.kind ≡ symbol_type merged.now.program key }
    ensures size { result.size ≡ (symbol_of merged.now.program key).size }
    ensures length { result.length ≡ length (content_of merged.now.program key) }
    ensures listed { result.listed ≡ is_listed_type merged.now.program key }
{
    match definition(merged, key) {
        Some(id) => {
            let symbol = merged.row(id);
            KindFacts {
                kind: symbol.kind,
                size: symbol.size,
                length: merged.data(id).len(),
                listed: symbol.is_typelink(),
            }
        }
        None => KindFacts {
            kind: 0,
            size: 0,
            length: 0,
            listed: false,
        },
    }
}

/// Whether a key is zeros alone, by the type of its chosen definition.
pub fn is_zeros(merged: &Merged<'_>, key: u32) -> bool
    requires { key < row_count merged.now.program }
    ensures { result ≡ is_zeros_in merged.now.program key }
{
    let kind = kind_facts(merged, key).kind;
    kind == BSS || kind == NOPTRBSS
}

// Whether a key is the entry.
fn is_entry(entries: &[u32], key: u32) -> bool
    ensures { result ≡ list_any (λ entry. entry == key) entries.now }
{
    entries.iter().any(|entry| *entry == key)
}

/// The first of the rules J1 to J5 that a key breaks, by its number. The entries are those of the
/// program.
#[tactic(auto, unfolding(glk_reach::specs::KindFaults::kind_fault))]
pub fn kind_fault(merged: &Merged<'_>, entries: &[u32], key: u32) -> Option<u8>
    requires key { IsKey merged.now.program key }
    requires entries { entries.now ≡ entry_keys merged.now.program }
    ensures { result ≡ kind_fault_of merged.now.program key }
{
    let facts = kind_facts(merged, key);
    let zeros = facts.kind == BSS || facts.kind == NOPTRBSS;
    if merged.made(KeyId(key)).is_none() && !(TEXT <= facts.kind && facts.kind <= NOPTRBSS) {
        return Some(1);
    }
    if zeros && facts.length != 0 {
        return Some(2);
    }
    if facts.kind == TEXT && facts.length != facts.size as usize {
        return Some(3);
    }
    if is_entry(entries, key) && facts.kind != TEXT {
        return Some(4);
    }
    if facts.listed && facts.kind != RODATA {
        return Some(5);
    }
    None
}
