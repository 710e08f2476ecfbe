// What makes an image too large.
ghost use Rattle.std.specs.Prelude.{◌≡◌, ◌≤◌, ◌^◌};
ghost use Rattle.glk_elf.specs.Sections.{written_data, noptrbss};
ghost use Rattle.glk_elf.specs.Placing.{text_start};
ghost use Rattle.glk_layout.specs.Layout.{section_end};
ghost use Rattle.glk_layout.specs.Limits.{excess as excess_of};
ghost use Rattle.glk_layout.specs.Placed.{placed_view};
ghost use Rattle.glk_layout.specs.Symbols.{names_room};

use crate::input::PlacedContents;
use glk_base::FILE_LIMIT;
use glk_elf::IMAGE_BASE;

/// What has a limit.
#[derive(Clone, Copy, Debug, PartialEq, Eq)]
pub enum SizeLimit {
    /// The end of `.data` in the file: 2^30.
    File,
    /// The end of the last section that takes addresses: 2^40.
    Address,
    /// The names of the symbols, one byte more for each: 2^30.
    Names,
}

/// A limit that is passed, and the number that passes it.
#[derive(Clone, Copy, Debug, PartialEq, Eq)]
pub struct TooLarge {
    pub limit: SizeLimit,
    pub number: u64,
}

const ADDRESS_LIMIT: u64 = 1 << 40;

const NAMES_LIMIT: u64 = 1 << 30;

// The first limit that is passed by what ends there in memory and has names of this length.
#[tactic(auto, unfolding(crate::specs::Limits::excess))]
pub(crate) fn excess(
    contents: &PlacedContents<'_>,
    data_end: u64,
    last_end: u64,
    names: u64,
) -> Option<TooLarge>
    requires some { text_start ≤ data_end }
    requires data { data_end ≡ section_end (placed_view contents.now) written_data }
    requires last { last_end ≡ section_end (placed_view contents.now) noptrbss }
    requires names { names ≡ names_room contents.now.symbols.now }
    ensures { result ≡ excess_of (placed_view contents.now) }
{
    let _placed = contents;
    let file = data_end - IMAGE_BASE;
    if file > FILE_LIMIT {
        return Some(TooLarge {
            limit: SizeLimit::File,
            number: file,
        });
    }
    if last_end > ADDRESS_LIMIT {
        return Some(TooLarge {
            limit: SizeLimit::Address,
            number: last_end,
        });
    }
    if names > NAMES_LIMIT {
        return Some(TooLarge {
            limit: SizeLimit::Names,
            number: names,
        });
    }
    None
}
