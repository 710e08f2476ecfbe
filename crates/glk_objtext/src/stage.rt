// The order of lines.
ghost use Rattle.std.specs.Prelude.{◌≡◌, ◌==◌, not};
ghost use Rattle.glk_objtext.specs.Grammar.{begins_well as begins, is_ordered as ordered, has_room as room, fits_width as width_fits, after as stage_after, at_start, rank_after as next_rank, part_after as next_part, width_after as next_width, is_hash_width};

use crate::line::{DefBlock, Line};
use crate::words::Word;
use glk_obj::{LONGEST_HASH, SHORTEST_HASH};

/// What has come of the definition that is open, if one is.
#[derive(Clone, Copy, Debug)]
pub(crate) enum Part {
    Outside,
    Fresh,
    Filled,
    Relocs,
    Auxes,
}

/// How far the lines have come.
#[derive(Clone, Copy, Debug)]
pub(crate) struct Stage {
    /// The rank of the last line that has one; 0 before the first line.
    rank: u8,
    part: Part,
    /// The length of the long hashes, where one has come.
    width: Option<usize>,
}

impl Stage {
    /// Before the first line.
    pub(crate) fn start() -> Stage
        ensures { result ≡ at_start }
    {
        Stage {
            rank: 0,
            part: Part::Outside,
            width: None,
        }
    }

    pub(crate) fn has_begun(&self) -> bool
        ensures { result ≡ not (self.now.rank == 0) }
    {
        self.rank != 0
    }

    /// Whether the line is an `object` line exactly where it is the first one.
    #[tactic(auto, unfolding(crate::specs::Grammar::begins_well))]
    pub(crate) fn begins_well(&self, word: Word) -> bool
        ensures { result ≡ begins self.now word }
    {
        match word {
            Word::Object => self.rank == 0,
            _ => self.rank != 0,
        }
    }

    /// Whether no line of a later kind has come.
    #[tactic(auto, unfolding(crate::specs::Grammar::is_ordered))]
    pub(crate) fn is_ordered(&self, word: Word) -> bool
        ensures { result ≡ ordered self.now word }
    {
        match word {
            Word::Data | Word::Reloc | Word::Aux => true,
            _ => self.rank <= word.rank(),
        }
    }

    /// Whether the open definition can take such a part next.
    #[tactic(auto, unfolding(crate::specs::Grammar::has_room))]
    pub(crate) fn has_room(&self, word: Word) -> bool
        ensures { result ≡ room self.now.part word }
    {
        match word {
            Word::Data => match self.part {
                Part::Fresh => true,
                _ => false,
            },
            Word::Reloc => match self.part {
                Part::Fresh | Part::Filled | Part::Relocs => true,
                _ => false,
            },
            Word::Aux => match self.part {
                Part::Outside => false,
                _ => true,
            },
            _ => true,
        }
    }

    /// Whether a long hash has a length that is allowed, and that of the earlier ones.
    #[tactic(auto, unfolding(crate::specs::Grammar::fits_width))]
    pub(crate) fn fits_width(&self, line: &Line) -> bool
        ensures { result ≡ width_fits self.now.width line.now }
    {
        match line {
            Line::Symbol {
                block: DefBlock::Hasheddef,
                hash,
                ..
            } => is_width(self.width, hash.as_bytes().len()),
            _ => true,
        }
    }

    /// What comes after a line.
    #[tactic(auto, unfolding(crate::specs::Grammar::after))]
    pub(crate) fn after(&self, line: &Line) -> Stage
        ensures { result ≡ stage_after self.now line.now }
    {
        let word = line.word();
        Stage {
            rank: self.rank_after(word),
            part: part_after(word),
            width: self.width_after(line),
        }
    }

    #[tactic(auto, unfolding(crate::specs::Grammar::rank_after))]
    fn rank_after(&self, word: Word) -> u8
        ensures { result ≡ next_rank self.now.rank word }
    {
        match word {
            Word::Data | Word::Reloc | Word::Aux => self.rank,
            _ => word.rank(),
        }
    }

    #[tactic(auto, unfolding(crate::specs::Grammar::width_after))]
    fn width_after(&self, line: &Line) -> Option<usize>
        ensures { result ≡ next_width self.now.width line.now }
    {
        match line {
            Line::Symbol {
                block: DefBlock::Hasheddef,
                hash,
                ..
            } => Some(hash.as_bytes().len()),
            _ => self.width,
        }
    }
}

#[tactic(auto, unfolding(crate::specs::Grammar::part_after))]
fn part_after(word: Word) -> Part
    ensures { result ≡ next_part word }
{
    match word {
        Word::Def | Word::Hash64 | Word::Hash | Word::Ndef => Part::Fresh,
        Word::Data => Part::Filled,
        Word::Reloc => Part::Relocs,
        Word::Aux => Part::Auxes,
        _ => Part::Outside,
    }
}

#[tactic(auto, unfolding(crate::specs::Grammar::is_hash_width))]
fn is_width(width: Option<usize>, length: usize) -> bool
    ensures { result ≡ is_hash_width width length }
{
    let allowed = length >= SHORTEST_HASH && length <= LONGEST_HASH;
    match width {
        None => allowed,
        Some(earlier) => allowed && length == earlier,
    }
}
