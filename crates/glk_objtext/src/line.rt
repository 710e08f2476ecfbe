// What a line says.
ghost use Rattle.std.specs.Prelude.{◌≡◌};
ghost use Rattle.glk_objtext.specs.Values.{block_word, word_of_line};

use crate::words::Word;
use glk_base::Text;
use glk_obj::{AuxRec, RefFlagsRec, RelocRec};
use glk_objdesc::{AutolibDesc, RefNameDesc, SymDesc};

/// The blocks that hold definitions.
#[derive(Clone, Copy, Debug)]
pub(crate) enum DefBlock {
    Symdef,
    Hashed64def,
    Hasheddef,
    Nonpkgdef,
}

impl DefBlock {
    /// The word of the definitions of the block.
    pub(crate) fn word(self) -> Word
        ensures { result ≡ block_word self }
    {
        match self {
            DefBlock::Symdef => Word::Def,
            DefBlock::Hashed64def => Word::Hash64,
            DefBlock::Hasheddef => Word::Hash,
            DefBlock::Nonpkgdef => Word::Ndef,
        }
    }
}

/// What a line says.
#[derive(Debug, Drop)]
pub(crate) enum Line {
    Header {
        flags: u32,
        fingerprint: [u8; 8],
    },
    Import(AutolibDesc),
    Package(Text),
    Source(Text),
    Symbol {
        block: DefBlock,
        sym: SymDesc,
        hash: Text,
    },
    Content(Text),
    Relocation(RelocRec),
    Auxiliary(AuxRec),
    Reference(SymDesc),
    Flags(RefFlagsRec),
    Named(RefNameDesc),
}

impl Line {
    /// The word that the line begins with.
    pub(crate) fn word(&self) -> Word
        ensures { result ≡ word_of_line self.now }
    {
        match self {
            Line::Header { .. } => Word::Object,
            Line::Import(_) => Word::Autolib,
            Line::Package(_) => Word::Pkg,
            Line::Source(_) => Word::File,
            Line::Symbol { block, .. } => block.word(),
            Line::Content(_) => Word::Data,
            Line::Relocation(_) => Word::Reloc,
            Line::Auxiliary(_) => Word::Aux,
            Line::Reference(_) => Word::Ref,
            Line::Flags(_) => Word::RefFlags,
            Line::Named(_) => Word::RefName,
        }
    }
}
