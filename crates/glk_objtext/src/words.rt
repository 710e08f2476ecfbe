// The words that lines begin with.
ghost use Rattle.std.specs.Prelude.{◌≡◌, ◌+◌};
ghost use Rattle.glk_objtext.specs.Answers.{Gives};
ghost use Rattle.glk_objtext.specs.Words.{spelling as spelling_of, word_of, arity as arity_of, rank as rank_of};

use crate::rules::UNKNOWN_WORD;
use glk_base::Fault;

/// What a line begins with.
#[derive(Clone, Copy, Debug)]
pub(crate) enum Word {
    Object,
    Autolib,
    Pkg,
    File,
    Def,
    Hash64,
    Hash,
    Data,
    Reloc,
    Aux,
    Ndef,
    Ref,
    RefFlags,
    RefName,
}

const ALL: [Word; 14] = [
    Word::Object,
    Word::Autolib,
    Word::Pkg,
    Word::File,
    Word::Def,
    Word::Hash64,
    Word::Hash,
    Word::Data,
    Word::Reloc,
    Word::Aux,
    Word::Ndef,
    Word::Ref,
    Word::RefFlags,
    Word::RefName,
];

impl Word {
    /// How the word is spelled.
    #[tactic(auto, unfolding(crate::specs::Words::spelling))]
    pub(crate) fn spelling(self) -> &'static [u8]
        ensures { result.now ≡ spelling_of self }
    {
        match self {
            Word::Object => b"object",
            Word::Autolib => b"autolib",
            Word::Pkg => b"pkg",
            Word::File => b"file",
            Word::Def => b"def",
            Word::Hash64 => b"hash64",
            Word::Hash => b"hash",
            Word::Data => b"data",
            Word::Reloc => b"reloc",
            Word::Aux => b"aux",
            Word::Ndef => b"ndef",
            Word::Ref => b"ref",
            Word::RefFlags => b"refflags",
            Word::RefName => b"refname",
        }
    }

    /// The word that a field is.
    #[tactic(auto, unfolding(crate::specs::Words::word_among))]
    pub(crate) fn read(field: &[u8]) -> Result<Word, Fault<u8>>
        ensures { Gives (word_of field.now) result }
    {
        for word in ALL {
            if field == word.spelling() {
                return Ok(word);
            }
        }
        Err(Fault::Bad(UNKNOWN_WORD))
    }

    /// How many fields a line with the word has, the word included.
    #[tactic(auto, unfolding(crate::specs::Words::arity))]
    pub(crate) fn fields(self) -> usize
        ensures { result ≡ arity_of self + 1 }
    {
        match self {
            Word::Pkg | Word::File | Word::Data => 2,
            Word::Object | Word::Autolib | Word::Aux | Word::RefName => 3,
            Word::RefFlags => 4,
            Word::Reloc => 6,
            Word::Def | Word::Ndef | Word::Ref => 8,
            Word::Hash64 | Word::Hash => 9,
        }
    }

    /// The rank of the lines of the word among the others; 0 for the parts of a definition, which
    /// have none of their own.
    #[tactic(auto, unfolding(crate::specs::Words::rank))]
    pub(crate) fn rank(self) -> u8
        ensures { result ≡ rank_of self }
    {
        match self {
            Word::Data | Word::Reloc | Word::Aux => 0,
            Word::Object => 1,
            Word::Autolib => 2,
            Word::Pkg => 3,
            Word::File => 4,
            Word::Def => 5,
            Word::Hash64 => 6,
            Word::Hash => 7,
            Word::Ndef => 8,
            Word::Ref => 9,
            Word::RefFlags => 10,
            Word::RefName => 11,
        }
    }
}
