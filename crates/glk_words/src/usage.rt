// Faults of a command line.

/// Where the command line is faulty. Words are counted after the program's name, from 0; a number
/// past 2^32 - 1 is given as 2^32 - 1.
#[derive(Clone, Copy, Debug, PartialEq, Eq)]
pub struct UsageBad {
    /// The index of the word, or the number of words where one is missing.
    pub word: u32,
    pub why: Why,
}

/// What is wrong with a word of the command line.
#[derive(Clone, Copy, Debug, PartialEq, Eq)]
pub enum Why {
    NoCommand,
    UnknownCommand,
    UnknownFlag,
    BadSyntax,
    MissingValue,
    BadValue,
    MissingFile,
    ExtraWord,
}
