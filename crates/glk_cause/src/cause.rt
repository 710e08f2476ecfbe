// Why a command was refused.
use glk_base::{RuleFamily, SymId, Text};

/// A form of input or of command that is not built yet.
#[derive(Clone, Copy, Debug, PartialEq, Eq)]
pub enum Form {
    Command,
    Flag,
    Size,
    Object,
    Symbol,
}

/// What there may be too much of.
#[derive(Clone, Copy, Debug, PartialEq, Eq)]
pub enum Limit {
    /// Packages of one link: 65,536.
    Packages,
    /// Rows of one link, the linker's own included: 2^24.
    Rows,
    /// The file part of an image in bytes, up to the end of `.data`: 2^30.
    File,
    /// The end of the last section's addresses: 2^40.
    Address,
    /// The names of the kept symbols in bytes, one more for each: 2^30.
    Names,
}

/// A table of a function's tables of program counters and their like.
#[derive(Clone, Copy, Debug, PartialEq, Eq)]
pub enum Table {
    /// The function's own record.
    Info,
    Pcsp,
    Pcfile,
    Pcline,
    Pcinline,
    Pcdata,
    Funcdata,
    /// The tree of inlined calls.
    Tree,
}

/// Why a command was refused. Paths are as the command line or the configuration spells them, or
/// `stdin` and `stdout`; `count` is the count of faults of the files, or of the stream, after the
/// failed call; `member` counts all members of an archive from 0, and is 0 for a bare object.
/// `importer` and `package` are paths of packages; the main file has the path `main`. `name` is the
/// name of a symbol.
#[derive(Debug, Drop, PartialEq)]
pub enum Cause {
    /// A form that golink does not handle yet.
    NotYet {
        form: Form,
    },
    /// A file or a stream could not be read.
    ReadFault {
        path: Text,
        count: u64,
    },
    /// A file or a stream could not be written whole.
    WriteFault {
        path: Text,
        count: u64,
    },
    /// There is no such file.
    Absent {
        path: Text,
    },
    /// A file or a stream is longer than `limit` bytes; package files are counted together.
    FileTooLong {
        path: Text,
        limit: u64,
    },
    /// A line of a configuration file is bad; lines are counted from 1.
    ConfigBad {
        path: Text,
        line: u32,
    },
    /// A file breaks a rule of its format: its first fault, member by member; in it the broken rule
    /// of least number, and for an object the least offset at which it is broken.
    Malformed {
        path: Text,
        member: u32,
        family: RuleFamily,
        rule: u8,
        offset: u64,
    },
    /// A member is no Go object for this platform.
    NotGoObject {
        path: Text,
        member: u32,
    },
    /// The line of an object differs from that of the first object of the link.
    HeaderLine {
        path: Text,
        member: u32,
        first: Text,
        here: Text,
    },
    /// A package was built for another state of one that it imports.
    Fingerprint {
        importer: Text,
        package: Text,
        /// What the importer was built for.
        wanted: [u8; 8],
        /// What the imported package has.
        found: [u8; 8],
    },
    /// An imported package is not listed in the configuration.
    MissingPackage {
        importer: Text,
        package: Text,
    },
    /// Two definitions of a symbol, of which each has content and neither may be replaced: their load
    /// positions, and the packages of their objects.
    Clash {
        name: Text,
        first: SymId,
        second: SymId,
        packages: (Text, Text),
    },
    /// An init task has to come before itself.
    InitCycle {
        name: Text,
    },
    /// A symbol has no definition; `from` is the symbol that refers to it, empty for the entry.
    Undefined {
        from: Text,
        name: Text,
    },
    /// A kept type breaks rule Y1 to Y8; the offset is in its data.
    TypeBad {
        name: Text,
        rule: u8,
        offset: u32,
    },
    /// A relocation of a kept symbol breaks rule Q1 to Q6; the index counts its relocations.
    RelocBad {
        name: Text,
        rule: u8,
        index: u32,
    },
    /// A kept symbol breaks rule J1 to J5, on its kind.
    KindBad {
        name: Text,
        rule: u8,
    },
    /// A table of a kept function breaks a rule.
    TableBad {
        func: Text,
        table: Table,
        rule: u8,
    },
    /// There is more of something than golink's limit.
    TooLarge {
        limit: Limit,
        number: u64,
    },
    /// The value of a field does not fit it; the offset is in the data of the symbol.
    Overflow {
        name: Text,
        offset: u32,
        value: i128,
    },
    /// An image breaks a rule of its format at an offset of the file.
    ElfBad {
        path: Text,
        rule: u8,
        offset: u64,
    },
    /// A text of an object breaks a rule of its form, X1 to X8; lines are counted from 1.
    TextBad {
        path: Text,
        line: u32,
        rule: u8,
    },
    /// What was asked for would have `number` bytes, more than its format or golink's limit allows.
    TooBig {
        path: Text,
        number: u64,
    },
}
