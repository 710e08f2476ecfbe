// The commands of golink with their flags.
ghost use Rattle.std.specs.Prelude.{◌≡◌};
ghost use Rattle.glk_words.specs.Commands.{commands, flags_of, takes_file, is_truth, accepts};
ghost use Rattle.glk_words.specs.Values.{found_in};
ghost use Rattle.glk_words.specs.declared.commands.Command.TheVariants as command;

use crate::values::{WORKER_LIMIT, is_up_to, number, order_named, truth};
use glk_base::FUNCTION_LIMIT;

/// A command, the first word of a command line.
#[derive(Clone, Copy, Debug, PartialEq, Eq)]
pub enum Command {
    /// Links a package file with its imports to an image.
    Link,
    /// Makes a package archive of an object in text form.
    Mkobj,
    /// Prints the objects of a package file in text form.
    Dump,
    /// Lists the symbols of an image.
    Nm,
    /// Prints the functions and lines of addresses in an image.
    Addr2line,
    /// Makes a world of packages, links it, and prints a summary.
    Gen,
}

/// A flag of a command.
#[derive(Clone, Copy, Debug, PartialEq, Eq)]
pub enum Flag {
    /// `-o FILE`: the file to write.
    Out,
    /// `-importcfg FILE`: the files of packages.
    ImportCfg,
    /// `-numbers FILE`: the numbers of relocation kinds.
    Numbers,
    /// `-builtin FILE`: the list of builtin symbols.
    Builtin,
    /// `-E NAME`: the entry symbol.
    Entry,
    /// `-s`: no symbol table.
    Strip,
    /// `-w`: no DWARF, of which there is none.
    OmitDwarf,
    /// `-workers N`: how many threads work at once.
    Workers,
    /// `-buildmode MODE`: the kind of image, `exe` alone.
    BuildMode,
    /// `-buildid ID`: read, and not written.
    BuildId,
    /// `-extld LINKER`: a host linker, which is never run.
    ExtLd,
    /// `-n`: the same as `-sort address`.
    ByAddress,
    /// `-size`: with sizes.
    Size,
    /// `-sort ORDER`: the order of symbols.
    Sort,
    /// `-i`: with inlined frames.
    Inline,
    /// `-seed N`: the random seed.
    Seed,
    /// `-n N`: how many functions.
    Count,
}

impl Command {
    /// The command of this name.
    pub fn named(name: &str) -> Option<Command>
        ensures { result ≡ found_in commands name.now }
    {
        match name {
            "link" => Some(Command::Link),
            "mkobj" => Some(Command::Mkobj),
            "dump" => Some(Command::Dump),
            "nm" => Some(Command::Nm),
            "addr2line" => Some(Command::Addr2line),
            "gen" => Some(Command::Gen),
            _ => None,
        }
    }

    /// The command's flag of this name, which is without dashes.
    #[tactic(auto, unfolding(crate::specs::Commands::flags_of))]
    pub fn flag(self, name: &str) -> Option<Flag>
        ensures { result ≡ found_in (flags_of self) name.now }
    {
        match self {
            Command::Link => link_flag(name),
            Command::Mkobj => (name == "o").then_some(Flag::Out),
            Command::Dump => None,
            Command::Nm => match name {
                "n" => Some(Flag::ByAddress),
                "size" => Some(Flag::Size),
                "sort" => Some(Flag::Sort),
                _ => None,
            },
            Command::Addr2line => (name == "i").then_some(Flag::Inline),
            Command::Gen => match name {
                "seed" => Some(Flag::Seed),
                "n" => Some(Flag::Count),
                "workers" => Some(Flag::Workers),
                _ => None,
            },
        }
    }

    /// Whether the command works on one file, which its last word names.
    pub fn takes_file(self) -> bool
        ensures { result ≡ takes_file self }
    {
        !matches!(self, Command::Gen)
    }
}

// The flag of `link` of this name.
#[tactic(auto, unfolding(crate::specs::Commands::flags_of))]
fn link_flag(name: &str) -> Option<Flag>
    ensures { result ≡ found_in (flags_of command.Link) name.now }
{
    match name {
        "o" => Some(Flag::Out),
        "importcfg" => Some(Flag::ImportCfg),
        "numbers" => Some(Flag::Numbers),
        "builtin" => Some(Flag::Builtin),
        "E" => Some(Flag::Entry),
        "s" => Some(Flag::Strip),
        "w" => Some(Flag::OmitDwarf),
        "workers" => Some(Flag::Workers),
        "buildmode" => Some(Flag::BuildMode),
        "buildid" => Some(Flag::BuildId),
        "extld" => Some(Flag::ExtLd),
        _ => None,
    }
}

impl Flag {
    /// Whether the flag stands alone; its value, if any, follows an `=`.
    pub fn is_truth(self) -> bool
        ensures { result ≡ is_truth self }
    {
        matches!(
            self,
            Flag::Strip | Flag::OmitDwarf | Flag::ByAddress | Flag::Size | Flag::Inline
        )
    }

    /// Whether the flag accepts this value.
    #[tactic(auto, unfolding(crate::specs::Commands::accepts))]
    pub fn accepts(self, value: &str) -> bool
        ensures { result ≡ accepts self value.now }
    {
        match self {
            Flag::Out
            | Flag::ImportCfg
            | Flag::Numbers
            | Flag::Builtin
            | Flag::Entry
            | Flag::BuildId
            | Flag::ExtLd => true,
            Flag::Strip | Flag::OmitDwarf | Flag::ByAddress | Flag::Size | Flag::Inline => {
                truth(value).is_some()
            }
            Flag::Workers => is_up_to(WORKER_LIMIT, number(value)),
            Flag::BuildMode => value == "exe",
            Flag::Sort => order_named(value).is_some(),
            Flag::Seed => number(value).is_some(),
            Flag::Count => is_up_to(u64::from(FUNCTION_LIMIT), number(value)),
        }
    }
}
