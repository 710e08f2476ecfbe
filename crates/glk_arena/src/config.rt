// The import configuration, which `go build` writes for the linker: which file holds a package.
ghost use Rattle.std.specs.Prelude.{◌≡◌, ℕ, List, length, nat_eq, true, None, Some, IsTrue, IfOk, IfErr, OnOk, MatchOption, ◌↔◌};
ghost use Rattle.std.specs.List.{starts_with};
ghost use Rattle.std.specs.Str.{is_utf8};
ghost use Rattle.glk_base.specs.Lines.{lines, trimmed_line, AllGood};
ghost use Rattle.glk_arena.specs.Config.{packagefile, IsGood, IsGoodLine, IsLastFile, Lists};
ghost use Rattle.glk_arena.specs.ConfigViews.{file_in, IsLineOf, Takes, IsFaultOf};

use glk_base::lines::{cut_line, first_of, is_skipped, is_text, trim};
use glk_base::{ConfigLine, Fault, OutOfMemory};
use indexmap::IndexMap;
use std::alloc::Global;

// How a line begins that names the file of a package.
const PACKAGEFILE: &[u8; 12] = b"packagefile ";
// How a line begins that names the modules of the program.
const MODINFO: &[u8; 8] = b"modinfo ";

/// The files of the packages.
#[derive(Drop)]
pub struct Config {
    files: IndexMap<Vec<u8>, String>,
}

// What a line says.
#[derive(Clone, Copy)]
enum Line<'a> {
    Passed,
    Package { path: &'a [u8], file: &'a str },
    Bad,
}

// What a line says that begins `packagefile `.
fn package(line: &[u8]) -> Line<'_>
    requires text { is_utf8 line.now ≡ true }
    requires word { starts_with nat_eq line.now packagefile ≡ true }
    ensures { IsLineOf line.now result }
{
    let rest = &line[PACKAGEFILE.len()..];
    let i = first_of(rest, b'=');
    if i == 0 || i + 1 >= rest.len() {
        return Line::Bad;
    }
    match std::str::from_utf8(&rest[i + 1..]) {
        Ok(file) => Line::Package {
            path: &rest[..i],
            file,
        },
        Err(_) => Line::Bad,
    }
}

// What a line without blanks at its ends says.
fn read(line: &[u8]) -> Line<'_>
    ensures { IsLineOf line.now result }
{
    if is_skipped(line) {
        return Line::Passed;
    }
    if !is_text(line) {
        return Line::Bad;
    }
    if line.starts_with(PACKAGEFILE) {
        return package(line);
    }
    if line.starts_with(MODINFO) {
        return Line::Passed;
    }
    Line::Bad
}

impl Config {
    /// A configuration that lists nothing.
    pub fn new(alloc: Global) -> Config
        ensures { (path : List ℕ) → file_in result path ≡ None }
    {
        Config {
            files: IndexMap::new(alloc),
        }
    }

    /// The files that a text lists, or its first bad line. A line that counts is UTF-8 and has the
    /// form `packagefile PATH=FILE`, cut at the first `=`, where neither is empty, or begins
    /// `modinfo `, which is skipped; blanks at its ends don't count, and empty lines and lines
    /// that begin with `#` are skipped. A path that is listed twice has its last file.
    pub fn parse(alloc: Global, text: &[u8]) -> Result<Config, Fault<ConfigLine>>
        ensures good { OnOk result (AllGood (lines text.now) (IsGoodLine (lines text.now))) }
        ensures files { IfOk result (λ config. (path : List ℕ)
            → IsLastFile (lines text.now) (length (lines text.now)) path (file_in config path)) }
        ensures bad { IfErr result (IsFaultOf (lines text.now)) }
    {
        let mut config = Config::new(alloc);
        let mut rest = Some(text);
        let mut number = 1u32;
        while let Some(left) = rest {
            let (line, after) = cut_line(left);
            if !config.take_line(alloc, trim(line))? {
                return Err(Fault::Bad(ConfigLine { line: number }));
            }
            number = number.saturating_add(1);
            rest = after;
        }
        Ok(config)
    }

    // Lists what a line says, which has no blanks at its ends; false where the line is bad.
    fn take_line(&mut self, alloc: Global, line: &[u8]) -> Result<bool, OutOfMemory>
        ensures good { IfOk result (λ good. IsTrue good ↔ IsGood line.now) }
        ensures files { OnOk result (Takes line.now self.old self.new) }
    {
        match read(line) {
            Line::Passed => Ok(true),
            Line::Package { path, file } => {
                self.list(alloc, line, path, file)?;
                Ok(true)
            }
            Line::Bad => Ok(false),
        }
    }

    // The file is the path's from now on, as the line says.
    fn list(
        &mut self,
        alloc: Global,
        line: &[u8],
        path: &[u8],
        file: &str,
    ) -> Result<(), OutOfMemory>
        requires { Lists line.now path.now file.now }
        ensures { OnOk result (Takes line.now self.old self.new) }
    {
        let _ = line;
        let key = path.to_vec(alloc)?;
        let file = String::from_str(alloc, file)?;
        self.files.insert(key, file)?;
        Ok(())
    }

    /// The file of a package, by the path with which it is listed.
    pub fn file_of(&self, path: &[u8]) -> Option<&str>
        ensures { MatchOption result (file_in self.now path.now ≡ None)
            (λ file. file_in self.now path.now ≡ Some file.now) }
    {
        match self.files.get(path) {
            Some(file) => Some(file.as_str()),
            None => None,
        }
    }
}
