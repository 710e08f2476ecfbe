// What a script works on: its files, what the next run meets, and how the last run ended.
ghost use Rattle.std.specs.Prelude.{◌≡◌, ◌⊎◌, OnOk, true};

use crate::show::{same, shown};
use crate::stop::Stop;
use crate::words::{Word, number};
use glk_io::CallFail;
use std::alloc::Global;

/// A file of a script.
#[derive(Drop)]
pub struct Named {
    pub name: String,
    pub bytes: Vec<u8>,
}

/// What the next run meets: calls that fail, by their number from 0, and sinks that are full.
#[derive(Drop)]
pub struct Faults {
    pub files: Vec<CallFail>,
    pub input: Vec<u64>,
    pub out: Vec<u64>,
    pub err: Vec<u64>,
    pub out_room: usize,
    pub err_room: usize,
}

// Room enough for all that a script prints.
const ROOM: usize = 1 << 22;

impl Faults {
    /// None.
    pub(crate) fn none(alloc: Global) -> Faults {
        Faults {
            files: Vec::new(alloc),
            input: Vec::new(alloc),
            out: Vec::new(alloc),
            err: Vec::new(alloc),
            out_room: ROOM,
            err_room: ROOM,
        }
    }
}

/// What a run wrote to a stream, and whether a line has looked at it.
#[derive(Drop)]
pub struct Stream {
    pub bytes: Vec<u8>,
    pub is_checked: bool,
}

/// How a run ended, and what of it no line has looked at yet.
#[derive(Drop)]
pub struct Ended {
    pub line: u32,
    pub status: u8,
    pub is_status_checked: bool,
    pub out: Stream,
    pub err: Stream,
    /// How many calls on files failed, and how many were to.
    pub failed: u64,
    pub listed: u64,
    /// A file that changed, where the run was refused and no write failed.
    pub changed: Option<String>,
}

/// The files of a script, its next run and its last one.
#[derive(Drop)]
pub struct Stage {
    /// The folder of the script, where its path names one.
    folder: Option<String>,
    pub files: Vec<Named>,
    pub faults: Faults,
    pub input: Vec<u8>,
    pub last: Option<Ended>,
}

impl Stage {
    /// No files of the script at this path, and no run yet.
    pub(crate) fn new(alloc: Global, script: &str) -> Result<Stage, Stop> {
        let folder = match script.rsplit_once('/') {
            Some((folder, _)) => Some(String::from_str(alloc, folder)?),
            None => None,
        };
        Ok(Stage {
            folder,
            files: Vec::new(alloc),
            faults: Faults::none(alloc),
            input: Vec::new(alloc),
            last: None,
        })
    }

    /// The path of a file beside the script.
    pub(crate) fn path_beside(&self, alloc: Global, name: &str) -> Result<String, Stop> {
        Ok(match &self.folder {
            Some(folder) => format!(in alloc; "{folder}/{name}")?,
            None => String::from_str(alloc, name)?,
        })
    }

    /// The bytes of a file, or of what the last run wrote to a stream.
    pub(crate) fn bytes(&self, name: &str) -> Option<&[u8]> {
        if let Some(ended) = &self.last {
            match name {
                "stdout" => return Some(ended.out.bytes.as_slice()),
                "stderr" => return Some(ended.err.bytes.as_slice()),
                _ => {}
            }
        }
        for file in &self.files {
            if file.name.as_str() == name {
                return Some(file.bytes.as_slice());
            }
        }
        None
    }

    /// The bytes of what a check names; a stream has been looked at then.
    pub(crate) fn checked(&mut self, alloc: Global, name: &str) -> Result<&[u8], Stop> {
        if let Some(ended) = &mut self.last {
            ended.out.is_checked |= name == "stdout";
            ended.err.is_checked |= name == "stderr";
        }
        match self.bytes(name) {
            Some(bytes) => Ok(bytes),
            None => Err(Stop::Line(format!(in alloc; "no such file: {name}")?)),
        }
    }

    /// Puts a file in place of what has its name.
    pub(crate) fn put(&mut self, alloc: Global, name: &str, bytes: Vec<u8>) -> Result<(), Stop> {
        let name = String::from_str(alloc, name)?;
        self.files.retain(|file| file.name != name);
        self.files.push(Named { name, bytes })?;
        Ok(())
    }

    /// Nothing is left of the last run that no line has looked at and that is not as it is where
    /// nothing is said: status 0, nothing written, all listed faults met, no file of a refusal changed.
    pub(crate) fn settle(&self, alloc: Global) -> Result<(), Stop> {
        let Some(ended) = &self.last else {
            return Ok(());
        };
        ended_well(alloc, ended)?;
        unwritten(alloc, "stderr", &ended.err)?;
        unwritten(alloc, "stdout", &ended.out)?;
        if ended.failed != ended.listed {
            let (listed, failed) = (ended.listed, ended.failed);
            return Err(Stop::Line(format!(in alloc;
                "calls of files that fail: wanted {listed}, found {failed}"
            )?));
        }
        match &ended.changed {
            Some(name) => Err(Stop::Line(format!(in alloc; "a refusal changed {name}")?)),
            None => Ok(()),
        }
    }

    /// The bytes that these words spell: hexadecimal digits, text in quotes, `N*DIGITS`, `@FILE`,
    /// and `@FILE[FROM..TO]`.
    pub(crate) fn value(&self, alloc: Global, words: &[Word]) -> Result<Vec<u8>, Stop> {
        let mut bytes = Vec::new(alloc);
        for word in words {
            match word {
                Word::Quoted(text) => bytes.extend_from_slice(text.as_bytes())?,
                Word::Bare(text) => self.spell(alloc, text.as_str(), &mut bytes)?,
            }
        }
        Ok(bytes)
    }

    /// The same where these are some bytes: a check of none would always pass.
    pub(crate) fn some_value(&self, alloc: Global, words: &[Word]) -> Result<Vec<u8>, Stop> {
        let bytes = self.value(alloc, words)?;
        if bytes.is_empty() {
            return Err(Stop::because(alloc, "no bytes to look for"));
        }
        Ok(bytes)
    }

    // Adds the bytes of one word.
    fn spell(&self, alloc: Global, word: &str, bytes: &mut Vec<u8>) -> Result<(), Stop> {
        if let Some(part) = word.strip_prefix('@') {
            bytes.extend_from_slice(self.part(alloc, part)?)?;
            return Ok(());
        }
        let (count, digits) = match word.split_once('*') {
            Some((count, digits)) => (number(alloc, count)?, digits),
            None => (1, word),
        };
        let Ok(octets) = hex::decode(alloc, digits) else {
            return Err(Stop::Line(format!(in alloc; "no bytes: {word}")?));
        };
        for _ in 0..count {
            bytes.extend_from_slice(octets.as_slice())?;
        }
        Ok(())
    }

    // A file, or a part of it.
    fn part(&self, alloc: Global, spelled: &str) -> Result<&[u8], Stop> {
        let (name, range) = match spelled.split_once('[') {
            Some((name, range)) => (name, range.strip_suffix(']').unwrap_or(range)),
            None => (spelled, ".."),
        };
        let (from, to) = range.split_once("..").unwrap_or((range, range));
        let Some(bytes) = self.bytes(name) else {
            return Err(Stop::Line(format!(in alloc; "no such file: {name}")?));
        };
        let from = if from.is_empty() {
            0
        } else {
            number(alloc, from)?
        };
        let to = if to.is_empty() {
            bytes.len()
        } else {
            number(alloc, to)?
        };
        match bytes.get(from..to) {
            Some(part) => Ok(part),
            None => Err(Stop::Line(format!(in alloc; "no such part: {spelled}")?)),
        }
    }
}

/// A run ended with status 0, or a line has looked at its status.
pub(crate) fn ended_well(alloc: Global, ended: &Ended) -> Result<(), Stop>
    ensures { OnOk result ((ended.now.is_status_checked ≡ true) ⊎ (ended.now.status ≡ 0)) }
{
    if ended.is_status_checked || ended.status == 0 {
        return Ok(());
    }
    let said = shown(alloc, ended.err.bytes.as_slice())?;
    let status = ended.status;
    Err(Stop::Line(format!(in alloc; "status: wanted 0, found {status}; stderr: {said}")?))
}

// Nothing was written to a stream, or a line has looked at it.
fn unwritten(alloc: Global, name: &str, stream: &Stream) -> Result<(), Stop> {
    if stream.is_checked || stream.bytes.is_empty() {
        return Ok(());
    }
    let found = shown(alloc, stream.bytes.as_slice())?;
    Err(Stop::Line(format!(in alloc; "{name}: wanted nothing, found {found}")?))
}

/// The last run wrote this to a stream.
pub(crate) fn wrote(alloc: Global, stream: &mut Stream, wanted: &[u8]) -> Result<(), Stop>
    ensures { OnOk result (wanted.now ≡ stream.new.bytes.items) }
{
    stream.is_checked = true;
    same(alloc, wanted, stream.bytes.as_slice(), 0)
}
