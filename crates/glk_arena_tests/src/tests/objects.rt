// Package files in bytes: bare objects that import packages, and worlds of them.
use glk_arena::Config;
use glk_io::{Files, MemFiles};
use std::alloc::Global;
use std::test::Fail;

// The line of the objects here.
pub const LINE: &str = "go object linux amd64 t";

// The bytes before the first string of an object.
const HEADER: usize = 96;

// An object: a fingerprint of eight equal bytes, how many symbols it has, and what it imports.
#[derive(Drop)]
pub struct Object {
    print: u8,
    symbols: usize,
    names: Vec<u8>,
    entries: Vec<u8>,
}

// Pushes a number of four bytes.
fn push_number(bytes: &mut Vec<u8>, n: usize) -> Result<(), Fail> {
    bytes.extend_from_slice(&n.to_le_bytes()[..4])?;
    Ok(())
}

// Pushes a number of four bytes `times` times.
fn push_numbers(bytes: &mut Vec<u8>, n: usize, times: usize) -> Result<(), Fail> {
    for _ in 0..times {
        push_number(bytes, n)?;
    }
    Ok(())
}

impl Object {
    pub fn new(alloc: Global, print: u8, symbols: usize) -> Object {
        Object {
            print,
            symbols,
            names: Vec::new(alloc),
            entries: Vec::new(alloc),
        }
    }

    // It imports a package, of which it wants a fingerprint of eight equal bytes.
    pub fn import(&mut self, name: &[u8], print: u8) -> Result<(), Fail> {
        push_number(&mut self.entries, name.len())?;
        push_number(&mut self.entries, self.names.len().saturating_add(HEADER))?;
        self.entries.extend_from_slice(&[print; 8])?;
        self.names.extend_from_slice(name)?;
        Ok(())
    }

    // Where its blocks begin.
    fn push_places(&self, file: &mut Vec<u8>) -> Result<(), Fail> {
        let autolib = self.names.len().saturating_add(HEADER);
        let packages = autolib.saturating_add(self.entries.len());
        let files = packages.saturating_add(8);
        let hashed = files.saturating_add(self.symbols.saturating_mul(21));
        let table = self.symbols.saturating_add(1).saturating_mul(4);
        push_number(file, autolib)?;
        push_number(file, packages)?;
        // File and Symdef, those from Hashed64def to RelocIdx, AuxIdx, DataIdx, those from Reloc on.
        push_numbers(file, files, 2)?;
        push_numbers(file, hashed, 8)?;
        push_number(file, hashed.saturating_add(table))?;
        push_number(file, hashed.saturating_add(table.saturating_mul(2)))?;
        push_numbers(file, hashed.saturating_add(table.saturating_mul(3)), 5)
    }

    // Its file, with this line before it.
    pub fn file(&self, alloc: Global, line: &str) -> Result<Vec<u8>, Fail> {
        let mut file = line.as_bytes().to_vec(alloc)?;
        file.extend_from_slice(b"\n!\n\x00go120ld")?;
        file.extend_from_slice(&[self.print; 8])?;
        push_number(&mut file, 0)?;
        self.push_places(&mut file)?;
        file.extend_from_slice(&self.names)?;
        file.extend_from_slice(&self.entries)?;
        file.extend_from_slice(&[0; 8])?;
        for _ in 0..self.symbols {
            // A function without a name and without data.
            file.extend_from_slice(&[0, 0, 0, 0, 0, 0, 0, 0, 0, 0, 1])?;
            file.extend_from_slice(&[0; 10])?;
        }
        push_numbers(
            &mut file,
            0,
            self.symbols.saturating_add(1).saturating_mul(3),
        )?;
        Ok(file)
    }
}

// Puts bytes at a path.
pub fn put(alloc: Global, files: &mut MemFiles, path: &str, bytes: &[u8]) -> Result<(), Fail> {
    match files.write_file(alloc, path, bytes) {
        Ok(()) => Ok(()),
        Err(_) => Err(Fail::from("no write")),
    }
}

// A path and its fingerprint: `p#3` is p with 0x33 eight times, and `p` has none.
fn word(text: &str) -> (&str, u8) {
    match text.split_once('#') {
        Some((path, print)) => match print.as_bytes().first() {
            Some(digit) => (path, (*digit & 15).wrapping_mul(0x11)),
            None => (path, 0),
        },
        None => (text, 0),
    }
}

// Puts the package of a line: its path, and what it imports. All but `main` are listed.
fn put_package(
    alloc: Global,
    files: &mut MemFiles,
    text: &mut Vec<u8>,
    line: &str,
) -> Result<(), Fail> {
    let (first, rest) = match line.split_once(' ') {
        Some(parts) => parts,
        None => (line, ""),
    };
    let (path, print) = word(first);
    let mut object = Object::new(alloc, print, 0);
    for import in rest.split(' ') {
        let (name, wanted) = word(import);
        if !name.is_empty() {
            object.import(name.as_bytes(), wanted)?;
        }
    }
    let file = object.file(alloc, LINE)?;
    put(alloc, files, path, &file)?;
    if path != "main" {
        list(text, path)?;
    }
    Ok(())
}

// Lists a package, whose file is at its path.
fn list(text: &mut Vec<u8>, path: &str) -> Result<(), Fail> {
    text.extend_from_slice(b"packagefile ")?;
    text.extend_from_slice(path.as_bytes())?;
    text.extend_from_slice(b"=")?;
    text.extend_from_slice(path.as_bytes())?;
    text.extend_from_slice(b"\n")?;
    Ok(())
}

// Files of packages, one a line, and a configuration that lists all but `main`.
pub fn world_of(alloc: Global, packages: &str) -> Result<(MemFiles, Config), Fail> {
    let mut files = MemFiles::new(Vec::new(alloc), Vec::new(alloc));
    let mut text = Vec::new(alloc);
    for line in packages.split('\n') {
        put_package(alloc, &mut files, &mut text, line)?;
    }
    let config = Config::parse(alloc, &text)?;
    Ok((files, config))
}
