// The strings of an object, each once.
ghost use Rattle.std.specs.Prelude.{◌≡◌, ◌+◌, ◌<◌, ◌≤◌, ◌^◌, ◌++◌, ℕ, List, [], IfOk, OnOk, OnErr, length, map, unwrap_or};
ghost use Rattle.std.specs.HashMap.{get_by};
ghost use Rattle.std.specs.Str.{bytes_eq};
ghost use Rattle.glk_obj.specs.Blocks.{header_length};
ghost use Rattle.glk_objdesc.specs.FirstUse.{with_first, with_each, concat_of, offset_in};
ghost use Rattle.glk_objdesc.specs.Canonical.{text_offset, clamped, autolib_path, def_name, sym_name, ref_name, pool_of, object_limit};
ghost use Rattle.glk_objdesc.specs.Views.{texts_of};

use crate::desc::{AutolibDesc, DefDesc, ObjDesc, RefNameDesc, SymDesc};
use glk_base::{OutOfMemory, Text};
use glk_obj::HEADER_LENGTH;
use std::alloc::Global;
use std::collections::HashMap;
use std::marker::Model;

// Where the strings begin in an object: after the header.
const STRINGS: u32 = HEADER_LENGTH as u32;

/// Strings of first use, each with its offset in their concatenation. Contracts see it as the list of the
/// strings. Offsets and the size are clamped to u64.
#[derive(Drop)]
pub(crate) struct Pool<'a> {
    strings: Vec<&'a [u8]>,
    offsets: HashMap<&'a [u8], u64>,
    size: u64,
}

impl<'a> Model for Pool<'a> {
    ghost use Rattle.std.specs.Prelude.{List, ℕ};
    ghost use Rattle.glk_objdesc.specs.Views.{texts_of, Fits};

    ghost Value = { List (List ℕ) };

    ghost view = { λ p. texts_of p.strings.items };

    ghost invariant = { λ p. Fits (texts_of p.strings.items) p.offsets p.size };
}

impl<'a> Pool<'a> {
    fn new(alloc: Global) -> Pool<'a>
        ensures { result ≡ [] }
    {
        Pool {
            strings: Vec::new(alloc),
            offsets: HashMap::new(alloc),
            size: 0,
        }
    }

    // Adds a string where it is new and not empty.
    fn add(&mut self, string: &'a [u8]) -> Result<(), OutOfMemory>
        ensures { OnOk result (self.new ≡ with_first self.old string.now) }
    {
        if string.is_empty() {
            return Ok(());
        }
        match found(&self.offsets, string) {
            Some(_) => return Ok(()),
            None => {}
        }
        self.strings.reserve(1)?;
        self.offsets.insert(string, self.size)?;
        self.strings.push(string)?;
        self.size = self.size.saturating_add(string.len() as u64);
        Ok(())
    }

    /// The offset of a string in the object; 0 of an empty one.
    pub(crate) fn offset(&self, string: &[u8]) -> u32
        requires { length (concat_of self.now) ≤ object_limit }
        ensures { result ≡ text_offset self.now string.now }
    {
        if string.is_empty() {
            return 0;
        }
        STRINGS + found(&self.offsets, string).unwrap_or(self.size) as u32
    }

    /// The length of the concatenation.
    pub(crate) fn size(&self) -> u64
        ensures { result ≡ clamped (length (concat_of self.now)) }
    {
        self.size
    }

    /// Adds the concatenation at the end.
    pub(crate) fn write(&self, out: &mut Vec<u8>) -> Result<(), OutOfMemory>
        ensures { OnOk result (out.new.items ≡ out.old.items ++ concat_of self.now) }
    {
        push_strings(out, &self.strings)
    }
}

// The offset that is noted for a string.
fn found(offsets: &HashMap<&[u8], u64>, string: &[u8]) -> Option<u64>
    ensures { result ≡ get_by (λ k. bytes_eq string.now k.now) offsets.now }
{
    offsets.get(string).copied()
}

// Adds strings at the end.
#[tactic(auto, unfolding(crate::specs::FirstUse::concat_of))]
fn push_strings(out: &mut Vec<u8>, strings: &[&[u8]]) -> Result<(), OutOfMemory>
    ensures { OnOk result (out.new.items ≡ out.old.items ++ concat_of (texts_of strings.now)) }
{
    for string in strings {
        out.extend_from_slice(string)?;
    }
    Ok(())
}

/// What has a string of its own in the object.
pub(crate) trait Named {
    ghost name: { Self → List ℕ };

    // The string.
    fn name(&self) -> &[u8]
        ensures { result.now ≡ name self.now };
}

// The path of a package.
impl Named for AutolibDesc {
    ghost name = { autolib_path };

    fn name(&self) -> &[u8] {
        self.path.as_bytes()
    }
}

// The name of a package or a file.
impl Named for Text {
    ghost name = { λ text. text };

    fn name(&self) -> &[u8] {
        self.as_bytes()
    }
}

// The name of a definition.
impl Named for DefDesc {
    ghost name = { def_name };

    fn name(&self) -> &[u8] {
        self.sym.name.as_bytes()
    }
}

// The name of a reference.
impl Named for SymDesc {
    ghost name = { sym_name };

    fn name(&self) -> &[u8] {
        self.name.as_bytes()
    }
}

// The name of a symbol of another package.
impl Named for RefNameDesc {
    ghost name = { ref_name };

    fn name(&self) -> &[u8] {
        self.name.as_bytes()
    }
}

// Adds the strings of these.
#[tactic(auto, unfolding(crate::specs::FirstUse::with_each))]
fn add_names<'a, T: Named>(pool: &mut Pool<'a>, items: &'a [T]) -> Result<(), OutOfMemory>
    ensures { OnOk result (pool.new ≡ with_each pool.old (map T.name items.now)) }
{
    for item in items {
        pool.add(item.name())?;
    }
    Ok(())
}

/// The strings of an object, in the order of the blocks that name them.
#[tactic(auto, unfolding(crate::specs::Canonical::pool_of))]
pub(crate) fn pool_of<'a>(alloc: Global, d: &'a ObjDesc) -> Result<Pool<'a>, OutOfMemory>
    ensures { IfOk result (λ pool. pool ≡ pool_of d.now) }
{
    let mut pool = Pool::new(alloc);
    add_names(&mut pool, d.autolib.as_slice())?;
    add_names(&mut pool, d.pkgs.as_slice())?;
    add_names(&mut pool, d.files.as_slice())?;
    add_names(&mut pool, d.defs.as_slice())?;
    add_names(&mut pool, d.hash64.as_slice())?;
    add_names(&mut pool, d.hashed.as_slice())?;
    add_names(&mut pool, d.ndefs.as_slice())?;
    add_names(&mut pool, d.refs.as_slice())?;
    add_names(&mut pool, d.ref_names.as_slice())?;
    Ok(pool)
}
