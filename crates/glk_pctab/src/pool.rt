// Byte strings, each once.
ghost use Rattle.std.specs.Prelude.{◌≡◌, ◌+◌, ◌<◌, ◌≤◌, ◌^◌, ◌++◌, ◌∷◌, [], IfOk, OnOk, length};
ghost use Rattle.std.specs.HashMap.{get_by};
ghost use Rattle.std.specs.Str.{bytes_eq};
ghost use Rattle.glk_pctab.specs.FirstUse.{concat_of, offset_in};
ghost use Rattle.glk_pctab.specs.Contents.{with_all, clamped};
ghost use Rattle.glk_pctab.specs.Views.{texts_of};

use glk_base::OutOfMemory;
use std::alloc::Global;
use std::collections::HashMap;
use std::marker::Model;

/// Byte strings of first use, each with its offset among all of them, one after the other with a mark
/// after each. Offsets and the size are clamped to u64.
#[derive(Drop)]
pub(crate) struct Pool<'a> {
    mark: &'a [u8],
    elements: Vec<&'a [u8]>,
    offsets: HashMap<&'a [u8], u64>,
    size: u64,
}

impl<'a> Model for Pool<'a> {
    ghost use Rattle.glk_pctab.specs.Contents.{Contents, Fits};
    ghost use Rattle.glk_pctab.specs.Views.{texts_of};

    ghost Value = { Contents };

    ghost view = { λ p. record { mark = p.mark.now; elements = texts_of p.elements.items } };

    ghost invariant = { λ p. Fits p.mark.now (texts_of p.elements.items) p.offsets p.size };
}

impl<'a> Pool<'a> {
    /// No byte strings yet.
    pub(crate) fn new(alloc: Global, mark: &'a [u8]) -> Pool<'a>
        ensures { result ≡ record { mark = mark.now; elements = [] } }
    {
        Pool {
            mark,
            elements: Vec::new(alloc),
            offsets: HashMap::new(alloc),
            size: 0,
        }
    }

    /// Adds a byte string where it is new.
    pub(crate) fn add(&mut self, element: &'a [u8]) -> Result<(), OutOfMemory>
        ensures { OnOk result (self.new ≡ with_all self.old (element.now ∷ [])) }
    {
        match found(&self.offsets, element) {
            Some(_) => return Ok(()),
            None => {}
        }
        self.elements.reserve(1)?;
        self.offsets.insert(element, self.size)?;
        self.elements.push(element)?;
        let size = self.size.saturating_add(element.len() as u64);
        self.size = size.saturating_add(self.mark.len() as u64);
        Ok(())
    }

    /// The offset of a byte string; that of the end where it is not there.
    pub(crate) fn offset(&self, element: &[u8]) -> u32
        requires { length (concat_of self.now.mark self.now.elements) < 2 ^ 32 }
        ensures { result ≡ offset_in self.now.mark self.now.elements element.now }
    {
        found(&self.offsets, element).unwrap_or(self.size) as u32
    }

    /// The number of byte strings.
    pub(crate) fn count(&self) -> usize
        ensures { result ≡ length self.now.elements }
    {
        self.elements.len()
    }

    /// The length of all with their marks.
    pub(crate) fn size(&self) -> u64
        ensures { result ≡ clamped (length (concat_of self.now.mark self.now.elements)) }
    {
        self.size
    }

    /// Adds all with their marks at the end.
    pub(crate) fn write(&self, out: &mut Vec<u8>) -> Result<(), OutOfMemory>
        ensures { OnOk result (out.new.items ≡ out.old.items ++ concat_of self.now.mark self.now.elements) }
    {
        push_elements(out, self.mark, &self.elements)
    }
}

// The offset that is noted for a byte string.
fn found(offsets: &HashMap<&[u8], u64>, element: &[u8]) -> Option<u64>
    ensures { result ≡ get_by (λ k. bytes_eq element.now k.now) offsets.now }
{
    offsets.get(element).copied()
}

// Adds byte strings at the end, a mark after each.
#[tactic(auto, unfolding(crate::specs::FirstUse::concat_of))]
fn push_elements(out: &mut Vec<u8>, mark: &[u8], elements: &[&[u8]]) -> Result<(), OutOfMemory>
    ensures { OnOk result (out.new.items ≡ out.old.items ++ concat_of mark.now (texts_of elements.now)) }
{
    let mut rest = elements;
    while let [first, after @ ..] = rest {
        out.extend_from_slice(first)?;
        out.extend_from_slice(mark)?;
        rest = after;
    }
    Ok(())
}
