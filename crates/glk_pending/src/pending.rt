// Bytes that wait to be written, so that a sink is called once for many lines.
ghost use Rattle.std.specs.Prelude.{◌≡◌, ◌≤◌, ◌+◌, ◌++◌, [], IfOk, OnOk, OnErr, length};
ghost use Rattle.glk_io.specs.Changes.{SinkAppends, SinkFails};
ghost use Rattle.glk_io.specs.Streams.{joined};
ghost use Rattle.glk_pending.specs.Writing.{WritesAfter};

use glk_base::OutOfMemory;
use glk_io::{Failed, Sink, write_all};
use std::alloc::Global;
use std::marker::Model;

// How many bytes may wait.
const ROOM: usize = 1 << 16;

/// Bytes that wait to be written, at most 64 KiB. All its memory is taken when it is made. Contracts see
/// the bytes.
#[derive(Drop)]
pub struct Pending {
    bytes: Vec<u8>,
}

impl Model for Pending {
    ghost use Rattle.std.specs.Prelude.{List, ℕ, ◌≤◌, vec_len, vec_capacity};
    ghost use Rattle.glk_pending.specs.declared.pending.TheConstants.{ROOM};

    ghost Value = { List ℕ };

    ghost view = { λ p. p.bytes.items };

    ghost invariant = { λ p. record {
      within : vec_len p.bytes ≤ ROOM;
      taken : ROOM ≤ vec_capacity p.bytes;
    } };
}

impl Pending {
    /// No bytes, with room for all that may wait.
    pub fn new(alloc: Global) -> Result<Pending, OutOfMemory>
        ensures { IfOk result (λ pending. pending ≡ []) }
    {
        let bytes = Vec::with_capacity(alloc, ROOM)?;
        Ok(Pending { bytes })
    }

    /// Writes the bytes that wait. It takes no memory.
    ///
    /// # Errors
    /// `Failed`: a prefix of them was written, and the sink's count of faults rose.
    pub fn flush<O: Sink>(&mut self, out: &mut O) -> Result<(), Failed>
        ensures none { OnOk result (self.new ≡ []) }
        ensures whole { OnOk result (SinkAppends (O.state out.old) (O.state out.new) self.old) }
        ensures prefix { OnErr result (SinkFails (O.state out.old) (O.state out.new) self.old) }
    {
        write_all(out, &self.bytes)?;
        self.bytes.clear();
        Ok(())
    }

    // Lets a text wait.
    fn keep(&mut self, text: &[u8])
        requires { length self.old + length text.now ≤ ROOM }
        ensures { self.new ≡ self.old ++ text.now }
    {
        // It fits in what `new` took.
        self.bytes.extend_from_slice(text).unwrap();
    }

    // Writes the bytes that wait, and then a text, which waits where it fits.
    fn write_through<O: Sink>(&mut self, text: &[u8], out: &mut O) -> Result<(), Failed>
        ensures { WritesAfter (O.state out.old) (O.state out.new) self.old self.new text.now result }
    {
        self.flush(out)?;
        if text.len() > ROOM {
            return write_all(out, text);
        }
        self.keep(text);
        Ok(())
    }

    /// Writes a text, whose end may wait. It takes no memory.
    ///
    /// # Errors
    /// `Failed`: a prefix of what waited and the text was written, and the sink's count of faults rose.
    pub fn write<O: Sink>(&mut self, text: &[u8], out: &mut O) -> Result<(), Failed>
        ensures { WritesAfter (O.state out.old) (O.state out.new) self.old self.new text.now result }
    {
        if text.len() > ROOM - self.bytes.len() {
            return self.write_through(text, out);
        }
        self.keep(text);
        Ok(())
    }

    /// Writes these texts, one after the other; their end may wait. It takes no memory.
    ///
    /// # Errors
    /// `Failed`: a prefix of what waited and the texts was written, and the sink's count of faults rose.
    pub fn write_each<O: Sink>(&mut self, texts: &[&[u8]], out: &mut O) -> Result<(), Failed>
        ensures { WritesAfter (O.state out.old) (O.state out.new) self.old self.new
            (joined texts.now) result }
    {
        for text in texts {
            self.write(text, out)?;
        }
        Ok(())
    }
}
