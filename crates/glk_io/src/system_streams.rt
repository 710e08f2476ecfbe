// Readers and writers of std, such as the system's.
ghost use Rattle.std.specs.Prelude.{◌≡◌, ◌<◌, ℕ, IfOk, length};
ghost use Rattle.std.specs.Io.{ReadsAtMost, WritesAtMost};
ghost use Rattle.std.specs.Io.KnownBytes.{ReadConsumes, WriteAppends};
ghost use Rattle.glk_io.specs.Counts.{count_after_call};
ghost use Rattle.glk_io.specs.Streams.{HasCause};

use super::streams::{Failed, Sink, Source};
use std::io::{Read, Write};

/// A reader of std. What is left is known where the reader knows it, which the system's own do not.
#[derive(Drop)]
pub struct OsSource<R> {
    inner: R,
    faults: u64,
}

impl<R: Read> OsSource<R> {
    /// A source over this reader, without a fault.
    pub fn new(inner: R) -> OsSource<R>
        ensures { ⟦<OsSource<R> as Source>⟧.state result
            ≡ record { left = R.remaining inner; faults = 0 } }
    {
        OsSource { inner, faults: 0 }
    }
}

impl<R: Read> Source for OsSource<R> {
    ghost state = { λ s. record { left = R.remaining s.inner; faults = s.faults } };

    fn faults(&self) -> u64 {
        self.faults
    }

    fn read(&mut self, buf: &mut [u8]) -> Result<usize, Failed>
        ensures bound { ReadsAtMost result buf.new }
        ensures bytes { ReadConsumes (R.remaining self.old.inner) (R.remaining self.new.inner)
            result buf.new }
        ensures cause { HasCause self.old.faults self.new.faults result }
        ensures count { self.new.faults ≡ count_after_call self.old.faults result }
    {
        match self.inner.read(buf) {
            Ok(count) => Ok(count),
            Err(_) => {
                self.faults = self.faults.saturating_add(1);
                Err(Failed)
            }
        }
    }
}

/// A writer of std. What it holds is known where the writer knows it, which the system's own do not.
#[derive(Drop)]
pub struct OsSink<W> {
    inner: W,
    faults: u64,
}

impl<W: Write> OsSink<W> {
    /// A sink over this writer, without a fault.
    pub fn new(inner: W) -> OsSink<W>
        ensures { ⟦<OsSink<W> as Sink>⟧.state result
            ≡ record { held = W.contents inner; faults = 0 } }
    {
        OsSink { inner, faults: 0 }
    }
}

impl<W: Write> Sink for OsSink<W> {
    ghost state = { λ s. record { held = W.contents s.inner; faults = s.faults } };

    fn faults(&self) -> u64 {
        self.faults
    }

    fn write(&mut self, piece: &[u8]) -> Result<usize, Failed>
        ensures bound { WritesAtMost result piece.now }
        ensures some { 0 < length piece.now → IfOk result (λ taken. 0 < taken) }
        ensures bytes { WriteAppends (W.contents self.old.inner) (W.contents self.new.inner)
            result piece.now }
        ensures cause { HasCause self.old.faults self.new.faults result }
        ensures count { self.new.faults ≡ count_after_call self.old.faults result }
    {
        match self.inner.write(piece) {
            // A writer that takes nothing would never end.
            Ok(0) if !piece.is_empty() => {
                self.faults = self.faults.saturating_add(1);
                Err(Failed)
            }
            Ok(count) => Ok(count),
            Err(_) => {
                self.faults = self.faults.saturating_add(1);
                Err(Failed)
            }
        }
    }
}
