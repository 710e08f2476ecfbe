// Sources of bytes and sinks for them.
ghost use Rattle.std.specs.Prelude.{◌≡◌, ◌<◌, length, IfOk, OnOk, OnErr};
ghost use Rattle.std.specs.Io.{ReadsAtMost, WritesAtMost};
ghost use Rattle.std.specs.Io.KnownBytes.{ReadConsumes, WriteAppends};
ghost use Rattle.glk_io.specs.Changes.{SourceState, SinkState, SinkAppends, SinkFails};
ghost use Rattle.glk_io.specs.Streams.{HasCause, joined};

/// A read or a write failed, and the count of faults rose.
#[derive(Clone, Copy, Debug, PartialEq, Eq)]
pub struct Failed;

/// A source of bytes, with a count of its faults.
pub trait Source {
    /// The bytes that are left, where they are known, and how many reads have failed.
    ghost state: { Self → SourceState };

    /// How often a read has failed; it stays at the end of its type.
    fn faults(&self) -> u64
        ensures { result ≡ (state self.now).faults };

    /// Puts some of what is left at the start of `buf`, and answers how many bytes. None for a `buf`
    /// that is not empty is the end.
    ///
    /// # Errors
    /// `Failed`, and then alone the count of faults rose. Nothing was taken.
    fn read(&mut self, buf: &mut [u8]) -> Result<usize, Failed>
        ensures bound { ReadsAtMost result buf.new }
        ensures bytes { ReadConsumes (state self.old).left (state self.new).left result buf.new }
        ensures cause { HasCause (state self.old).faults (state self.new).faults result };
}

/// A sink of bytes, with a count of its faults.
pub trait Sink {
    /// The bytes that it holds, where they are known, and how many writes have failed.
    ghost state: { Self → SinkState };

    /// How often a write has failed; it stays at the end of its type.
    fn faults(&self) -> u64
        ensures { result ≡ (state self.now).faults };

    /// Takes a prefix of the piece, and at least one byte of one that is not empty; answers how
    /// many bytes.
    ///
    /// # Errors
    /// `Failed`, and then alone the count of faults rose. Nothing was taken.
    fn write(&mut self, piece: &[u8]) -> Result<usize, Failed>
        ensures bound { WritesAtMost result piece.now }
        ensures some { 0 < length piece.now → IfOk result (λ taken. 0 < taken) }
        ensures bytes { WriteAppends (state self.old).held (state self.new).held result piece.now }
        ensures cause { HasCause (state self.old).faults (state self.new).faults result };
}

/// Writes the piece whole. It takes no memory.
///
/// # Errors
/// `Failed`: a prefix of the piece was written, and the sink's count of faults rose.
pub fn write_all<S: Sink>(sink: &mut S, piece: &[u8]) -> Result<(), Failed>
    ensures whole { OnOk result (SinkAppends (S.state sink.old) (S.state sink.new) piece.now) }
    ensures prefix { OnErr result (SinkFails (S.state sink.old) (S.state sink.new) piece.now) }
{
    let mut at = 0;
    while at < piece.len() {
        at += sink.write(&piece[at..])?;
    }
    Ok(())
}

/// Writes the pieces one after the other. It takes no memory.
///
/// # Errors
/// `Failed`: a prefix of all of them was written, and the sink's count of faults rose.
pub fn write_pieces<S: Sink>(sink: &mut S, pieces: &[&[u8]]) -> Result<(), Failed>
    ensures whole { OnOk result (SinkAppends (S.state sink.old) (S.state sink.new) (joined pieces.now)) }
    ensures prefix { OnErr result (SinkFails (S.state sink.old) (S.state sink.new) (joined pieces.now)) }
{
    for piece in pieces {
        write_all(sink, piece)?;
    }
    Ok(())
}
