//! Where bytes are written.

ghost use Rattle.std.specs.Prelude.{◌≡◌, ◌<◌, ◌≤◌, [], IfOk, length};
ghost use Rattle.outside_io.specs.Sink.{Flushes, Puts, SinkSeen, Writes};

/// A put or a flush failed, and the count of faults rose. A put that failed took nothing.
#[derive(Clone, Copy, Debug, PartialEq, Eq)]
pub struct Failed;

/// A sink: the bytes that it took, of which some may wait in it, and how often it failed.
pub trait Sink {
    /// What it tells: the bytes handed on to where they stay, if these are told, the bytes that wait
    /// in it, and how often a put or a flush has failed, up to 2^64 - 1.
    ghost seen: { Self → SinkSeen };

    /// Takes a front of the piece, at least one byte of it, and answers how many bytes it took. The
    /// piece may not be empty.
    ///
    /// `Failed` comes only where the count of faults rose in this call, and then nothing was taken;
    /// every other answer leaves the count. Whatever it answers, what was handed on grows only by a
    /// front of what waited and of the piece. Where the bytes are told afterwards, they were told
    /// before.
    fn put(&mut self, piece: &[u8]) -> Result<usize, Failed>
        requires { 0 < length piece.now }
        ensures some { IfOk result (λ count. 0 < count) }
        ensures within { IfOk result (λ count. count ≤ length piece.now) }
        ensures puts { Puts (seen self.old) (seen self.new) result piece.now };

    /// Hands on what waits. It takes nothing more.
    ///
    /// `Failed` comes only where the count of faults rose in this call, and then some of it waits
    /// still; every other answer leaves the count, and then nothing waits.
    fn flush(&mut self) -> Result<(), Failed>
        ensures { Flushes (seen self.old) (seen self.new) result };
}

/// Puts these bytes, and again the rest of them, until all are taken. Empty bytes make no put.
///
/// `Failed` comes from the first put that fails, and then a proper prefix of the bytes was taken.
/// Where none fails, the count of faults stays.
pub fn put_all<S: Sink>(out: &mut S, bytes: &[u8]) -> Result<(), Failed>
    ensures writes { Writes (S.seen out.old) (S.seen out.new) result bytes.now }

    // Nothing is asked of the sink where there is nothing to put.
    ensures empty { bytes.now ≡ [] → out.new ≡ out.old }
{
    let mut at = 0;
    while at < bytes.len() {
        at += out.put(&bytes[at..])?;
    }
    Ok(())
}
