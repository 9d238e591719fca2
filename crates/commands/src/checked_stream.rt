//! A stream that remembers whether it failed.

ghost use Rattle.std.specs.Prelude.{◌≡◌, ◌⊎◌, false, true, IfErr, IfOk, IfSome, IsErrOf, OnErr, OnOk};
ghost use Rattle.std.specs.Io.KnownBytes.{Appends};
ghost use Rattle.commands.specs.Failures.{line_text};
ghost use Rattle.commands.specs.Streams.{Takes, Tells};

use crate::failure::{Failure, device_failure};
use replay::Sink;
use std::alloc::Global;
use std::io::{self, Read, Write};
use std::marker::Model;

/// A reader or a writer, and whether a call of it has failed.
///
/// Nothing but a failed call says so: where a contract has "or the stream failed", no body can
/// claim that of a stream that didn't.
#[derive(Drop)]
pub struct CheckedStream<W> {
    inner: W,
    has_failed: bool,
}

impl<W> Model for CheckedStream<W> {
    ghost use Rattle.commands.specs.Streams.{Stream};

    ghost Value = { Stream W };

    ghost view = { λ t. record { inner = t.inner; has_failed = t.has_failed } };
}

impl<W> CheckedStream<W> {
    /// A stream of which no call has failed yet.
    pub fn new(inner: W) -> CheckedStream<W>
        ensures { result ≡ record { inner = inner; has_failed = false } }
    {
        CheckedStream {
            inner,
            has_failed: false,
        }
    }

    /// The stream itself.
    pub fn into_inner(self) -> W
        ensures { result ≡ self.inner }
    {
        self.inner
    }
}

impl<R: Read> CheckedStream<R> {
    /// Reads all that is left.
    pub fn read_all(&mut self, alloc: Global) -> Result<Vec<u8>, Failure>
        ensures ok { IfOk result (λ bytes. IfSome (R.remaining self.old.inner) (λ left. bytes.items ≡ left)) }
        ensures sound { OnOk result (self.new.has_failed ≡ self.old.has_failed) }
        ensures device { IsErrOf result Failure.Device → self.new.has_failed ≡ true }
        ensures err { IfErr result (λ failure. (failure ≡ Failure.Device) ⊎ (failure ≡ Failure.Memory)) }
    {
        let mut bytes = Vec::new(alloc);
        match self.inner.read_to_end(&mut bytes) {
            Ok(_) => Ok(bytes),
            Err(error) => {
                self.has_failed = true;
                Err(device_failure(&error))
            }
        }
    }
}

impl<W: Write> CheckedStream<W> {
    /// Writes the text, all of it, and has it handed on.
    pub fn print(&mut self, text: &[u8]) -> io::Result<()>
        ensures ok { OnOk result (Takes W.contents self.old self.new text.now) }
        ensures err { OnErr result (self.new.has_failed ≡ true) }
    {
        let written = whole(&mut self.inner, text);
        if let Err(_) = written {
            self.has_failed = true;
        }
        written
    }

    /// Writes the line of standard error that tells the failure.
    pub fn tell(&mut self, failure: Failure)
        ensures { Tells W.contents self.old self.new (line_text failure) }
    {
        if let Err(_) = failure.tell(&mut self.inner) {
            self.has_failed = true;
        }
    }
}

impl<W: Write> Sink for CheckedStream<W> {
    ghost use Rattle.std.specs.Prelude.{◌≡◌, true};
    ghost use Rattle.commands.specs.Streams.{Takes};

    ghost takes = { λ old bytes new. Takes W.contents old new bytes };

    ghost HasFailed = { λ stream. stream.has_failed ≡ true };

    fn take(&mut self, bytes: &[u8]) -> io::Result<()> {
        self.print(bytes)
    }
}

/// Writes the text, all of it, and flushes.
fn whole<W: Write>(writer: &mut W, text: &[u8]) -> io::Result<()>
    ensures { OnOk result (Appends (W.contents writer.old) (W.contents writer.new) text.now) }
{
    writer.write_all(text)?;
    writer.flush()
}
