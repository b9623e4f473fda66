// Standard input and output. No proof covers the bytes that the system reads and writes. The code that passes them on
// and counts the errors is proved.
ghost use Rattle.std.specs.Prelude.{◌≡◌, ◌<◌, ◌≤◌, [], length, take, Some, IfOk, OnOk, OnErr};
ghost use Rattle.std.specs.Io.KnownBytes.{Appends, Consumes, IsAtEnd, Keeps};
ghost use Rattle.ex_io.specs.Ends.{Rose};
ghost use Rattle.ex_io.specs.Standard.{faults_after};

use crate::ends::{Failed, Sink, Source};
use crate::faults::Faults;
use std::io::{Read, Stdin, Stdout, Write};
use std::marker::Model;

/// A source over a reader, by default standard input. It exposes its bytes if the reader does, and standard input does
/// not.
///
/// Each read is one read of the reader, without a buffer. Each error of the reader counts. An interrupted call also
/// counts, and occurs only in a program that handles signals.
#[derive(Drop)]
pub struct StdSource<R = Stdin> {
    reader: R,
    faults: Faults,
}

impl<R> Model for StdSource<R> {
    ghost use Rattle.ex_io.specs.Standard.{Endpoint};

    ghost Value = { Endpoint R };

    ghost view = { λ s. record { inner = s.reader; faults = s.faults } };
}

impl<R: Read> StdSource<R> {
    /// Returns a source over the reader, with an error count of 0.
    pub fn new(reader: R) -> StdSource<R>
        ensures { result ≡ record { inner = reader; faults = 0 } }
    {
        StdSource {
            reader,
            faults: Faults::new(),
        }
    }
}

impl<R: Read> Source for StdSource<R> {
    ghost left = { λ s. R.remaining s.inner };

    ghost faults = { λ s. s.faults };

    fn read(&mut self, buf: &mut [u8]) -> Result<usize, Failed>
        requires { 0 < length buf.old }
        ensures counts { self.new.faults ≡ faults_after self.old.faults result }

        // The contract of every source.
        ensures bound { IfOk result (λ n. n ≤ length buf.new) }
        ensures next { IfOk result (λ n. Consumes (R.remaining self.old.inner) (R.remaining self.new.inner) (take n buf.new)) }
        ensures end { IfOk result (λ n. n ≡ 0 → IsAtEnd (R.remaining self.new.inner)) }
        ensures no_more { R.remaining self.old.inner ≡ Some [] → IfOk result (λ n. n ≡ 0) }
        ensures steady { OnOk result (self.new.faults ≡ self.old.faults) }
        ensures kept { OnErr result (Keeps (R.remaining self.old.inner) (R.remaining self.new.inner)) }
        ensures cause { OnErr result (Rose self.old.faults self.new.faults) }
        ensures later { self.old.faults ≤ self.new.faults }
    {
        match self.reader.read(buf) {
            Ok(count) => Ok(count),
            Err(_) => Err(self.faults.rise()),
        }
    }
}

/// A sink over a writer, by default standard output. It exposes its bytes if the writer does, and standard output does
/// not.
///
/// Each write is one write of the writer, without a buffer, so there is nothing to flush. Each error of the writer
/// counts, and so does a write that takes none of the given bytes.
#[derive(Drop)]
pub struct StdSink<W = Stdout> {
    writer: W,
    faults: Faults,
}

impl<W> Model for StdSink<W> {
    ghost use Rattle.ex_io.specs.Standard.{Endpoint};

    ghost Value = { Endpoint W };

    ghost view = { λ s. record { inner = s.writer; faults = s.faults } };
}

impl<W: Write> StdSink<W> {
    /// Returns a sink over the writer, with an error count of 0.
    pub fn new(writer: W) -> StdSink<W>
        ensures { result ≡ record { inner = writer; faults = 0 } }
    {
        StdSink {
            writer,
            faults: Faults::new(),
        }
    }
}

impl<W: Write> Sink for StdSink<W> {
    ghost written = { λ s. W.contents s.inner };

    ghost faults = { λ s. s.faults };

    fn write(&mut self, bytes: &[u8]) -> Result<usize, Failed>
        ensures counts { self.new.faults ≡ faults_after self.old.faults result }

        // The contract of every sink.
        ensures bound { IfOk result (λ n. n ≤ length bytes.now) }
        ensures some { 0 < length bytes.now → IfOk result (λ n. 0 < n) }
        ensures appended { IfOk result (λ n. Appends (W.contents self.old.inner) (W.contents self.new.inner) (take n bytes.now)) }
        ensures steady { OnOk result (self.new.faults ≡ self.old.faults) }
        ensures kept { OnErr result (Keeps (W.contents self.old.inner) (W.contents self.new.inner)) }
        ensures cause { OnErr result (Rose self.old.faults self.new.faults) }
        ensures later { self.old.faults ≤ self.new.faults }
    {
        match self.writer.write(bytes) {
            Ok(count) if count > 0 || bytes.is_empty() => Ok(count),
            _ => Err(self.faults.rise()),
        }
    }
}
