//! A wire over a source and a sink. Its octets are the octets of the source and the sink, if these expose them.
ghost use Rattle.std.specs.Prelude.{◌≡◌, ◌<◌, ◌≤◌, ℕ, List, [], length, take, ⊤, IfOk, OnOk, OnErr};
ghost use Rattle.std.specs.Io.KnownBytes.{Appends, Consumes, IsAtEnd, Keeps};
ghost use Rattle.ex_io.specs.Ends.{Rose};
ghost use Rattle.line_wire.specs.Passing.{HasPassed};

use crate::wire::Wire;
use ex_io::{Failed, Sink, Source};
use std::snapshot::Snapshot;

/// A wire over a source and a sink. Each read is a read of the source, and each write is a write of the sink.
#[derive(Drop)]
pub struct StdWire<S, K> {
    /// The source of the input.
    pub source: S,
    /// The sink of the output.
    pub sink: K,
    /// The source when the wire was made.
    pub given: Snapshot<S>,
    /// The sink when the wire was made.
    pub had: Snapshot<K>,
}

impl<S: Source, K: Sink> StdWire<S, K> {
    /// Returns a wire over `source` and `sink`.
    pub fn new(source: S, sink: K) -> StdWire<S, K>
        ensures source { result.source ≡ source }
        ensures sink { result.sink ≡ sink }
        ensures given { result.given.value ≡ source }
        ensures had { result.had.value ≡ sink }
        ensures fresh { HasPassed (S.left result.given.value) (S.left result.source)
            (K.written result.had.value) (K.written result.sink) [] [] }
    {
        let given = Snapshot::of(&source);
        let had = Snapshot::of(&sink);
        StdWire {
            source,
            sink,
            given,
            had,
        }
    }
}

impl<S: Source, K: Sink> Wire for StdWire<S, K> {
    ghost stands = { λ w heard said. HasPassed (S.left w.given.value) (S.left w.source)
        (K.written w.had.value) (K.written w.sink) heard said };

    ghost relies = { λ _ _. ⊤ };

    ghost ended = { λ w. IsAtEnd (S.left w.source) };

    ghost read_faults = { λ w. S.faults w.source };

    ghost write_faults = { λ w. K.faults w.sink };

    fn read(&mut self, buf: &mut [u8]) -> Result<usize, Failed>
        requires room { 0 < length buf.old }
        ensures size { length buf.new ≡ length buf.old }
        ensures bound { IfOk result (λ n. n ≤ length buf.old) }
        ensures next { IfOk result (λ n. Consumes (S.left self.old.source) (S.left self.new.source) (take n buf.new)) }
        ensures end { IfOk result (λ n. n ≡ 0 → IsAtEnd (S.left self.new.source)) }
        ensures steady { OnOk result (S.faults self.new.source ≡ S.faults self.old.source) }
        ensures kept { OnErr result (Keeps (S.left self.old.source) (S.left self.new.source)) }
        ensures cause { OnErr result (Rose (S.faults self.old.source) (S.faults self.new.source)) }
        ensures sink { self.new.sink ≡ self.old.sink }
        ensures given { self.new.given ≡ self.old.given }
        ensures had { self.new.had ≡ self.old.had }
    {
        self.source.read(buf)
    }

    fn write(&mut self, bytes: &[u8]) -> Result<usize, Failed>
        ensures bound { IfOk result (λ n. n ≤ length bytes.now) }
        ensures some { 0 < length bytes.now → IfOk result (λ n. 0 < n) }
        ensures appended { IfOk result (λ n. Appends (K.written self.old.sink) (K.written self.new.sink) (take n bytes.now)) }
        ensures steady { OnOk result (K.faults self.new.sink ≡ K.faults self.old.sink) }
        ensures kept { OnErr result (Keeps (K.written self.old.sink) (K.written self.new.sink)) }
        ensures cause { OnErr result (Rose (K.faults self.old.sink) (K.faults self.new.sink)) }
        ensures source { self.new.source ≡ self.old.source }
        ensures given { self.new.given ≡ self.old.given }
        ensures had { self.new.had ≡ self.old.had }
    {
        self.sink.write(bytes)
    }
}
