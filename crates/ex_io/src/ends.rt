// The traits of a source of bytes and a sink of bytes, with their error counts.
ghost use Rattle.std.specs.Prelude.{◌≡◌, ℕ, ◌<◌, ◌≤◌, List, [], length, take, Some, IfOk, OnOk, OnErr};
ghost use Rattle.std.specs.declared.option.Option.{Option};
ghost use Rattle.std.specs.Io.KnownBytes.{Appends, Consumes, IsAtEnd, Keeps};
ghost use Rattle.ex_io.specs.Ends.{Rose};

use thiserror::Error;

/// The error of a failed read or write. The error count of the source or sink has risen.
#[derive(Clone, Copy, Debug, PartialEq, Eq, Error)]
#[error("a read or a write failed")]
pub struct Failed;

/// A source of bytes (defined by this project). Its error count rises at each failed read, and at nothing else.
pub trait Source {
    /// The bytes that are left to read. `None` if the source does not expose them.
    ghost left: { Self → Option (List ℕ) };

    /// The number of failed reads. A count stored as a `u64` stops at the greatest value of that type.
    ghost faults: { Self → ℕ };

    /// Copies the next bytes to the start of `buf` and returns their number. The number is 0 if and only if the source
    /// is at its end. `buf` must have at least one byte.
    ///
    /// # Errors
    ///
    /// [`Failed`] if the read failed. The error count has risen, and no byte was read.
    fn read(&mut self, buf: &mut [u8]) -> Result<usize, Failed>
        requires { 0 < length buf.old }

        ensures bound { IfOk result (λ n. n ≤ length buf.new) }
        ensures next { IfOk result (λ n. Consumes (left self.old) (left self.new) (take n buf.new)) }
        ensures end { IfOk result (λ n. n ≡ 0 → IsAtEnd (left self.new)) }
        ensures no_more { left self.old ≡ Some [] → IfOk result (λ n. n ≡ 0) }
        ensures steady { OnOk result (faults self.new ≡ faults self.old) }

        ensures kept { OnErr result (Keeps (left self.old) (left self.new)) }
        ensures cause { OnErr result (Rose (faults self.old) (faults self.new)) }
        ensures later { faults self.old ≤ faults self.new };
}

/// A sink of bytes (defined by this project). Its error count rises at each failed write, and at nothing else.
pub trait Sink {
    /// The bytes written so far. `None` if the sink does not expose them.
    ghost written: { Self → Option (List ℕ) };

    /// The number of failed writes. A count stored as a `u64` stops at the greatest value of that type.
    ghost faults: { Self → ℕ };

    /// Appends a prefix of `bytes` and returns its length. The length is at least 1 if `bytes` is not empty.
    ///
    /// # Errors
    ///
    /// [`Failed`] if the write failed. The error count has risen, and nothing was appended.
    fn write(&mut self, bytes: &[u8]) -> Result<usize, Failed>
        ensures bound { IfOk result (λ n. n ≤ length bytes.now) }
        ensures some { 0 < length bytes.now → IfOk result (λ n. 0 < n) }
        ensures appended { IfOk result (λ n. Appends (written self.old) (written self.new) (take n bytes.now)) }
        ensures steady { OnOk result (faults self.new ≡ faults self.old) }

        ensures kept { OnErr result (Keeps (written self.old) (written self.new)) }
        ensures cause { OnErr result (Rose (faults self.old) (faults self.new)) }
        ensures later { faults self.old ≤ faults self.new };
}
