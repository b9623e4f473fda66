//! The trait of a wire.
ghost use Rattle.std.specs.Prelude.{◌≡◌, ◌<◌, ◌≤◌, ◌++◌, ℕ, List, length, take, IfOk, OnOk, OnErr};
ghost use Rattle.ex_io.specs.Ends.{Rose};

use ex_io::Failed;

/// Both directions of a connection: the octets from the other side, and the octets written to it.
///
/// It counts its failed reads and its failed writes. A count stored as a `u64` stops at the greatest value of that
/// type.
pub trait Wire {
    /// The given octets may be all octets read so far, and all octets written so far.
    ghost stands: { Self → List ℕ → List ℕ → Type 0 };

    /// The fact that the other side relies on at each read, about the octets read and written until then.
    ghost relies: { List ℕ → List ℕ → Type 0 };

    /// The input has ended: no more octets come from the other side.
    ghost ended: { Self → Type 0 };

    /// The number of failed reads.
    ghost read_faults: { Self → ℕ };

    /// The number of failed writes.
    ghost write_faults: { Self → ℕ };

    /// Copies the next octets to the start of `buf` and returns their number. The number is 0 only if the input has
    /// ended. It may wait for octets, so everything that the other side relies on must have been written (`settled`).
    ///
    /// # Errors
    ///
    /// [`Failed`] if the read fails. Then no octet was read.
    fn read(&mut self, buf: &mut [u8]) -> Result<usize, Failed>
        requires room { 0 < length buf.old }
        requires settled { (heard : List ℕ) × (said : List ℕ) × stands self.old heard said × relies heard said }

        ensures size { length buf.new ≡ length buf.old }
        ensures bound { IfOk result (λ n. n ≤ length buf.old) }
        ensures heard { IfOk result (λ n. (heard said : List ℕ) → stands self.old heard said
            → stands self.new (heard ++ take n buf.new) said) }
        ensures end { IfOk result (λ n. n ≡ 0 → ended self.new) }
        ensures steady { OnOk result (read_faults self.new ≡ read_faults self.old) }

        ensures kept { OnErr result ((heard said : List ℕ) → stands self.old heard said → stands self.new heard said) }
        ensures cause { OnErr result (Rose (read_faults self.old) (read_faults self.new)) }
        ensures writes { write_faults self.new ≡ write_faults self.old };

    /// Writes a prefix of `bytes` and returns its length. The length is at least 1 if `bytes` is not empty.
    ///
    /// # Errors
    ///
    /// [`Failed`] if the write fails. Then no octet was written.
    fn write(&mut self, bytes: &[u8]) -> Result<usize, Failed>
        ensures bound { IfOk result (λ n. n ≤ length bytes.now) }
        ensures some { 0 < length bytes.now → IfOk result (λ n. 0 < n) }
        ensures said { IfOk result (λ n. (heard said : List ℕ) → stands self.old heard said
            → stands self.new heard (said ++ take n bytes.now)) }
        ensures steady { OnOk result (write_faults self.new ≡ write_faults self.old) }

        ensures kept { OnErr result ((heard said : List ℕ) → stands self.old heard said → stands self.new heard said) }
        ensures cause { OnErr result (Rose (write_faults self.old) (write_faults self.new)) }
        ensures reads { read_faults self.new ≡ read_faults self.old }
        ensures end { ended self.old → ended self.new };
}
