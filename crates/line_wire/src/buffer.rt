//! The parts of a loop over the lines of a wire.
ghost use Rattle.std.specs.Prelude.{◌≡◌, ◌<◌, ◌≤◌, ◌++◌, ◌+◌, ◌-◌, ◌∷◌, [], ℕ, List, length, take, drop, IfOk, OnOk, OnErr, MatchOption};
ghost use Rattle.ex_io.specs.Ends.{Rose};
ghost use Rattle.line_wire.specs.Following.{HasNoFeed};

use crate::wire::Wire;
use ex_io::Failed;
use memchr::memchr;

/// Returns the octets before the first line feed, and the octets after it. `None` if there is no line feed.
pub fn first_fed(bytes: &[u8]) -> Option<(&[u8], &[u8])>
    ensures { MatchOption result (HasNoFeed bytes.now)
        (λ cut. (bytes.now ≡ cut.0.now ++ 10 ∷ cut.1.now) × HasNoFeed cut.0.now) }
{
    let end = memchr(b'\n', bytes)?;
    Some((&bytes[..end], &bytes[end + 1..]))
}

/// Writes all octets.
///
/// # Errors
///
/// `Failed` if a write failed. Then a prefix of the octets was written.
pub fn send_all<W: Wire>(wire: &mut W, bytes: &[u8]) -> Result<(), Failed>
    ensures whole { OnOk result ((heard said : List ℕ) → W.stands wire.old heard said
        → W.stands wire.new heard (said ++ bytes.now)) }
    ensures steady { OnOk result (W.write_faults wire.new ≡ W.write_faults wire.old) }
    ensures reads { W.read_faults wire.new ≡ W.read_faults wire.old }
    ensures end { W.ended wire.old → W.ended wire.new }

    ensures front { OnErr result ((heard said : List ℕ) → W.stands wire.old heard said
        → (front : List ℕ) × (back : List ℕ) × (bytes.now ≡ front ++ back)
        × W.stands wire.new heard (said ++ front)) }
    ensures cause { OnErr result (Rose (W.write_faults wire.old) (W.write_faults wire.new)) }
{
    let mut done = 0;
    while done < bytes.len() {
        done += wire.write(&bytes[done..])?;
    }
    Ok(())
}

/// Writes a text and clears it.
///
/// # Errors
///
/// `Failed` if a write failed. Then a prefix of the text was written.
pub fn flush<W: Wire>(wire: &mut W, text: &mut Vec<u8>) -> Result<(), Failed>
    ensures blank { text.new.items ≡ [] }
    ensures whole { OnOk result ((heard said : List ℕ) → W.stands wire.old heard said
        → W.stands wire.new heard (said ++ text.old.items)) }
    ensures steady { OnOk result (W.write_faults wire.new ≡ W.write_faults wire.old) }
    ensures reads { W.read_faults wire.new ≡ W.read_faults wire.old }
    ensures end { W.ended wire.old → W.ended wire.new }

    ensures front { OnErr result ((heard said : List ℕ) → W.stands wire.old heard said
        → (front : List ℕ) × (back : List ℕ) × (text.old.items ≡ front ++ back)
        × W.stands wire.new heard (said ++ front)) }
    ensures cause { OnErr result (Rose (W.write_faults wire.old) (W.write_faults wire.new)) }
{
    let written = send_all(wire, text.as_slice());
    text.clear();
    written
}

/// Reads after the first `held` octets of the buffer. Returns the number of octets read, which is 0 only if the input
/// has ended.
///
/// # Errors
///
/// `Failed` if the read failed. Then no octet was read.
pub fn read_after<W: Wire>(wire: &mut W, buffer: &mut [u8], held: usize) -> Result<usize, Failed>
    requires room { held < length buffer.old }
    requires settled { (heard : List ℕ) × (said : List ℕ) × W.stands wire.old heard said × W.relies heard said }

    ensures size { length buffer.new ≡ length buffer.old }
    ensures bound { IfOk result (λ n. held + n ≤ length buffer.new) }
    ensures before { IfOk result (λ n. take held buffer.new ≡ take held buffer.old) }
    ensures heard { IfOk result (λ n. (heard said : List ℕ) → W.stands wire.old heard said
        → W.stands wire.new (heard ++ take n (drop held buffer.new)) said) }
    ensures end { IfOk result (λ n. n ≡ 0 → W.ended wire.new) }
    ensures steady { OnOk result (W.read_faults wire.new ≡ W.read_faults wire.old) }

    ensures kept { OnErr result ((heard said : List ℕ) → W.stands wire.old heard said
        → W.stands wire.new heard said) }
    ensures cause { OnErr result (Rose (W.read_faults wire.old) (W.read_faults wire.new)) }
    ensures writes { W.write_faults wire.new ≡ W.write_faults wire.old }
{
    wire.read(&mut buffer[held..])
}

/// Moves the octets from `start` to before `end` to the start of the buffer.
pub fn move_to_front(buffer: &mut [u8], start: usize, end: usize)
    requires order { start ≤ end }
    requires within { end ≤ length buffer.old }
    ensures size { length buffer.new ≡ length buffer.old }
    ensures moved { take (end - start) buffer.new ≡ drop start (take end buffer.old) }
{
    buffer.copy_within(start..end, 0);
}
