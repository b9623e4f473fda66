//! Writes the octets that arrive on the external lines in a frame into the speech memory.

ghost use Rattle.std.specs.Prelude.{◌≡◌, ◌<◌, ◌≤◌, length, slice_index_or};
ghost use Rattle.circuit_model.specs.declared.channel.Slot.{Slot};
ghost use Rattle.circuit_model.specs.FrameInput.{octet_in, idle_octet};
ghost use Rattle.frame_buffer.specs.Speech.{octet_in_half};

use frame_buffer::FrameBuffer;

// Stores the octets of n external lines, or the idle octet for a line that sends nothing. The lines after them are
// unchanged.
pub(crate) fn take_in(input: &[Option<[u8; 30]>], external: u8, speech: &mut FrameBuffer)
    requires input { length input.now ≡ external }
    requires lines { external ≤ speech.old.lines }
    ensures lines { speech.new.lines ≡ speech.old.lines }
    ensures taken { (at : Slot) → at.line < external → at.place < 30 → octet_in_half speech.new.filled at ≡ octet_in input.now at }
    ensures others { (at : Slot) → external ≤ at.line → at.place < 30 → octet_in_half speech.new.filled at ≡ octet_in_half speech.old.filled at }
    ensures readable { speech.new.readable ≡ speech.old.readable }
{
    speech.fill_lines_idle(external);
    for line in 0..external {
        if let Some(octets) = &input[usize::from(line)] {
            put_row(speech, line, octets);
        }
    }
}

// Writes the octets of a line that sends. No place is missing among them, so none is read as idle.
fn put_row(speech: &mut FrameBuffer, line: u8, octets: &[u8; 30])
    requires { line < speech.old.lines }
    ensures lines { speech.new.lines ≡ speech.old.lines }
    ensures taken { (at : Slot) → at.line ≡ line → at.place < 30 → octet_in_half speech.new.filled at ≡ slice_index_or octets.now at.place idle_octet }
    ensures others { (at : Slot) → ¬ (at.line ≡ line) → at.place < 30 → octet_in_half speech.new.filled at ≡ octet_in_half speech.old.filled at }
    ensures readable { speech.new.readable ≡ speech.old.readable }
{
    speech.put_line(line, octets);
}
