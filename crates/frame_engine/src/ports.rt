//! The octet that each conference port gets in a frame: the mix of its room.

ghost use Rattle.std.specs.Prelude.{◌≡◌, ℕ, ◌+◌, ◌*◌, ◌≤◌, ◌<◌, None, replicate, slice_index};
ghost use Rattle.frame_buffer.specs.Speech.{octet_in_half};
ghost use Rattle.control_memory.specs.Image.{lines_of};
ghost use Rattle.frame_engine.specs.Ports.{octet_that_counts, members_in_ports, given_to, ArePortsFilled};

use crate::age::is_through;
use alaw_codec::CodeTable;
use circuit_model::{CHANNELS_PER_LINE, IDLE};
use conference_mix::{MAX_MEMBERS, Mixer, RoomMember};
use control_memory::Image;
use frame_buffer::FrameBuffer;

// Gives each conference port its member's room without the member.
pub(crate) fn mix_ports(
    read: &FrameBuffer,
    image: &Image,
    codes: &CodeTable,
    speech: &mut FrameBuffer,
)
    requires few { image.now.bridges ≤ 2 }
    requires lines { lines_of image.now ≤ 255 }
    requires read { read.now.lines ≡ lines_of image.now }
    requires speech { speech.old.lines ≡ lines_of image.now }
    ensures lines { speech.new.lines ≡ speech.old.lines }
    ensures ports { ArePortsFilled image.now (octet_in_half read.now.readable) speech.new.filled }
    ensures readable { speech.new.readable ≡ speech.old.readable }
{
    // Without a bridge no mixer is made.
    if image.bridges() > 0 {
        mix_bridges(read, image, codes, speech);
    }
}

// Gives the ports of all bridges their octets.
fn mix_bridges(read: &FrameBuffer, image: &Image, codes: &CodeTable, speech: &mut FrameBuffer)
    requires few { image.now.bridges ≤ 2 }
    requires lines { lines_of image.now ≤ 255 }
    requires read { read.now.lines ≡ lines_of image.now }
    requires speech { speech.old.lines ≡ lines_of image.now }
    ensures lines { speech.new.lines ≡ speech.old.lines }
    ensures ports { ArePortsFilled image.now (octet_in_half read.now.readable) speech.new.filled }
    ensures readable { speech.new.readable ≡ speech.old.readable }
{
    let mut octets = [IDLE; MAX_MEMBERS];
    mix_all(read, image, codes, &mut octets);
    for bridge in 0..image.bridges() {
        speech.put_line(image.external() + bridge, &line_of(&octets, bridge));
    }
}

// Writes the octet of each port, port by port.
fn mix_all(read: &FrameBuffer, image: &Image, codes: &CodeTable, octets: &mut [u8; MAX_MEMBERS])
    requires few { image.now.bridges ≤ 2 }
    requires lines { lines_of image.now ≤ 255 }
    requires read { read.now.lines ≡ lines_of image.now }
    ensures { (k : ℕ) → k < 30 * image.now.bridges → slice_index octets.new k ≡ given_to image.now (octet_in_half read.now.readable) k }
{
    let ports = usize::from(image.bridges() * CHANNELS_PER_LINE);
    let mut mixer = Mixer::new(ports);
    seat_members(read, image, &mut mixer);
    mixer.mix(codes, &mut octets[..ports]);
}

// Adds the member of each port, with the octet that counts.
fn seat_members(read: &FrameBuffer, image: &Image, mixer: &mut Mixer)
    requires read { read.now.lines ≡ lines_of image.now }
    requires free { mixer.old ≡ replicate (30 * image.now.bridges) None }
    ensures { mixer.new ≡ members_in_ports image.now (octet_in_half read.now.readable) }
{
    let octets = read.rows_from(image.external());
    let frame = image.frame();
    for (port, seat) in image.port_members().iter().enumerate() {
        if let Some((room, since)) = *seat {
            let octet = octet_that_counts(octets[port], since, frame);
            mixer.add(port, RoomMember { room, octet });
        }
    }
}

// Returns an octet that was read out, if its sender has had its port for two frames.
fn octet_that_counts(octet: u8, since: u32, frame: u32) -> Option<u8>
    ensures { result ≡ octet_that_counts frame octet since }
{
    if is_through(since, frame) {
        Some(octet)
    } else {
        None
    }
}

// Returns the octets of the ports of one bridge line.
fn line_of(octets: &[u8; MAX_MEMBERS], bridge: u8) -> [u8; 30]
    requires bridge { bridge < 2 }
    ensures { (place : ℕ) → place < 30 → slice_index result place ≡ slice_index octets.now (30 * bridge + place) }
{
    let start = usize::from(bridge * CHANNELS_PER_LINE);
    let mut line = [IDLE; 30];
    line.copy_from_slice(&octets[start..start + 30]);
    line
}
