//! All three stages in sequence: the octet of each outlet under a legal layout.

ghost use Rattle.std.specs.Prelude.{◌≡◌, ◌<◌};
ghost use Rattle.frame_buffer.specs.Speech.{octet_in_half};
ghost use Rattle.frame_buffer.specs.Highways.{SameHighwaySize};
ghost use Rattle.control_memory.specs.Image.{lines_of};
ghost use Rattle.time_stage.specs.Interchange.{IsCarried};

use crate::interchange::{incoming, outgoing};
use control_memory::Image;
use frame_buffer::{Crossed, FrameBuffer, Highway};

/// Carries one frame through all three stages, under one control memory. If its tables encode a legal layout, each
/// outlet gets the octet of the inlet of its path, and every other slot is idle.
///
/// This is the theorem of the three stages, for tests and measurements. An engine does not call it, since it reads out
/// by the control memory of the frame before, between two crossings.
pub fn carry(
    buffer: &FrameBuffer,
    image: &Image,
    highway: &mut Highway,
    crossed: &mut Crossed,
    out: &mut FrameBuffer,
)
    requires buffer { buffer.now.lines ≡ lines_of image.now }
    requires lines { highway.old.lines ≡ lines_of image.now }
    requires slots { highway.old.slots ≡ image.now.slots }
    requires size { SameHighwaySize highway.old crossed.old }
    requires out { out.old.lines ≡ lines_of image.now }
    ensures highway_size { SameHighwaySize highway.old highway.new }
    ensures crossed_size { SameHighwaySize crossed.old crossed.new }
    ensures lines { out.new.lines ≡ out.old.lines }
    ensures octets { IsCarried image.now (octet_in_half buffer.now.readable) (octet_in_half out.new.filled) }
    ensures readable { out.new.readable ≡ out.old.readable }
{
    incoming(buffer, image, highway);
    space_stage::cross(highway, image, crossed);
    outgoing(crossed, image, out);
}
