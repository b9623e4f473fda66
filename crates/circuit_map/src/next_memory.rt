//! Writing the control memory of the next frame.
ghost use Rattle.std.specs.Prelude.{◌≡◌, ◌*◌, length};
ghost use Rattle.control_memory.specs.Image.{HasLayout, SameSizes, lines_of};
ghost use Rattle.control_memory.specs.FrameTables.{Fits};
ghost use Rattle.circuit_map.specs.Connections.{AreLatest};

use control_memory::{HeardTable, Image, PathMap, RecentTables};

/// Writes the control memory of a frame. If the latest tables still apply, it shares them. Otherwise it is written from
/// the paths, the source of each slot and the member of each port, and its tables become the latest.
#[inline(always)]
pub(crate) fn write_memory<P: PathMap>(
    recent: &mut RecentTables,
    frame: u32,
    image: &mut Image,
    hearing: &HeardTable,
    sitting: &[Option<(u8, u32)>],
    paths: &P,
)
    requires fits { Fits recent.old image.old }
    requires latest { AreLatest (P.layout paths.now) hearing.now sitting.now recent.old }
    requires hearing { length hearing.now ≡ 30 * lines_of image.old }
    requires sitting { length sitting.now ≡ 30 * image.old.bridges }
    requires lines { lines_of image.old ≡ P.width paths.now }
    requires slots { image.old.slots ≡ P.depth paths.now }
    ensures frame { image.new.frame ≡ frame }
    ensures sizes { SameSizes image.old image.new }
    ensures tables { HasLayout image.new (P.layout paths.now) }
    ensures heard { image.new.heard ≡ hearing.now }
    ensures rooms { image.new.rooms ≡ sitting.now }
    ensures latest { AreLatest (P.layout paths.now) hearing.now sitting.now recent.new }
    ensures external { recent.new.external ≡ recent.old.external }
    ensures bridges { recent.new.bridges ≡ recent.old.bridges }
    ensures depth { recent.new.slots ≡ recent.old.slots }
{
    if recent.show_into(frame, image) {
        return;
    }
    image.reset_with(frame, hearing, sitting);
    paths.write_tables(image);
    recent.keep(image);
}
