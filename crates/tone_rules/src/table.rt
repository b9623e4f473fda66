//! The octet of a tone after n frames.

ghost use Rattle.std.specs.Prelude.{◌≡◌};
ghost use Rattle.tone_rules.specs.Tables.{table_of, IsGiven};
ghost use Rattle.circuit_model.specs.Hears.{tone_octet};

use crate::tones::Tones;
use circuit_model::Kind;

/// Returns the octet of a given tone after it has sounded for n frames: the table is repeated, from its first octet on.
pub fn tone_octet(tones: &Tones, kind: Kind, frames: u32) -> u8
    requires { IsGiven tones.now kind }
    ensures { result ≡ tone_octet (table_of tones.now kind) frames }
{
    tones.get(kind).octet(frames)
}
