// The words of replies.
ghost use Rattle.std.specs.Prelude.{◌≡◌, option_map};
ghost use Rattle.report_reader.specs.Reading.{word_at};

use crate::cut::behind;

/// The kind of a reply. Each variant is the word of the reply with that name.
#[derive(Clone, Copy, Debug)]
pub enum Word {
    Granted,
    Busy,
    Seated,
    NoPort,
    Freed,
    NotNailed,
    Message,
    Frame,
}

/// Returns the word of a reply at the start, after a space, and the octets after it.
pub(crate) fn word_at(octets: &[u8]) -> Option<(Word, &[u8])>
    ensures { option_map (λ cut. (cut.0, cut.1.now)) result ≡ word_at octets.now }
{
    if let Some(rest) = behind(b" granted", octets) {
        Some((Word::Granted, rest))
    } else if let Some(rest) = behind(b" busy", octets) {
        Some((Word::Busy, rest))
    } else if let Some(rest) = behind(b" seated", octets) {
        Some((Word::Seated, rest))
    } else if let Some(rest) = behind(b" noport", octets) {
        Some((Word::NoPort, rest))
    } else if let Some(rest) = behind(b" freed", octets) {
        Some((Word::Freed, rest))
    } else if let Some(rest) = behind(b" notnailed", octets) {
        Some((Word::NotNailed, rest))
    } else if let Some(rest) = behind(b" message", octets) {
        Some((Word::Message, rest))
    } else if let Some(rest) = behind(b" frame", octets) {
        Some((Word::Frame, rest))
    } else {
        None
    }
}
