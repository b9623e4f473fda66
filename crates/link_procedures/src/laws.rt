// Theorems on the definitions, for any peer and any frames: these functions do nothing, and their contracts are the
// theorems.
ghost use Rattle.std.specs.Prelude.{◌≡◌, ℕ, List};
ghost use Rattle.link_frames.specs.declared.frame.Frame.{Frame};
ghost use Rattle.link_frames.specs.Reading.{IsNumbered};
ghost use Rattle.link_procedures.specs.declared.state.LinkTimers.{LinkTimers};
ghost use Rattle.link_procedures.specs.Links.{Step, initial};
ghost use Rattle.link_procedures.specs.Sending.{finished};
ghost use Rattle.link_procedures.specs.Establishment.{submitted};
ghost use Rattle.link_procedures.specs.Receiving.{received};
ghost use Rattle.link_procedures.specs.Timing.{turned};
ghost use Rattle.link_procedures.specs.AnyPeer.{IsShort, IsLink, Keeps, KeepsOrTells, AddsOrOwes, KeepsOrSettles, IsReleasedFirst, SendsFrames, IsInSequence, DeliversNothing};

/// At most seven messages are sent and not acknowledged, at most 64 wait, and the numbers are below 128.
pub fn law_of_windows()
    ensures start { (at : ℕ) → IsLink (initial at) }
    ensures received { (f : Frame) (at : ℕ) (s : Step) → IsNumbered f.control → IsLink s.link → IsLink (received f at s).link }
    ensures submitted { (m : List ℕ) (at : ℕ) (s : Step) → IsShort m → IsLink s.link → IsLink (submitted m at s).link }
    ensures finished { (at : ℕ) (s : Step) → IsLink s.link → IsLink (finished at s).link }
    ensures turned { (t : LinkTimers) (at : ℕ) (s : Step) → IsLink s.link → IsLink (turned t at s).link }
{}

/// A message leaves the queue only if a valid N(R) acknowledges it, or with all others. In the second case layer 3 is
/// informed, in the same step or in the next turn. A link that is up takes each message. If 64 messages wait already, it
/// loses all in this way. Such a loss is indicated by a release (`turned`), and before an establishment (`first`).
pub fn law_of_losses()
    ensures received { (f : Frame) (at : ℕ) (s : Step) → IsNumbered f.control → KeepsOrTells f.control s.link (received f at s) }
    ensures submitted { (m : List ℕ) (at : ℕ) (s : Step) → AddsOrOwes m s.link (submitted m at s).link }
    ensures finished { (at : ℕ) (s : Step) → Keeps 0 s.link (finished at s).link }
    ensures turned { (t : LinkTimers) (at : ℕ) (s : Step) → IsLink s.link → KeepsOrSettles s.link (turned t at s) }
    ensures first { (f : Frame) (at : ℕ) (s : Step) → IsReleasedFirst s.link (received f at s) }
{}

/// The peer reads each string of octets that is sent as one frame. An I frame carries the message of its number, which
/// is one of the seven from V(A). N(R) of an I frame and of an S frame is V(R) after the step.
pub fn law_of_sent_frames()
    ensures received { (f : Frame) (at : ℕ) (s : Step) → IsNumbered f.control → SendsFrames s (received f at s).link (received f at s).out }
    ensures submitted { (m : List ℕ) (at : ℕ) (s : Step) → IsShort m → SendsFrames s (submitted m at s).link (submitted m at s).out }
    ensures finished { (at : ℕ) (s : Step) → SendsFrames s (finished at s).link (finished at s).out }
    ensures turned { (t : LinkTimers) (at : ℕ) (s : Step) → SendsFrames s (turned t at s).link (turned t at s).out }
{}

/// The message of a frame is delivered only if N(S) is V(R), which then becomes the next number. Otherwise V(R) changes
/// only by an establishment.
pub fn law_of_deliveries()
    ensures received { (f : Frame) (at : ℕ) (s : Step) → IsNumbered f.control → IsInSequence f.control s.link (received f at s) }
    ensures submitted { (m : List ℕ) (at : ℕ) (s : Step) → (submitted m at s).link.received ≡ s.link.received }
    ensures finished { (at : ℕ) (s : Step) → (finished at s).link.received ≡ s.link.received }
    ensures turned { (t : LinkTimers) (at : ℕ) (s : Step) → IsLink s.link → DeliversNothing s.link (turned t at s) }
{}
