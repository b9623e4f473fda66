//! SETUP: refuses it, or makes the legs of a new call and sends the messages of that call.
ghost use Rattle.std.specs.Prelude.{◌≡◌, ◌<◌, ◌≤◌, ◌^◌, [], None, IfSome, false};
ghost use Rattle.circuit_map.specs.Connections.{SameSizes};
ghost use Rattle.call_control.specs.Ahead.{IsDialled};
ghost use Rattle.call_control.specs.AtWork.{IsAtWork};
ghost use Rattle.call_profile.specs.Calls.{making_by};
ghost use Rattle.call_profile.specs.Legs.{leg_named};
ghost use Rattle.exchange_events.specs.Sizes.{Setting};
ghost use Rattle.call_profile.specs.Setup.{course_of_setup};
ghost use Rattle.call_control.specs.Standing.{HasMade};
ghost use Rattle.call_profile.specs.World.{World};

use crate::asked::asked_by;
use crate::new_call::Caller;
use crate::operations::CallControl;
use crate::preparsing::DialledNumber;
use crate::sending::refuse;
use control_memory::PathMap;
use exchange_events::Outbox;
use q931_codec::Message;

impl<P: PathMap> CallControl<P> {
    /// Processes a SETUP that dials this number: refuses it with the cause of the first check that fails, or makes the
    /// legs of its call.
    pub(crate) fn setup(
        &mut self,
        out: &mut Outbox,
        line: u8,
        message: &Message,
        number: &DialledNumber,
    )
        requires work { (s : Setting) × (w : World) × IsDialled s.plan message.now number.now × IsAtWork s self.old.map self.old.legs w }
        requires line { line < self.old.map.external }
        requires reference { (1 ≤ message.now.reference) × (message.now.reference < 2 ^ 15) }
        requires unused { leg_named self.old.legs line false message.now.reference ≡ None }
        requires fresh { (out.old.sends ≡ []) × (out.old.moved ≡ None) }
        ensures makes { (s : Setting) (w : World) → IsDialled s.plan message.now number.now → IsAtWork s self.old.map self.old.legs w
            → HasMade s self.new.map self.new.legs out.new (making_by s w (course_of_setup s w line message.now)) }
        ensures few { IfSome out.new.moved (λ moves. (moves.0 ≤ self.old.map.bound) × (moves.1 ≤ self.old.map.bound)) }
        ensures sizes { SameSizes self.old.map self.new.map }
    {
        match self.admit(line, message, number) {
            Err(cause) => refuse(out, line, message.reference, cause),
            Ok(admitted) => {
                let caller = Caller {
                    slot: admitted.slot,
                    reference: message.reference,
                    first: true,
                };
                self.accept(out, caller, &asked_by(message), admitted.called);
            }
        }
    }
}
