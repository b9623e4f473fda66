//! The called party of a generated call.
ghost use Rattle.std.specs.Prelude.{◌≡◌, ◌<◌, ◌++◌, OnOk};
ghost use Rattle.hex.specs.Hex.{encode_upper};
ghost use Rattle.traffic_gen.specs.Calls.{IsCallee, callee_drawn, message_from, number_of};
ghost use Rattle.traffic_gen.specs.Lines.{text};
ghost use Rattle.traffic_gen.specs.Messages.{connect, release, setup};

use crate::lines::put_message;
use std::alloc::AllocError;

// The SETUP of a call to the room, as a trace encodes it. Messages are octets in the definitions and digits here, so
// that each checks the other.
const SETUP: [u8; 30] = *b"080200010504038090A37003803330";

/// The called party: one of the eight lines, or the conference room.
#[derive(Clone, Copy)]
pub enum Callee {
    Line(u8),
    Room,
}

impl Callee {
    /// Returns the callee with this number: the lines in order, and then the room.
    pub fn of(choice: u8) -> Callee
        requires { choice < 9 }
        ensures callee { result ≡ callee_drawn choice }
        ensures within { IsCallee result }
    {
        if choice == 8 {
            Callee::Room
        } else {
            Callee::Line(choice)
        }
    }

    /// Returns the digits of a SETUP that calls it.
    pub fn setup(self) -> [u8; 30]
        requires { IsCallee self }
        ensures { result ≡ encode_upper (setup (number_of self)) }
    {
        let mut digits = SETUP;
        match self {
            Callee::Line(line) => {
                digits[27] = b'2';
                digits[29] = b'0' + line;
                digits
            }
            Callee::Room => digits,
        }
    }

    /// Appends its CONNECT, if it is a line.
    pub fn put_connect(self, out: &mut Vec<u8>) -> Result<(), AllocError>
        ensures { OnOk result (out.new.items ≡ out.old.items ++ text (message_from self connect)) }
    {
        match self {
            Callee::Line(line) => put_message(out, line, b"0802800107"),
            Callee::Room => Ok(()),
        }
    }

    /// Appends its RELEASE, if it is a line.
    pub fn put_release(self, out: &mut Vec<u8>) -> Result<(), AllocError>
        ensures { OnOk result (out.new.items ≡ out.old.items ++ text (message_from self release)) }
    {
        match self {
            Callee::Line(line) => put_message(out, line, b"080280014D"),
            Callee::Room => Ok(()),
        }
    }
}
