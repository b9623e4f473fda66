// The parts of the meters' texts. If an allocation fails, each leaves a prefix of its part.
ghost use Rattle.std.specs.Prelude.{◌≡◌, ◌++◌, length, take, codes, decimal, OnOk, OnErr};
ghost use Rattle.circuit_model.specs.Channels.{channel_at};
ghost use Rattle.meters.specs.Details.{slot_text, party_text, figure, call_line};

use circuit_model::{CHANNELS_PER_LINE, Slot, channel_of};
use exchange_events::{CallRecord, Party};
use itoa::Buffer;
use std::alloc::AllocError;

// Appends the line of two registers. An error leaves the text unchanged.
pub(crate) fn append_registers(
    out: &mut Vec<u8>,
    word: &[u8],
    a: u64,
    b: u64,
) -> Result<(), AllocError>
    ensures line { OnOk result (out.new.items ≡ out.old.items ++ word.now ++ decimal a ++ codes " " ++ decimal b ++ codes "\n") }
    ensures kept { OnErr result (out.new.items ≡ out.old.items) }
{
    let start = out.len();
    let done = put_registers(out, word, a, b);
    if done.is_err() {
        out.truncate(start);
    }
    done
}

// Appends a word and two numbers, each number after a space.
fn put_registers(out: &mut Vec<u8>, word: &[u8], a: u64, b: u64) -> Result<(), AllocError>
    ensures line { OnOk result (out.new.items ≡ out.old.items ++ word.now ++ decimal a ++ codes " " ++ decimal b ++ codes "\n") }
    ensures front { take (length out.old.items) out.new.items ≡ out.old.items }
{
    out.extend_from_slice(word)?;
    put_number(out, a)?;
    out.extend_from_slice(b" ")?;
    put_number(out, b)?;
    out.extend_from_slice(b"\n")
}

// Appends the line of a call.
pub(crate) fn put_call(out: &mut Vec<u8>, call: &CallRecord) -> Result<(), AllocError>
    ensures line { OnOk result (out.new.items ≡ out.old.items ++ call_line call.now) }
    ensures front { take (length out.old.items) out.new.items ≡ out.old.items }
{
    put_caller(out, call.caller)?;
    put_called(out, call.called)?;
    put_figures(out, call.from, call.to, call.cause)
}

fn put_caller(out: &mut Vec<u8>, caller: Slot) -> Result<(), AllocError>
    ensures caller { OnOk result (out.new.items ≡ out.old.items ++ codes "call " ++ slot_text caller) }
    ensures front { take (length out.old.items) out.new.items ≡ out.old.items }
{
    out.extend_from_slice(b"call ")?;
    put_slot(out, caller)
}

// Appends the called party after a space.
fn put_called(out: &mut Vec<u8>, called: Party) -> Result<(), AllocError>
    ensures called { OnOk result (out.new.items ≡ out.old.items ++ codes " " ++ party_text called) }
    ensures front { take (length out.old.items) out.new.items ≡ out.old.items }
{
    out.extend_from_slice(b" ")?;
    put_party(out, called)
}

// Appends the frames and the cause of a call, each after a space, and the end of the line.
fn put_figures(out: &mut Vec<u8>, from: u32, to: u32, cause: u8) -> Result<(), AllocError>
    ensures figures { OnOk result (out.new.items ≡ out.old.items ++ figure from ++ figure to ++ figure cause ++ codes "\n") }
    ensures front { take (length out.old.items) out.new.items ≡ out.old.items }
{
    put_figure(out, u64::from(from))?;
    put_figure(out, u64::from(to))?;
    put_figure(out, u64::from(cause))?;
    out.extend_from_slice(b"\n")
}

// Appends a number after a space.
fn put_figure(out: &mut Vec<u8>, number: u64) -> Result<(), AllocError>
    ensures figure { OnOk result (out.new.items ≡ out.old.items ++ figure number) }
    ensures front { take (length out.old.items) out.new.items ≡ out.old.items }
{
    out.extend_from_slice(b" ")?;
    put_number(out, number)
}

// Appends the called party.
fn put_party(out: &mut Vec<u8>, party: Party) -> Result<(), AllocError>
    ensures party { OnOk result (out.new.items ≡ out.old.items ++ party_text party) }
    ensures front { take (length out.old.items) out.new.items ≡ out.old.items }
{
    match party {
        Party::Line(at) => put_slot(out, at),
        Party::Room(number) => {
            out.extend_from_slice(b"room ")?;
            put_number(out, u64::from(number))
        }
    }
}

// Appends a slot: its line and the number of its channel.
fn put_slot(out: &mut Vec<u8>, at: Slot) -> Result<(), AllocError>
    ensures slot { OnOk result (out.new.items ≡ out.old.items ++ slot_text at) }
    ensures front { take (length out.old.items) out.new.items ≡ out.old.items }
{
    put_number(out, u64::from(at.line))?;
    out.extend_from_slice(b"/")?;
    put_number(out, channel_number(at.place))
}

// Returns the number of the channel at a place. A record can have a place that no line has, since `note` requires
// nothing of it. The same rule gives its number, in more than eight bits.
fn channel_number(place: u8) -> u64
    ensures { result ≡ channel_at place }
{
    if place < CHANNELS_PER_LINE {
        u64::from(channel_of(place))
    } else {
        u64::from(place) + 2
    }
}

fn put_number(out: &mut Vec<u8>, number: u64) -> Result<(), AllocError>
    ensures number { OnOk result (out.new.items ≡ out.old.items ++ decimal number) }
    ensures front { take (length out.old.items) out.new.items ≡ out.old.items }
{
    let mut buffer = Buffer::new();
    out.extend_from_slice(buffer.format(number).as_bytes())
}
