//! An exchange that processes one event at a time.
ghost use Rattle.std.specs.Prelude.{◌≡◌, ◌+◌, ◌<◌, ◌≤◌, ◌++◌, ℕ, IfOk, OnOk, OnErr};
ghost use Rattle.circuit_model.specs.FrameInput.{Input as An_input};
ghost use Rattle.control_memory.specs.Unused.{IsUnused};
ghost use Rattle.exchange_events.specs.declared.trace.Event.{Event as An_event};
ghost use Rattle.exchange_events.specs.declared.trace.Event.TheVariants.{Frame, Message};
ghost use Rattle.exchange_events.specs.declared.outbox.Response.TheVariants.{Sent};
ghost use Rattle.exchange_events.specs.Kept.{kept_of};
ghost use Rattle.call_timers.specs.declared.timers.Timers.{Timers as The_timers};
ghost use Rattle.exchange_events.specs.Responses.{reply_of};
ghost use Rattle.exchange_events.specs.Sizes.{Setting};
ghost use Rattle.exchange_events.specs.Sound.{Fits};
ghost use Rattle.call_profile.specs.CallsTold.{calls_kept};
ghost use Rattle.call_profile.specs.Step.{MovesAtMost};
ghost use Rattle.call_profile.specs.World.{World};
ghost use Rattle.lone_exchange.specs.At.{Appends, HasReplied, HasPlayed, IsSomewhere, Passes, PlaysDue, Replies, StartsAt, idle_lines};

use crate::opening::{frame_parts, lines_of};
use call_control::{CallControl, Received};
use call_timers::Timers;
use control_memory::PathMap;
use exchange_core::{StepContext, Tool, happen};
use exchange_events::{CallRecord, Event, Input, Response};
use frame_engine::Carrier;
use number_plan::Plan;
use report_text::append_line;
use std::alloc::{AllocError, Global};
use std::mem;
use std::thread::Threads;
use tone_rules::Tones;

/// An exchange that one caller drives. The definition `IsAt` states its exchange state.
///
/// The caller may read the fields between two events. A write to a field ends the relation to an exchange state.
#[derive(Drop)]
pub struct LoneExchange<P: PathMap, C: Carrier> {
    /// The circuits with their paths and conference ports, and the legs of the calls.
    pub control: CallControl<P>,
    /// The engine, which carries the frames.
    pub engine: C,
    /// The control memory of the next frame, and the messages and records of the last event.
    pub context: StepContext,
    /// The octets of each external line in the last frame.
    pub octets: Vec<[u8; 30]>,
}

impl<P: PathMap + Drop, C: Carrier> LoneExchange<P, C> {
    /// Returns an exchange before its first event, with these numbers of external and bridge lines, over an empty path
    /// map. The octets of each line are idle.
    ///
    /// # Errors
    ///
    /// [`AllocError`] if an allocation fails.
    pub fn new(
        alloc: Global,
        external: u8,
        bridges: u8,
        timers: Timers,
        paths: P,
    ) -> Result<LoneExchange<P, C>, AllocError>
        requires external { 1 ≤ external × (external ≤ 32) }
        requires bridges { bridges ≤ 2 }
        requires paths { IsUnused (external + bridges) (P.width paths) (P.depth paths) (P.layout paths) }
        ensures start { IfOk result (StartsAt C.carries C.next C.sizes external bridges (P.depth paths)) }
        ensures bound { IfOk result (λ x. x.control.map.bound ≡ P.bound paths) }
        ensures idle { IfOk result (λ x. x.octets.items ≡ idle_lines external) }
    {
        let slots = paths.slots();
        let control = lines_of(alloc, external, bridges, timers, paths)?;
        let (engine, tool, octets) = frame_parts(alloc, external, bridges, slots)?;
        Ok(LoneExchange {
            control,
            engine,
            context: StepContext::new(tool),
            octets,
        })
    }
}

impl<P: PathMap, C: Carrier> LoneExchange<P, C> {
    /// Processes one event, with the number plan, the tones and the timers of the setting. The messages and records of
    /// the event replace the content of the outbox of the context.
    pub fn happen<R: Threads + Sync>(
        &mut self,
        rt: &R,
        plan: &Plan,
        tones: &Tones,
        timers: &Timers,
        event: &Event,
    ) -> Response
        requires at { IsSomewhere C.carries C.next C.sizes plan.now tones.now timers.now self.old }
        requires fits { Fits self.old.control.map.external event.now }
        requires room { self.old.control.map.next < 4294967295 }
        ensures world { Passes C.carries C.next C.sizes plan.now tones.now timers.now event.now self.old self.new }
        ensures reply { Replies C.carries C.next C.sizes plan.now tones.now timers.now
            event.now self.old result self.new }
        ensures few { MovesAtMost self.old.control.map.bound (reply_of result self.new.context.out) }
        ensures bound { self.new.control.map.bound ≡ self.old.control.map.bound }
        ensures played { PlaysDue C.carries C.next C.sizes C.plays plan.now tones.now timers.now
            event.now self.old self.new }
        ensures octets { ((input : An_input) → event.now ≡ Frame input → ⊥) → self.new.octets ≡ self.old.octets }
    {
        match event {
            Event::Frame(input) => self.carry(rt, plan, tones, timers, event, input),
            _ => self.command(plan, tones, timers, event),
        }
    }

    /// Processes a message from the user of a line, of any length, without a copy of its octets. The messages and records
    /// of the event replace the content of the outbox of the context. The response is [`Response::Sent`].
    pub fn receive(&mut self, plan: &Plan, tones: &Tones, line: u8, octets: &[u8])
        requires at { (timers : The_timers) × IsSomewhere C.carries C.next C.sizes plan.now tones.now timers self.old }
        requires fits { Fits self.old.control.map.external (Message line octets.now) }
        ensures world { (timers : The_timers) → Passes C.carries C.next C.sizes plan.now tones.now timers
            (Message line octets.now) self.old self.new }
        ensures reply { (timers : The_timers) → Replies C.carries C.next C.sizes plan.now tones.now timers
            (Message line octets.now) self.old Sent self.new }
        ensures few { MovesAtMost self.old.control.map.bound (reply_of Sent self.new.context.out) }
        ensures bound { self.new.control.map.bound ≡ self.old.control.map.bound }
        ensures octets { self.new.octets ≡ self.old.octets }
    {
        self.context.out.clear();
        self.context.ahead = None;
        let received = Received {
            octets,
            ahead: None,
        };
        let out = &mut self.context.out;
        self.control
            .handle_message(out, plan, tones, line, &received);
    }

    // Processes a frame: its boundary, and its octets.
    fn carry<R: Threads + Sync>(
        &mut self,
        rt: &R,
        plan: &Plan,
        tones: &Tones,
        timers: &Timers,
        event: &Event,
        input: &Input,
    ) -> Response
        requires at { IsSomewhere C.carries C.next C.sizes plan.now tones.now timers.now self.old }
        requires frame { event.now ≡ Frame input.now }
        requires fits { Fits self.old.control.map.external event.now }
        requires room { self.old.control.map.next < 4294967295 }
        ensures world { Passes C.carries C.next C.sizes plan.now tones.now timers.now event.now self.old self.new }
        ensures reply { Replies C.carries C.next C.sizes plan.now tones.now timers.now
            event.now self.old result self.new }
        ensures few { MovesAtMost self.old.control.map.bound (reply_of result self.new.context.out) }
        ensures bound { self.new.control.map.bound ≡ self.old.control.map.bound }
        ensures played { PlaysDue C.carries C.next C.sizes C.plays plan.now tones.now timers.now
            event.now self.old self.new }
    {
        let external = self.octets.len() as u8;
        self.context.out.clear();
        self.context.ahead = None;
        let control = &mut self.control;
        let context = &mut self.context;
        let response = happen(control, plan, tones, timers, external, event, context);
        let Tool::Image(image) = &mut self.context.tool else {
            unreachable!()
        };
        let octets = self.octets.as_mut_slice();
        self.engine
            .frame(rt, image, tones, input.as_slice(), octets);
        response
    }

    // Processes an event that is not a frame, without the control memory.
    fn command(&mut self, plan: &Plan, tones: &Tones, timers: &Timers, event: &Event) -> Response
        requires at { IsSomewhere C.carries C.next C.sizes plan.now tones.now timers.now self.old }
        requires other { (input : An_input) → event.now ≡ Frame input → ⊥ }
        requires fits { Fits self.old.control.map.external event.now }
        requires room { self.old.control.map.next < 4294967295 }
        ensures world { Passes C.carries C.next C.sizes plan.now tones.now timers.now event.now self.old self.new }
        ensures reply { Replies C.carries C.next C.sizes plan.now tones.now timers.now
            event.now self.old result self.new }
        ensures few { MovesAtMost self.old.control.map.bound (reply_of result self.new.context.out) }
        ensures bound { self.new.control.map.bound ≡ self.old.control.map.bound }
        ensures octets { self.new.octets ≡ self.old.octets }
    {
        let external = self.octets.len() as u8;
        self.context.out.clear();
        self.context.ahead = None;
        let tool = mem::replace(&mut self.context.tool, Tool::Nothing);
        let control = &mut self.control;
        let context = &mut self.context;
        let response = happen(control, plan, tones, timers, external, event, context);
        self.context.tool = tool;
        response
    }

    /// Returns the records of the calls that ended with the last event of [`happen`](LoneExchange::happen), which has this
    /// response.
    pub fn records(&self, response: Response) -> &[CallRecord]
        ensures { result.now ≡ calls_kept (kept_of (reply_of response self.now.context.out)) }
    {
        match response {
            Response::Sent => self.context.out.records.as_slice(),
            Response::Frame(_) => self.context.out.records.as_slice(),
            Response::Granted(_, _) => &[],
            Response::Busy => &[],
            Response::Seated(_, _) => &[],
            Response::NoPort => &[],
            Response::Freed => &[],
            Response::NotNailed => &[],
        }
    }

    /// Appends the line of the last event of [`happen`](LoneExchange::happen), with this number and this response, to a
    /// report.
    ///
    /// # Errors
    ///
    /// [`AllocError`] if the allocation fails. Then the report is unchanged.
    pub fn append_line(
        &self,
        text: &mut Vec<u8>,
        number: u32,
        response: Response,
    ) -> Result<(), AllocError>
        ensures line { (s : Setting) (w : World) (e : An_event)
            → HasReplied s w e response self.now → HasPlayed C.plays s w e self.now
            → OnOk result (Appends C.plays s w e number text.old.items text.new.items) }
        ensures kept { OnErr result (text.new.items ≡ text.old.items) }
    {
        append_line(
            text,
            number,
            response,
            &self.context.out,
            self.octets.as_slice(),
        )
    }
}
