//! The core, and one step of it.
ghost use Rattle.std.specs.Prelude.{◌≡◌, ◌+◌, ◌<◌, ◌≤◌, ◌++◌, [], ◌∷◌, length, IfOk, IfSome, None};
ghost use Rattle.exchange_events.specs.declared.trace.Event.{Event as An_event};
ghost use Rattle.exchange_events.specs.Orders.{IsEvent};
ghost use Rattle.exchange_events.specs.Responses.{reply_of};
ghost use Rattle.exchange_events.specs.Sound.{IsSound, setting_of, Fits};
ghost use Rattle.call_profile.specs.Step.{reply, next, MovesAtMost};
ghost use Rattle.exchange_core.specs.Ahead.{IsReadAt, IsReadOf};
ghost use Rattle.exchange_core.specs.Working.{IsNumbered, IsLaid, JoinsItsCircuits, IsToolFor, ShowsWorld, EachFrames, EachGiven, SomeFrames, SomeGiven, setting, world_of};
ghost use Rattle.exchange_events.specs.declared.reply.Reply.TheVariants as An_answer;
ghost use Rattle.call_profile.specs.World.{start, World};
ghost use Rattle.circuit_model.specs.FrameInput.{Input};
ghost use Rattle.circuit_map.specs.Connections.{SameSizes, IsLaid as Is_map_laid};
ghost use Rattle.exchange_events.specs.Sizes.{Dimensions};
ghost use Rattle.call_control.specs.Standing.{Holds};
ghost use Rattle.exchange_events.specs.declared.trace.Event.TheVariants as event;

use crate::commands::{boundary, free, nail, seat};
use crate::step_context::StepContext;
use crate::tool::Tool;
use call_control::{CallControl, Received};
use call_timers::Timers;
use circuit_map::CircuitMap;
use control_memory::PathMap;
use exchange_events::{Event, Outbox, Reply, Response, Trace};
use leg_table::LegTable;
use number_plan::Plan;
use std::alloc::{AllocError, Global};
use std::marker::Model;
use std::mem;
use tone_rules::Tones;

/// The exchange without its octets, at work on a trace: the live circuits with their paths and conference ports, the
/// legs of the calls, and the journal of the processed events.
///
/// Contracts see the trace, the number of internal slots, the maximum number of live paths that a new path moves, and
/// the journal. `world_of` defines the circuits and calls that exist after it. No call except `new` allocates.
#[derive(Debug, Drop)]
pub struct Core<'t, P: PathMap> {
    trace: &'t Trace,
    control: CallControl<P>,
    journal: Vec<(u32, u32)>,
}

impl<'t, P: PathMap> Model for Core<'t, P> {
    ghost use Rattle.std.specs.Prelude.{vec_capacity};
    ghost use Rattle.exchange_core.specs.Working.{Working, IsWorking};

    ghost Value = { Working };

    ghost view = { λ c. record {
      trace = c.trace.now;
      slots = c.control.map.slots;
      bound = c.control.map.bound;
      journal = c.journal.items;
    } };

    ghost invariant = { λ c. IsWorking (record {
      trace = c.trace.now;
      slots = c.control.map.slots;
      bound = c.control.map.bound;
      journal = c.journal.items;
    }) c.control.map c.control.legs (vec_capacity c.journal) };
}

impl<'t, P: PathMap + Drop> Core<'t, P> {
    /// Makes an exchange before the first event of a trace, over a map without paths that has the trace's number of
    /// lines. Returns `AllocError` if an allocation fails.
    pub fn new(alloc: Global, trace: &'t Trace, paths: P) -> Result<Core<'t, P>, AllocError>
        requires sound { IsSound trace.now }
        requires lines { P.width paths ≡ trace.now.external + trace.now.bridges }
        requires bare { P.layout paths ≡ (start (setting_of (P.depth paths) trace.now).dimensions).layout }
        ensures { IfOk result (λ c. c ≡ record { trace = trace.now; slots = P.depth paths; bound = P.bound paths; journal = [] }) }
    {
        let journal = Vec::with_capacity(alloc, trace.events.as_slice().len())?;
        Ok(Core {
            trace,
            control: CallControl {
                legs: LegTable::new(alloc, trace.external, trace.timers)?,
                map: CircuitMap::new(alloc, paths, trace.external, trace.bridges)?,
            },
            journal,
        })
    }

    /// Returns the journal.
    pub fn into_journal(self) -> Vec<(u32, u32)>
        ensures { result.items ≡ self.entry.journal }
    {
        self.journal
    }
}

impl<'t, P: PathMap> Core<'t, P> {
    /// Processes one event of the trace, by its number, counted from 1, and returns the reply. The journal records `by`
    /// with it. A frame's boundary is written into the control memory; the other events need none.
    pub fn step(&mut self, by: u32, event: u32, tool: &mut Tool) -> Reply
        requires known { IsEvent self.old.trace event }
        requires room { length self.old.journal < length self.old.trace.events }
        requires tool { (e : An_event) → IsNumbered self.old.trace event e → IsToolFor (setting self.old).dimensions e tool.old }
        ensures reply { (e : An_event) → IsNumbered self.old.trace event e → result ≡ reply (setting self.old) (world_of self.old) e }
        ensures journal { self.new ≡ record self.old { journal = self.old.journal ++ (by, event) ∷ [] } }
        ensures world { (e : An_event) → IsNumbered self.old.trace event e → world_of self.new ≡ next (setting self.old) (world_of self.old) e }
        ensures laid { IsLaid self.new }
        ensures joins { JoinsItsCircuits self.new }
        ensures few { MovesAtMost self.old.bound result }
        ensures shows { (e : An_event) → IsNumbered self.old.trace event e → ShowsWorld (world_of self.old) e tool.new }
        ensures tool { (e : An_event) → IsNumbered self.old.trace event e → IsToolFor (setting self.old).dimensions e tool.new }
    {
        let mut context = StepContext::new(mem::replace(tool, Tool::Nothing));
        let response = self.step_into(by, event, &mut context);
        let StepContext {
            tool: used,
            out,
            ..
        } = context;
        *tool = used;
        response.into_reply(out)
    }

    /// Works like [`step`](Core::step), with a step context. The messages and records of the step replace the contents
    /// of the outbox. A message that was parsed ahead is taken from the context, and is not parsed again.
    // Every event goes through it, and with more than one caller LLVM would leave it a call.
    #[inline(always)]
    pub fn step_into(&mut self, by: u32, event: u32, context: &mut StepContext) -> Response
        requires known { IsEvent self.old.trace event }
        requires room { length self.old.journal < length self.old.trace.events }
        requires tool { (e : An_event) → IsNumbered self.old.trace event e → IsToolFor (setting self.old).dimensions e context.old.tool }
        requires ahead { IsReadAt self.old.trace event context.old.ahead }
        ensures reply { (e : An_event) → IsNumbered self.old.trace event e
            → reply_of result context.new.out ≡ reply (setting self.old) (world_of self.old) e }
        ensures journal { self.new ≡ record self.old { journal = self.old.journal ++ (by, event) ∷ [] } }
        ensures world { (e : An_event) → IsNumbered self.old.trace event e → world_of self.new ≡ next (setting self.old) (world_of self.old) e }
        ensures laid { IsLaid self.new }
        ensures joins { JoinsItsCircuits self.new }
        ensures few { MovesAtMost self.old.bound (reply_of result context.new.out) }
        ensures shows { (e : An_event) → IsNumbered self.old.trace event e → ShowsWorld (world_of self.old) e context.new.tool }
        ensures tool { (e : An_event) → IsNumbered self.old.trace event e → IsToolFor (setting self.old).dimensions e context.new.tool }
        // A step consumes the message that was parsed ahead, so the context can serve any event next.
        ensures ahead { context.new.ahead ≡ None }
    {
        context.out.clear();
        let trace = self.trace;
        let event_done = trace.event(event);
        let response = happen(
            &mut self.control,
            &trace.plan,
            &trace.tones,
            &trace.timers,
            trace.external,
            event_done,
            context,
        );
        context.ahead = None;
        show_laid(&self.control.map);
        self.journal.push_reserved((by, event));
        response
    }

    /// Returns the trace, which is sound.
    pub fn trace(&self) -> &'t Trace
        ensures trace { result.now ≡ self.now.trace }
        ensures sound { IsSound self.now.trace }
    {
        self.trace
    }

    /// Returns the entries of the processed events in order: by whom, and the event's number.
    pub fn journal(&self) -> &[(u32, u32)]
        ensures { result.now ≡ self.now.journal }
    {
        self.journal.as_slice()
    }
}

/// Processes an event of any kind. A frame's boundary is written into the tool of the context.
#[inline(always)]
pub fn happen<P: PathMap>(
    control: &mut CallControl<P>,
    plan: &Plan,
    tones: &Tones,
    timers: &Timers,
    external: u8,
    event: &Event,
    context: &mut StepContext,
) -> Response
    requires work { SomeGiven plan.now tones.now timers.now control.old.map control.old.legs (λ s w. IsToolFor s.dimensions event.now context.old.tool) }
    requires lines { (external ≡ control.old.map.external) × (external ≤ 32) }
    requires fits { Fits control.old.map.external event.now }
    requires ahead { IfSome context.old.ahead (IsReadOf plan.now event.now) }
    requires room { control.old.map.next < 4294967295 }
    requires fresh { (context.old.out.sends ≡ []) × (context.old.out.moved ≡ None) × (context.old.out.records ≡ []) }
    ensures reply { EachGiven plan.now tones.now timers.now control.old.map control.old.legs (λ s w.
        reply_of result context.new.out ≡ reply s w event.now) }
    ensures world { EachGiven plan.now tones.now timers.now control.old.map control.old.legs (λ s w.
        Holds s.dimensions control.new.map control.new.legs (next s w event.now)) }
    ensures few { MovesAtMost control.old.map.bound (reply_of result context.new.out) }
    ensures shows { (d : Dimensions) (w : World) → Holds d control.old.map control.old.legs w → ShowsWorld w event.now context.new.tool }
    ensures tool { (d : Dimensions) → IsToolFor d event.now context.old.tool → IsToolFor d event.now context.new.tool }
    ensures sizes { SameSizes control.old.map control.new.map }
{
    match event {
        Event::Nail(x, y) => nail(control, *x, *y),
        Event::Seat(x, room) => seat(control, *x, *room),
        Event::Free(x) => free(control, *x),
        Event::Message(line, octets) => {
            let octets = octets.as_slice();
            let ahead = context.ahead;
            control.handle_message(
                &mut context.out,
                plan,
                tones,
                *line,
                &Received { octets, ahead },
            );
            Response::Sent
        }
        Event::LinkUp(line) => {
            control.link_up(&mut context.out, tones, *line);
            Response::Sent
        }
        Event::LinkDown(line) => {
            control.link_down(&mut context.out, tones, *line);
            Response::Sent
        }
        Event::RestartLine(line) => {
            control.restart_interface(&mut context.out, tones, *line);
            Response::Sent
        }
        Event::Frame(_) => {
            let number = frame(
                control,
                tones,
                timers,
                external,
                &mut context.tool,
                &mut context.out,
            );
            Response::Frame(number)
        }
    }
}

// Shows the prover that the paths of a map are legal, which the clause `laid` of each of its calls states. Otherwise
// each function of a call would have to pass that clause on. The compiler removes the call.
fn show_laid<P: PathMap>(map: &CircuitMap<P>)
    ensures { Is_map_laid map.now }
{
    let _ = map.next_frame();
}

// Processes a frame: its boundary, then the legs whose timers have expired. Returns its number.
#[inline(always)]
fn frame<P: PathMap>(
    control: &mut CallControl<P>,
    tones: &Tones,
    timers: &Timers,
    external: u8,
    tool: &mut Tool,
    out: &mut Outbox,
) -> u32
    requires work { SomeFrames tones.now timers.now control.old.map control.old.legs (λ s w. IsToolFor s.dimensions (event.Frame []) tool.old) }
    requires lines { (external ≡ control.old.map.external) × (external ≤ 32) }
    requires room { control.old.map.next < 4294967295 }
    requires fresh { (out.old.sends ≡ []) × (out.old.moved ≡ None) × (out.old.records ≡ []) }
    ensures reply { EachFrames tones.now timers.now control.old.map control.old.legs (λ s w.
        (input : Input) → An_answer.Frame result out.new.sends out.new.records ≡ reply s w (event.Frame input)) }
    ensures world { EachFrames tones.now timers.now control.old.map control.old.legs (λ s w.
        (input : Input) → Holds s.dimensions control.new.map control.new.legs (next s w (event.Frame input))) }
    ensures shows { (d : Dimensions) (w : World) → Holds d control.old.map control.old.legs w → ShowsWorld w (event.Frame []) tool.new }
    ensures tool { (d : Dimensions) → IsToolFor d (event.Frame []) tool.old → IsToolFor d (event.Frame []) tool.new }
    ensures sizes { SameSizes control.old.map control.new.map }
{
    let number = match tool {
        Tool::Image(image) => boundary(control, image),
        Tool::Nothing => unreachable!(),
    };
    control.handle_timers(out, tones, timers, external, number);
    number
}
