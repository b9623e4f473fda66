//! The moves of the lock, each one step on a word of its table or on its slot.
//!
//! A *ticket lock* works like the counter of a shop, where the wall shows two numbers: the next ticket to be drawn, and
//! the ticket that is served. A customer draws a ticket, which raises the first number by 1, and waits until the second
//! number is the ticket's. After the service, the second number rises by 1. (J. M. Mellor-Crummey and M. L. Scott,
//! "Algorithms for scalable synchronization on shared-memory multiprocessors", ACM Transactions on Computer Systems 9
//! (1), 1991, section 2.2; an older relative is L. Lamport's bakery algorithm, Communications of the ACM 17 (8), 1974.)
//!
//! A ticket gives its seat a *turn* of one or more steps. A step that keeps the turn leaves out `pass`, and the next
//! step of the seat begins with `renew` instead of `draw` and `look`. Each call is a sequence of moves:
//!
//! | Call | Move | One step | Effect | Seen by other threads |
//! |---|---|---|---|---|
//! | `split` | split | loads the next ticket | a new seat gets some of the steps, and the baton if requested | no |
//! | `join` | join | loads the next ticket | seat 0 has the longer history, and the entries of the other seat | no |
//! | | meet | loads the next ticket | seat 0 learns that both histories are prefixes of the one it has seen | no |
//! | `step` | draw | adds to the next ticket | the seat has one step less, and a ticket | yes: the next one is later |
//! | | look | loads the served ticket | if it is its own, the seat has seen the whole history and owns the slot | no |
//! | | renew | loads the served ticket | the seat, which kept its ticket, has one step less and the next event | no |
//! | | take | exchanges the slot | the state leaves the slot, and is stepped | no: the seat owns the slot |
//! | | give | exchanges the slot | the state returns to the slot | no |
//! | | append | adds to the next position | the history has the entry | no: waiting seats load only the served ticket |
//! | | pass | adds to the served ticket | no seat owns the slot | yes: the turn of the next ticket begins |
//! | `release` | pass | the same | the same, between two steps | yes |
//!
//! A waiting seat repeats `look`, and sleeps between two looks until a turn is passed. No other move is repeated. A
//! seat that is dropped keeps its steps, so the lock cannot be closed. If that seat has kept the turn, all others wait
//! forever.
ghost use Rattle.std.specs.Prelude.{◌≡◌, ℕ, ◌+◌, ◌-◌, ◌<◌, ◌++◌, [], ◌∷◌, ◌≤◌, length, Some, None, true, false, IfOk, IfErr, IsTrue};
ghost use Rattle.turn_lock.specs.declared.board.Stage.TheVariants.{Idle, Waits, Served};
ghost use Rattle.seat_history.specs.Histories.{StartsWith};
ghost use Rattle.seat_history.specs.Seats.{HasJoinedAll};
ghost use Rattle.turn_lock.specs.Views.{IsLive, Under};
ghost use Rattle.turn_lock.specs.Rule.{Reserves};
ghost use Rattle.turn_lock.specs.Moves.{Gets, HoldsState, IsFree, HasKept, HasTurn, IsEnd, KnowsAll, IsStep, Rests, first_view, view_after_draw, view_after_split, new_view, view_after_join, view_after_meet, view_after_pass, view_after_append};

use crate::board::{Aim, Gift, Opening, Token, Turns, View};
use crate::plays::{Append, Cut, Draw, Glue, Look, Meet, Pass, Renew};
use crate::stepper::Stepper;
use atomic_table::{Refused, Table};
use std::alloc::{AllocError, AllocFailed, Global};
use std::hint;
use std::marker::Brand;
use std::snapshot::Snapshot;
use std::sync::Wait;

// The words: the next ticket, the served ticket, and the position of the next entry in the history. No move touches the
// words between them, so each has its own cache line. A draw does not delay the looks of waiting seats, and these do
// not delay the seat that has the turn.
const NEXT_TICKET: usize = 0;

const NOW_SERVING: usize = 16;

const NEXT_PLACE: usize = 32;

const WORDS: usize = 33;

// A thread sleeps on the low 32 bits of a word. No budget exceeds them, so every pass changes them.
const LOW_HALF: u64 = 1 << 32;

// The greatest number of spins before a seat sleeps. They take about as long as one short turn.
const MAX_SPINS: u32 = 200;

/// The table of a lock: its words and one slot.
#[derive(Drop)]
pub struct Board<S: Stepper> {
    table: Table<Option<S>, View<S::Setting>, Opening<S>, Turns<S>, Global>,
    ghost sized: { (table.shared.table_id.words ≡ 33) × (table.shared.table_id.slots ≡ 1) },
}

impl<S: Stepper> Board<S> {
    // Makes the table with the state in its slot, and seat 0. Returns the state if an allocation fails.
    pub(crate) fn open(
        alloc: Global,
        state: S,
        budget: u32,
    ) -> Result<(Board<S>, Token<S>), (S, AllocError)>
        requires empty { S.journal state ≡ [] }
        requires room { budget ≤ S.room state }
        ensures lock { IfOk result (λ r. r.1.table_id ≡ r.0.table.shared.table_id) }
        ensures key { IfOk result (λ r. (r.0.table.shared.key.state.value ≡ state) × (r.0.table.shared.key.budget ≡ budget)) }
        ensures seat { IfOk result (λ r. r.1.me ≡ (first_view (S.setting state) budget, [])) }
        ensures refused { IfErr result (λ e. e.0 ≡ state) }
    {
        let opening = Opening {
            state: Snapshot::of(&state),
            budget: u64::from(budget),
        };
        let slots = match one_slot(alloc, state) {
            Ok(slots) => slots,
            Err(state) => return Err((state, AllocError)),
        };
        match Table::new(alloc, &[0; WORDS], slots, &opening) {
            Ok((table, seat)) => Ok((Board { table }, seat)),
            Err(Refused { slots }) => Err((only(slots), AllocError)),
        }
    }

    // Split: a new seat gets the steps and the baton that `G` names.
    fn cut<G: Gift>(&self, seat: &mut Token<S>, turns: u32, baton: bool) -> Token<S>
        requires lock { seat.old.table_id ≡ self.now.table.shared.table_id }
        requires chief { IsFree seat.old.me × (seat.old.me.0.known.number ≡ 0) }
        requires turns { (G.turns ≡ turns) × (turns ≤ seat.old.me.0.known.left) }
        requires baton { (G.baton ≡ baton) × (IsTrue baton → IsTrue seat.old.me.0.known.baton) }
        ensures lock { (seat.new.table_id ≡ seat.old.table_id) × (result.table_id ≡ seat.old.table_id) }
        ensures old { seat.new.me ≡ (view_after_split turns baton seat.old.me.0, seat.old.me.1) }
        ensures new { result.me ≡ (new_view turns baton seat.old.me.0, []) }
    {
        self.table.shared.split_seat::<Cut<G>>(seat)
    }

    // Split: a new seat gets some of the steps, and the baton if requested.
    pub(crate) fn split(&self, seat: &mut Token<S>, turns: u32, baton: bool) -> Token<S>
        requires lock { seat.old.table_id ≡ self.now.table.shared.table_id }
        requires chief { IsFree seat.old.me × (seat.old.me.0.known.number ≡ 0) }
        requires turns { turns ≤ seat.old.me.0.known.left }
        requires baton { IsTrue baton → IsTrue seat.old.me.0.known.baton }
        ensures lock { (seat.new.table_id ≡ seat.old.table_id) × (result.table_id ≡ seat.old.table_id) }
        ensures old { seat.new.me ≡ (view_after_split turns baton seat.old.me.0, seat.old.me.1) }
        ensures new { result.me ≡ (new_view turns baton seat.old.me.0, []) }
    {
        self.cut::<Brand>(seat, turns, baton)
    }

    // Join and meet: seat 0 takes over another seat and keeps its entries, and learns that both histories are prefixes
    // of the one that it has seen.
    pub(crate) fn join(&self, seat: &mut Token<S>, other: Token<S>)
        requires lock { (seat.old.table_id ≡ self.now.table.shared.table_id) × (other.table_id ≡ self.now.table.shared.table_id) }
        requires chief { IsFree seat.old.me × (seat.old.me.0.known.number ≡ 0) }
        requires other { IsFree other.me }
        ensures lock { seat.new.table_id ≡ seat.old.table_id }
        ensures view { seat.new.me ≡ (view_after_meet (view_after_join seat.old.me.0 other.me.0), []) }
        ensures first { StartsWith seat.new.me.0.known.seen seat.old.me.0.known.seen }
        ensures second { StartsWith seat.new.me.0.known.seen other.me.0.known.seen }
        ensures settled { KnowsAll seat.new.me.0 }
        ensures within { seat.new.me.0.known.left ≤ seat.new.me.0.budget }
    {
        self.table.shared.join_seat::<Glue>(seat, other);
        self.table.shared.load::<Meet<S>>(seat, NEXT_TICKET);
    }

    // Draw: a ticket for the event that `E` names.
    fn draw<E: Aim>(&self, seat: &mut Token<S>) -> u64
        requires lock { seat.old.table_id ≡ self.now.table.shared.table_id }
        requires turn { IsFree seat.old.me × (0 < seat.old.me.0.known.left) }
        requires baton { Reserves S.reserved seat.old.me.0.setting E.event → IsTrue seat.old.me.0.known.baton }
        ensures lock { seat.new.table_id ≡ seat.old.table_id }
        ensures view { seat.new.me.0 ≡ view_after_draw result E.event seat.old.me.0 }
        ensures slots { seat.new.me.1 ≡ seat.old.me.1 }
    {
        self.table
            .shared
            .fetch_add::<Draw<S, E>>(seat, NEXT_TICKET, 1)
    }

    // Look: repeated until the turn of the ticket begins.
    fn wait<R: Wait>(&self, rt: &R, seat: &mut Token<S>, ticket: u64)
        requires lock { seat.old.table_id ≡ self.now.table.shared.table_id }
        requires ticket { IsLive seat.old.me.0.setting × (seat.old.me.0.stage ≡ Waits ticket) × (seat.old.me.0.due ≡ 1) × (seat.old.me.1 ≡ []) }
        ensures lock { seat.new.table_id ≡ seat.old.table_id }
        ensures gets { Gets S.setting S.journal S.room S.reserved ticket seat.old.me seat.new.me }
    {
        let mut spins = 0;
        for _ in rt.forever() {
            let serving = self.table.shared.load::<Look<S>>(seat, NOW_SERVING);
            if serving == ticket {
                return;
            }
            spins = self.pause(rt, serving, ticket.wrapping_sub(serving), spins);
        }
        unreachable!()
    }

    // Waits between two looks. The next seat in turn spins at first, because a turn can be short. Otherwise the thread
    // sleeps until a turn is passed: if threads outnumber processors, a scheduler runs a woken thread sooner than one
    // that yields. Returns the number of spins so far.
    fn pause<R: Wait>(&self, rt: &R, serving: u64, ahead: u64, spins: u32) -> u32 {
        if ahead == 1 && spins < MAX_SPINS {
            hint::spin_loop();
            return spins + 1;
        }
        self.table
            .shared
            .park(rt, NOW_SERVING, (serving % LOW_HALF) as u32);
        spins
    }

    // Take and give: the state leaves its slot, is stepped, and returns to it.
    fn serve(&self, seat: &mut Token<S>, by: u32, event: u32, tool: &mut S::Tool) -> S::Reply
        requires lock { seat.old.table_id ≡ self.now.table.shared.table_id }
        requires state { HoldsState S.setting S.journal S.room seat.old.me seat.old.me.0.known.seen }
        requires turn { length seat.old.me.0.known.seen < seat.old.me.0.budget }
        requires ready { Under seat.old.me.0.setting (λ c. S.ready c event tool.old) }
        ensures lock { seat.new.table_id ≡ seat.old.table_id }
        ensures view { seat.new.me.0 ≡ seat.old.me.0 }
        ensures state { HoldsState S.setting S.journal S.room seat.new.me (seat.old.me.0.known.seen ++ (by, event) ∷ []) }
        ensures answers { Under seat.old.me.0.setting (λ c. S.answers c seat.old.me.0.known.seen by event result tool.new) }
    {
        let Some(mut state) = self.table.shared.exchange(seat, 0, None) else {
            unreachable!()
        };
        let reply = state.step(by, event, tool);
        match self.table.shared.exchange(seat, 0, Some(state)) {
            None => {}
            Some(_) => unreachable!(),
        }
        reply
    }

    // Append: the history has the entry of the step. Returns the position of the entry.
    fn append(&self, seat: &mut Token<S>) -> u64
        requires lock { seat.old.table_id ≡ self.now.table.shared.table_id }
        requires turn { IsLive seat.old.me.0.setting × ((t : ℕ) × (seat.old.me.0.stage ≡ Served t)) × (seat.old.me.0.due ≡ 1) }
        ensures lock { seat.new.table_id ≡ seat.old.table_id }
        ensures view { seat.new.me ≡ (view_after_append seat.old.me.0, seat.old.me.1) }
        ensures place { result ≡ length seat.old.me.0.known.seen }
        ensures settled { seat.old.me.0.known.number ≡ 0 → KnowsAll seat.new.me.0 }
    {
        self.table
            .shared
            .fetch_add::<Append<S>>(seat, NEXT_PLACE, 1)
    }

    // Pass: the turn of the next ticket begins. A wake is a system call, and is needed only if that ticket is drawn: a
    // seat that draws it later finds its turn at its first look.
    pub(crate) fn pass(&self, seat: &mut Token<S>)
        requires lock { seat.old.table_id ≡ self.now.table.shared.table_id }
        requires keeps { HasKept S.setting S.journal S.room seat.old.me }
        ensures lock { seat.new.table_id ≡ seat.old.table_id }
        ensures view { seat.new.me ≡ (view_after_pass seat.old.me.0, []) }
    {
        let ticket = self.table.shared.fetch_add::<Pass<S>>(seat, NOW_SERVING, 1);
        if self.table.shared.peek(NEXT_TICKET) != ticket.wrapping_add(1) {
            self.table.shared.wake_all(NOW_SERVING);
        }
    }

    // Renew: the seat, which kept the turn, has one step less and the event that `E` names.
    fn renew<E: Aim>(&self, seat: &mut Token<S>)
        requires lock { seat.old.table_id ≡ self.now.table.shared.table_id }
        requires turn { HasKept S.setting S.journal S.room seat.old.me × (0 < seat.old.me.0.known.left) }
        requires baton { Reserves S.reserved seat.old.me.0.setting E.event → IsTrue seat.old.me.0.known.baton }
        ensures lock { seat.new.table_id ≡ seat.old.table_id }
        ensures begun { HasTurn S.setting S.journal S.room S.reserved true E.event seat.old.me.0 seat.new.me }
    {
        self.table.shared.load::<Renew<S, E>>(seat, NOW_SERVING);
    }

    // Draw and look: a ticket for the event that `E` names, and its turn.
    fn draw_and_wait<E: Aim, R: Wait>(&self, rt: &R, seat: &mut Token<S>)
        requires lock { seat.old.table_id ≡ self.now.table.shared.table_id }
        requires turn { IsFree seat.old.me × (0 < seat.old.me.0.known.left) }
        requires baton { Reserves S.reserved seat.old.me.0.setting E.event → IsTrue seat.old.me.0.known.baton }
        ensures lock { seat.new.table_id ≡ seat.old.table_id }
        ensures begun { HasTurn S.setting S.journal S.room S.reserved false E.event seat.old.me.0 seat.new.me }
    {
        let ticket = self.draw::<E>(seat);
        self.wait(rt, seat, ticket);
    }

    // Begins the turn for the event that `E` names: the turn that the seat kept, or a new ticket's.
    fn begin<E: Aim, R: Wait>(&self, rt: &R, seat: &mut Token<S>, event: u32, keeps: bool)
        requires lock { seat.old.table_id ≡ self.now.table.shared.table_id }
        requires rests { Rests S.setting S.journal S.room keeps seat.old.me }
        requires turn { 0 < seat.old.me.0.known.left }
        requires aim { E.event ≡ event }
        requires baton { Reserves S.reserved seat.old.me.0.setting event → IsTrue seat.old.me.0.known.baton }
        ensures lock { seat.new.table_id ≡ seat.old.table_id }
        ensures begun { HasTurn S.setting S.journal S.room S.reserved keeps event seat.old.me.0 seat.new.me }
    {
        if keeps {
            self.renew::<E>(seat);
        } else {
            self.draw_and_wait::<E, R>(rt, seat);
        }
    }

    // Makes the moves of a step except pass, so that the seat has the turn afterwards. If it kept the turn before
    // (`keeps`), the step draws no ticket and does not wait. Returns the position of the entry in the history, and the
    // reply.
    pub(crate) fn step<R: Wait>(
        &self,
        rt: &R,
        seat: &mut Token<S>,
        keeps: bool,
        by: u32,
        event: u32,
        tool: &mut S::Tool,
    ) -> (u64, S::Reply)
        requires lock { seat.old.table_id ≡ self.now.table.shared.table_id }
        requires rests { Rests S.setting S.journal S.room keeps seat.old.me }
        requires turn { 0 < seat.old.me.0.known.left }
        requires number { seat.old.me.0.known.number ≡ by }
        requires baton { Reserves S.reserved seat.old.me.0.setting event → IsTrue seat.old.me.0.known.baton }
        requires ready { Under seat.old.me.0.setting (λ c. S.ready c event tool.old) }
        ensures lock { seat.new.table_id ≡ seat.old.table_id }
        ensures history { IsStep S.reserved S.answers keeps seat.old.me.0 event result.0 result.1 tool.new seat.new.me.0 }
        ensures kept { HasKept S.setting S.journal S.room seat.new.me }
    {
        self.begin::<Brand, R>(rt, seat, event, keeps);
        let reply = self.serve(seat, by, event, tool);
        let place = self.append(seat);
        (place, reply)
    }

    // Returns the state, once all other seats are joined.
    pub(crate) fn close(self, seat: Token<S>) -> S
        requires lock { seat.table_id ≡ self.table.shared.table_id }
        requires chief { IsFree seat.me × (seat.me.0.known.number ≡ 0) }
        requires all { HasJoinedAll seat.me.0.known }
        ensures state { IsEnd S.setting S.journal seat.me.0 result }
    {
        let Board { table } = self;
        let mut closed = table.close_with(seat);
        let state = closed.take(0);
        closed.free();
        match state {
            Some(state) => state,
            None => unreachable!(),
        }
    }
}

// Returns a list of the one state.
fn one_slot<S>(alloc: Global, state: S) -> Result<Vec<Option<S>>, S>
    ensures ok { IfOk result (λ v. v.items ≡ Some state ∷ []) }
    ensures err { IfErr result (λ s. s ≡ state) }
{
    let mut slots = Vec::new(alloc);
    match slots.push(Some(state)) {
        Ok(()) => Ok(slots),
        Err(AllocFailed { value }) => {
            slots.destroy_empty();
            Err(value.unwrap())
        }
    }
}

// Returns the one state of such a list.
fn only<S>(mut slots: Vec<Option<S>>) -> S
    requires { (s : S) × (slots.items ≡ Some s ∷ []) }
    ensures { slots.items ≡ Some result ∷ [] }
{
    let last = slots.pop();
    slots.destroy_empty();
    last.unwrap().unwrap()
}
