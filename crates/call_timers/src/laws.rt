// Theorems on the definitions only: these functions do nothing, and their contracts are the theorems.
ghost use Rattle.std.specs.Prelude.{◌≡◌, ◌≢◌, ◌+◌, ◌≤◌, ◌^◌, ◌-◌, ℕ, Bool, true, false, Some, None, is_some};
ghost use Rattle.q931_codec.specs.CallStates.{overlap_sending, outgoing_call_proceeding, call_delivered, call_present, call_received, incoming_call_proceeding, active, disconnect_indication, release_request};
ghost use Rattle.call_timers.specs.Expiries.{due, usual};
ghost use Rattle.call_timers.specs.declared.expiry.Expiry.{Expiry};
ghost use Rattle.call_timers.specs.declared.expiry.Expiry.TheVariants as expiry;
ghost use Rattle.call_timers.specs.declared.timers.Timers.{Timers};

/// The expiries that are due at a leg whose wait began in frame 1000, in the frame in which its usual timer expires.
pub fn worked_expiries()
    ensures digits { due overlap_sending false 1000 121000 usual ≡ Some expiry.Digits }
    ensures setup { due call_present false 1000 33000 usual ≡ Some expiry.SetupAgain }
    ensures setup_over { due call_present true 1000 33000 usual ≡ Some expiry.SetupOver }
    ensures proceeding { due incoming_call_proceeding false 1000 81000 usual ≡ Some expiry.Proceeding }
    ensures alerting { due call_received false 1000 1441000 usual ≡ Some expiry.Alerting }
    ensures outage { due active true 1000 49000 usual ≡ Some expiry.Outage }
    ensures disconnect { due disconnect_indication false 1000 241000 usual ≡ Some expiry.Disconnect }
    ensures release { due release_request false 1000 33000 usual ≡ Some expiry.ReleaseAgain }
    ensures release_over { due release_request true 1000 33000 usual ≡ Some expiry.ReleaseOver }
{}

/// Nothing is due a frame earlier, and the expiry is still due later.
pub fn worked_waits()
    ensures digits { due overlap_sending true 1000 120999 usual ≡ None }
    ensures setup { due call_present false 1000 32999 usual ≡ None }
    ensures setup_over { due call_present true 1000 32999 usual ≡ None }
    ensures proceeding { due incoming_call_proceeding true 1000 80999 usual ≡ None }
    ensures alerting { due call_received true 1000 1440999 usual ≡ None }
    ensures outage { due active true 1000 48999 usual ≡ None }
    ensures disconnect { due disconnect_indication true 1000 240999 usual ≡ None }
    ensures release { due release_request false 1000 32999 usual ≡ None }
    ensures release_over { due release_request true 1000 32999 usual ≡ None }
    ensures later { due call_present false 1000 4000000000 usual ≡ Some expiry.SetupAgain }
    ensures never { due call_present false 4294967290 4294967295 usual ≡ None }
{}

/// In all other states of a leg nothing is ever due, nor in active unless T309 runs.
pub fn law_of_untimed_states()
    ensures proceeding { (resent : Bool) (since f : ℕ) (t : Timers) → due outgoing_call_proceeding resent since f t ≡ None }
    ensures delivered { (resent : Bool) (since f : ℕ) (t : Timers) → due call_delivered resent since f t ≡ None }
    ensures active { (since f : ℕ) (t : Timers) → due active false since f t ≡ None }
{}
