//! Stores the legs of all calls by the slots that they hold, with the numbers in overlap sending and the messages that
//! may be retransmitted.
//!
//! - [`LegTable`] follows the definitions of `call_profile`: `put`, `put_pending`, `put_awaiting`,
//!   `restart_wait` and `remove` change the leg of one slot, with the number or message stored there.
//! - `find` returns the leg that a message is for, by its call reference and flag, and `lowest_free_reference` the call
//!   reference of a new called leg. Each is a pass over a row of keys (`LegKeys`), whose loops have no branch. `find`
//!   examines the second half of the row only if the first half lacks the key.
//! - `pending` is the number of a leg in overlap sending, and `kept_message` the message of a leg that waits for the
//!   reply to it ([`SlotData`]). None of these allocates, because `new` reserved the space.
//! - If `may_be_due` is false in a frame, no leg at a place is due. It reads no leg. After the legs at a place were
//!   examined, `update_due_frame` records when one may be due again.
#![tactic(auto)]

mod due_bounds;
mod keyed_legs;
mod leg_keys;
mod notes;
mod table;

pub use notes::SlotData;
pub use table::LegTable;
