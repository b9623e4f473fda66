//! An exchange that one caller drives, event by event, without a lock, a journal or a trace.
//!
//! A [`LoneExchange`] has the circuits, the legs, the engine and the control memory of one exchange, over any live path
//! map and any engine. At each moment it is in an exchange state (the definition `World`) of a setting (`IsAt`).
//!
//! - [`LoneExchange::new`] returns an exchange in the initial state of each setting of its size (`start`).
//! - [`LoneExchange::happen`] processes one event. The exchange is then in the next state (`world`). Its reply is the
//!   reply of that event (`reply`), and the octets of a frame are the output of the engine (`played`). It does not
//!   allocate.
//! - [`LoneExchange::append_line`] appends the line of the event to a report (`line`). If the allocation fails, the
//!   report is unchanged (`kept`).
//!
//! For consecutive events from the initial state, the lines are the report of these events.
#![tactic(auto)]

mod exchange;
mod opening;

pub use exchange::LoneExchange;
