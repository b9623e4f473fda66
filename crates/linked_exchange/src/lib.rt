//! An exchange whose events come one by one, with data links under its calls if a trace has them: its steps, each with
//! its part of the report, and the lines of a trace that it follows.
//!
//! - A [`LinkedExchange`] is a `LoneExchange` and a `LinkTable`, which one caller drives. It processes one input at a
//!   time: an event ([`happen`](LinkedExchange::happen)), the octets of a frame of the user on a line
//!   ([`receive`](LinkedExchange::receive)), or the turn of a link ([`turn`](LinkedExchange::turn)). Each input is at
//!   most one event of the exchange. Each message that the event sends is submitted to the link of its line. After the
//!   step, [`frames`](LinkTable::frames) and [`lines`](LinkTable::lines) of the links have the frames to be sent, in the
//!   order of transmission. No step allocates.
//! - After each call, the exchange state and the links are the value of the definition `next_joint` (`step`). The reply
//!   is the reply to the event (`reply`), and the octets of a frame are the output of the engine (`played`).
//! - The events of a list of steps are a trace without data links. It fits the exchange, and gives the same exchange
//!   state and the same replies ([`linked_runs_are_plain`]).
//! - [`put_step`] processes an event or a received frame, and appends its report line. Of the line of a frame of the
//!   exchange it appends the start. [`put_turn_step`] processes the turn of a link after a frame of the exchange, and
//!   appends the rest of its line. If an allocation fails, the text may have a prefix of the part (`front`).
//! - [`ready`] makes the exchange of a trace before its first event. There is an exchange then, in the state after the
//!   lines so far (`RunsAfter`). [`ready_linked`] makes the exchange of a trace with data links (`LinkedRunsAfter`).
//!   Each does nothing if there is an exchange.
//! - Lines in sequence have one list of contents (`EachInTurn`) and one story (`story_in_turn`). Without data links it
//!   is the story of a trace ([`plain_lines_are_followed`]), and each trace with short lines is followed
//!   ([`traces_are_followed`]).
//! - The premises and the effect of one event are defined here (`IsEventDue`, `HasHappened`, `IsLinkedDue`,
//!   `HasLinkedHappened`).
#![tactic(auto)]

mod events;
mod exchange;
mod following_laws;
mod laws;
mod linked_opening;
mod opening;
mod settings;
mod steps;

pub use exchange::LinkedExchange;
pub use following_laws::{plain_lines_are_followed, traces_are_followed};
pub use laws::linked_runs_are_plain;
pub use link_procedures::Indication;
pub use link_table::{Change, LinkTable, NoLinkError};
pub use linked_opening::ready_linked;
pub use opening::ready;
pub use settings::Settings;
pub use steps::{LinkedEvent, put_step, put_turn_step};
