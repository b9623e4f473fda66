//! The whole exchange, from arguments and trace bytes to report bytes, and the verdict on a report. It works with any
//! engine that carries octets, any gate and any meters, on 30 or 59 internal slots.
//!
//! The main theorem is the clause `ends` of [`exchange`], which has one definition for each ending (`HasEnded`). If
//! `run` returns status 0, the input was a trace and its events were processed in a lawful order. The output is exactly
//! the report of that run, with the summary of each meter that a change removes. The active and spare meters are the
//! result of the changes, and each active meter recorded the calls that ended in its active period (`IsCompleted`,
//! `IsRunWritten`).
//!
//! - If the trace changes no meters, the output is its report, and each meter recorded every call
//!   ([`law_of_unchanged_meters`]).
//! - With `Engine`, each octet in the report is the octet that its slot receives by definition.
//! - For `gen` the same holds for a generated trace, whose summary is written (`Summed` of `IsCompleted`).
//! - With `run --strict` no path ever moves, so each number of moved paths in the report is 0
//!   ([`strict_runs_move_nothing`]).
//! - Any other input is refused at its first line that fails (`IsInputRefused`), and other arguments are refused as
//!   such (`AreArgumentsWrong`).
//!
//! For `check` the input is a trace and a report, divided by a line `report` in only one way ([`law_of_divisions`]).
//! With status 0 the report is the trace's in a lawful order (`Found_valid` of `IsCompleted`). With status 6 it is not,
//! and the output names its first wrong or missing line (`IsReportRejected`). Each report of a trace gets one of the
//! two, because the arguments and the input decide the ending, unless a read, a write or an allocation fails (`due`).
//!
//! [`follow`] processes the lines of a trace when they arrive. Before each read it has written exactly the text of the
//! lines read so far (`promise`), and its clause `ends` has a case for each ending (`FollowsTo`). It processes the end
//! of the input only if the wire has ended (`IsDue`). A followed trace has the report of a run in file order
//! ([`followed_traces_are_runs`]), and each trace with short lines is followed ([`traces_are_followed`],
//! [`plain_lines_are_followed`]). The octets written do not depend on the pieces that are read ([`law_of_pieces`]). The
//! lines that are followed may have data links (`EachInTurn`, `story_in_turn`).
//!
//! Statuses 3 and 4 occur only after an error was counted (`HasReadFailed`, `HasWriteFailed`), and no other status
//! hides one (`reads`, `writes`). With status 4 a prefix of the text was written. With status 5 it is a prefix that
//! ends with a segment and the changes after it (`HasRunOutOfMemory`, `IsRunInterrupted`). No more of the input is read
//! than a command needs (`stops`, `unread`).
#![tactic(auto)]

mod laws;

pub use exchange_follow::{FollowOutcome, follow, law_of_pieces};
pub use exchange_run::{Outcome, exchange, law_of_unchanged_meters, strict_runs_move_nothing};
pub use laws::followed_traces_are_runs;
pub use linked_exchange::{plain_lines_are_followed, traces_are_followed};
pub use run_verifier::{Ending, law_of_divisions};
