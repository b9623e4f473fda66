//! Tests of the texts: traces, reports, answers, meters, in-memory streams, and the state after a failed allocation.
//! Two meters of a program are with them.
//!
//! They are separate from the crates that they test, so that none of these is proved a second time with its tests. The
//! refusals of traces and of arguments are in the tables of `examples/`. The crate guarantees nothing; its meters are
//! proved as any program's meters.
#![tactic(auto)]

#[cfg(test)]
mod answers;
#[cfg(test)]
mod calls_to_line;
#[cfg(test)]
mod ends;
#[cfg(test)]
mod generated;
#[cfg(test)]
mod headings;
#[cfg(test)]
mod keeper;
#[cfg(test)]
mod refusals;
#[cfg(test)]
mod reports;
#[cfg(test)]
mod summaries;
#[cfg(test)]
mod traces;
#[cfg(test)]
mod traffic;
