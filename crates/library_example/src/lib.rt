//! An example of a library with its own meter, for a program over the exchange. [`CauseCount`] has the parts of a meter:
//! a value that contracts see, the lists of calls that it represents (`stands`), and its text (`text`). It is proved
//! like any other meter.
//!
//! A program needs three things: a crate with a `main`, as `tst` has one, a line in `crates.txt` that names the crates
//! below it, and its meters in boxes, `Box::new(alloc, CauseCount::new(17))?`. The function that boxes the meters also
//! calls `exchange_top::exchange`. The program `gated_tests` has this meter in `call.rt`, where it runs a trace in memory,
//! and `.ci/gated` compares the text of the meter.
#![tactic(auto)]

mod cause_count;

pub use cause_count::CauseCount;
