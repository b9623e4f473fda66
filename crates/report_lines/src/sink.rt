//! The answer sink that stores lines, by its listing.
ghost use Rattle.std.specs.Prelude.{◌≡◌, ◌≤◌, [], drop, length, map, take};
ghost use Rattle.report_lines.specs.Lines.{calls_of, line_of, text_of};

use crate::lines::Lines;
use crate::listing::ListingKind;
use call_processor::AnswerSink;
use exchange_events::{CallRecord, Outbox, Response};
use std::alloc::{AllocError, Global};
use std::marker::{Model, PhantomData};

/// An answer sink that stores lines. Its model is their list. `L` states whether it has the lines of the report.
#[derive(Debug, Drop)]
pub struct LineSink<L> {
    lines: Lines,
    kind: PhantomData<L>,
}

impl<L> Model for LineSink<L> {
    ghost use Rattle.std.specs.Prelude.{List};
    ghost use Rattle.report_lines.specs.Lines.{Line};

    ghost Value = { List Line };

    ghost view = { λ k. k.lines };
}

impl<L> LineSink<L> {
    /// Returns an empty list, which reuses the buffer of a text.
    pub fn new(alloc: Global, text: Vec<u8>) -> LineSink<L>
        ensures { result ≡ [] }
    {
        LineSink {
            lines: Lines::new(alloc, text),
            kind: PhantomData,
        }
    }

    /// Returns the text of the lines.
    pub fn text(&self) -> &[u8]
        ensures { result.now ≡ text_of self.now }
    {
        self.lines.text()
    }

    /// Returns the records of the calls that ended, line by line.
    pub fn records(&self) -> &[CallRecord]
        ensures { result.now ≡ calls_of self.now }
    {
        self.lines.records()
    }

    /// Returns the records of the calls that ended, after the first n.
    pub fn records_after(&self, count: usize) -> &[CallRecord]
        requires { count ≤ length (calls_of self.now) }
        ensures { result.now ≡ drop count (calls_of self.now) }
    {
        &self.records()[count..]
    }
}

impl<L: ListingKind + Send + Drop> AnswerSink for LineSink<L> {
    ghost holds = { λ k answers. k ≡ map (line_of L.listing) answers };

    fn new_empty(&self, alloc: Global) -> LineSink<L> {
        LineSink::new(alloc, Vec::new(alloc))
    }

    fn clear(&mut self) {
        self.lines.clear();
    }

    fn push(
        &mut self,
        alloc: Global,
        place: u32,
        event: u32,
        response: Response,
        outbox: &Outbox,
        octets: &[[u8; 30]],
        sounding: usize,
    ) -> Result<(), AllocError> {
        // Idle rows have no text.
        let rows = first_rows(octets, sounding);
        self.lines
            .push(L::listing(), place, event, response, outbox, rows)
    }

    fn len(&self) -> usize {
        self.lines.len()
    }

    fn truncate(&mut self, count: usize) {
        self.lines.truncate(count);
    }

    fn first_place(&self) -> Option<u32> {
        self.lines.first_place()
    }

    fn move_before(&mut self, to: &mut Self, below: u32) -> Result<(), AllocError> {
        self.lines.move_before(&mut to.lines, below)
    }
}

// Returns the first n rows, or all if there are fewer.
fn first_rows(rows: &[[u8; 30]], count: usize) -> &[[u8; 30]]
    ensures { result.now ≡ take count rows.now }
{
    if count < rows.len() {
        &rows[..count]
    } else {
        rows
    }
}
