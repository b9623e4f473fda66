//! Lines in one text, in sequence.
ghost use Rattle.std.specs.Prelude.{◌≡◌, ◌+◌, ◌-◌, ◌<◌, ◌≤◌, ◌==◌, ◌++◌, ◌∷◌, ◌^◌, [], All, OnOk, OnErr, length, take, drop};
ghost use Rattle.exchange_events.specs.Kept.{kept_of};
ghost use Rattle.exchange_events.specs.Responses.{reply_of};
ghost use Rattle.report_text.specs.Report.{response_line};
ghost use Rattle.call_processor.specs.Keeping.{placed};
ghost use Rattle.report_lines.specs.Lines.{HandsLines, calls_of, first_line, line_of, listed, text_of};
ghost use Rattle.call_profile.specs.CallsTold.{calls_kept};
ghost use Rattle.report_lines.specs.Entries.{AreAppended, AreBefore, AreUnchanged, BeginFrom, IsAppended, lines_in, octets_in, records_in};

use crate::listing::Listing;
use exchange_events::{CallRecord, Outbox, Response};
use report_text::append_line;
use std::alloc::{AllocError, Global};
use std::marker::Model;

/// The entry of a line: the position of its event in the history, and the number of its octets and of its records.
#[derive(Clone, Copy, Debug, PartialEq, Eq)]
pub struct LineEntry {
    /// The position of its event in the history.
    pub place: u32,
    /// The number of octets of the line.
    pub octets: usize,
    /// The number of records of calls that ended.
    pub records: usize,
}

/// The extent of several lines.
#[derive(Clone, Copy, Debug, PartialEq, Eq)]
pub struct Extent {
    /// The number of lines.
    pub lines: usize,
    /// The number of their octets.
    pub octets: usize,
    /// The number of their records of calls.
    pub records: usize,
}

// The extent of no lines.
const NONE: Extent = Extent {
    lines: 0,
    octets: 0,
    records: 0,
};

/// The text of lines, their records of calls and their entries, each in sequence.
#[derive(Debug, Drop)]
pub struct Buffers {
    /// The text of the lines.
    pub text: Vec<u8>,
    /// Their records.
    pub records: Vec<CallRecord>,
    /// Their entries.
    pub entries: Vec<LineEntry>,
}

/// Lines, each with its position in the history and with the records of the calls that ended. The model is their list.
#[derive(Debug, Drop)]
pub struct Lines {
    // The lines that were moved to another list, and then the others. An entry has the length of its line, not its end,
    // so a run is appended unchanged, and nothing is shifted.
    buffers: Buffers,
    // The extent of the lines that were moved.
    handed: Extent,
}

impl Model for Lines {
    ghost use Rattle.std.specs.Prelude.{List};
    ghost use Rattle.report_lines.specs.Lines.{Line};
    ghost use Rattle.report_lines.specs.Entries.{AreMarked, lines_left};

    ghost Value = { List Line };

    ghost view = { λ s. lines_left s.buffers.text.items s.buffers.records.items s.buffers.entries.items s.handed };

    ghost invariant = { λ s. AreMarked s.buffers.text.items s.buffers.records.items s.buffers.entries.items s.handed };
}

impl Lines {
    /// Returns an empty list. It reuses the buffer of a text.
    pub fn new(alloc: Global, mut text: Vec<u8>) -> Lines
        ensures { result ≡ [] }
    {
        text.clear();
        Lines {
            buffers: Buffers {
                text,
                records: Vec::new(alloc),
                entries: Vec::new(alloc),
            },
            handed: NONE,
        }
    }

    /// Removes all lines.
    pub fn clear(&mut self)
        ensures { self.new ≡ [] }
    {
        self.buffers.text.clear();
        self.buffers.records.clear();
        self.buffers.entries.clear();
        self.handed = NONE;
    }

    /// Appends the line of an event at its position in the history, from the response and the outbox of its step. If
    /// nothing is listed, the line is empty.
    ///
    /// # Errors
    ///
    /// [`AllocError`] if an allocation fails. The lines are then unchanged.
    pub fn push(
        &mut self,
        listing: Listing,
        place: u32,
        event: u32,
        response: Response,
        outbox: &Outbox,
        octets: &[[u8; 30]],
    ) -> Result<(), AllocError>
        ensures line { OnOk result (self.new ≡ self.old ++ line_of listing (placed place event response outbox.now octets.now) ∷ []) }
        ensures kept { OnErr result (self.new ≡ self.old) }
    {
        append_event(
            &mut self.buffers,
            listing,
            place,
            event,
            response,
            outbox,
            octets,
        )
    }

    /// Returns the number of lines.
    pub fn len(&self) -> usize
        ensures { result ≡ length self.now }
    {
        self.buffers.entries.len() - self.handed.lines
    }

    /// Returns whether there is no line.
    pub fn is_empty(&self) -> bool
        ensures { result ≡ (length self.now == 0) }
    {
        self.len() == 0
    }

    /// Removes all lines but the first n.
    pub fn truncate(&mut self, count: usize)
        ensures { self.new ≡ take count self.old }
    {
        let left = entries_left(&self.buffers.entries, self.handed.lines);
        if count >= left.len() {
            return;
        }
        let end = behind(self.handed, &left[..count]);
        self.buffers.text.truncate(end.octets);
        self.buffers.records.truncate(end.records);
        self.buffers.entries.truncate(end.lines);
    }

    /// Returns the position of the first line.
    pub fn first_place(&self) -> Option<u32>
        ensures { result ≡ first_line self.now }
    {
        match self.buffers.entries.get(self.handed.lines) {
            Some(first) => Some(first.place),
            None => None,
        }
    }

    /// Moves the first line to the end of others, and the next ones as long as they come before the position `below`.
    ///
    /// # Errors
    ///
    /// [`AllocError`] if an allocation fails. The others are then unchanged.
    pub fn move_before(&mut self, to: &mut Lines, below: u32) -> Result<(), AllocError>
        ensures handed { OnOk result (HandsLines below self.old to.old self.new to.new) }
        ensures refused { OnErr result (to.new ≡ to.old) }
    {
        let left = entries_left(&self.buffers.entries, self.handed.lines);
        let entries = &left[..run_length(left, below)];
        let end = behind(self.handed, entries);
        let text = between(&self.buffers.text, self.handed.octets, end.octets);
        let records = between(&self.buffers.records, self.handed.records, end.records);
        append_run(&mut to.buffers, text, records, entries)?;
        self.handed = end;
        Ok(())
    }

    /// Returns the text of the lines.
    pub fn text(&self) -> &[u8]
        ensures { result.now ≡ text_of self.now }
    {
        &self.buffers.text.as_slice()[self.handed.octets..]
    }

    /// Returns the records of the calls that ended, line by line.
    pub fn records(&self) -> &[CallRecord]
        ensures { result.now ≡ calls_of self.now }
    {
        &self.buffers.records.as_slice()[self.handed.records..]
    }
}

// Appends the line of an event if lines are listed, and its records and its entry. An error leaves the buffers
// unchanged.
fn append_event(
    buffers: &mut Buffers,
    listing: Listing,
    place: u32,
    event: u32,
    response: Response,
    outbox: &Outbox,
    octets: &[[u8; 30]],
) -> Result<(), AllocError>
    ensures line { OnOk result (IsAppended (line_of listing (placed place event response outbox.now octets.now)) buffers) }
    ensures kept { OnErr result (AreUnchanged buffers) }
{
    let start = buffers.text.len();
    append_listed(&mut buffers.text, listing, event, response, outbox, octets)?;
    let calls = records_told(response, outbox);
    let entry = LineEntry {
        place,
        octets: buffers.text.len() - start,
        records: calls.len(),
    };
    let done = append_one(&mut buffers.records, &mut buffers.entries, calls, entry);
    if done.is_err() {
        buffers.text.truncate(start);
    }
    done
}

// Appends lines of other buffers. An error leaves the buffers unchanged.
fn append_run(
    buffers: &mut Buffers,
    more: &[u8],
    calls: &[CallRecord],
    known: &[LineEntry],
) -> Result<(), AllocError>
    ensures lines { OnOk result (AreAppended more.now calls.now known.now buffers) }
    ensures kept { OnErr result (AreUnchanged buffers) }
{
    let before = buffers.text.len();
    buffers.text.extend_from_slice(more)?;
    let done = append_entries(&mut buffers.records, &mut buffers.entries, calls, known);
    if done.is_err() {
        buffers.text.truncate(before);
    }
    done
}

// Appends the line of an event, if lines are listed.
fn append_listed(
    text: &mut Vec<u8>,
    listing: Listing,
    event: u32,
    response: Response,
    outbox: &Outbox,
    octets: &[[u8; 30]],
) -> Result<(), AllocError>
    ensures line { OnOk result (text.new.items ≡ text.old.items ++ listed listing (response_line octets.now event response outbox.now)) }
    ensures kept { OnErr result (text.new.items ≡ text.old.items) }
{
    match listing {
        Listing::Report => append_line(text, event, response, outbox, octets),
        Listing::Nothing => Ok(()),
    }
}

// Returns the records of the calls that ended in a step.
fn records_told(response: Response, outbox: &Outbox) -> &[CallRecord]
    ensures { result.now ≡ calls_kept (kept_of (reply_of response outbox.now)) }
{
    match response {
        Response::Sent => outbox.records.as_slice(),
        Response::Frame(_) => outbox.records.as_slice(),
        _ => &[],
    }
}

// Appends the records of a line and its entry. Most lines have no records. An error leaves both unchanged.
fn append_one(
    records: &mut Vec<CallRecord>,
    entries: &mut Vec<LineEntry>,
    calls: &[CallRecord],
    entry: LineEntry,
) -> Result<(), AllocError>
    ensures records { OnOk result (records.new.items ≡ records.old.items ++ calls.now) }
    ensures entries { OnOk result (entries.new.items ≡ entries.old.items ++ entry ∷ []) }
    ensures kept { OnErr result ((records.new.items ≡ records.old.items) × (entries.new.items ≡ entries.old.items)) }
{
    if calls.is_empty() {
        return Ok(entries.push(entry)?);
    }
    append_told(records, entries, calls, entry)
}

// Appends the records of a line, and its entry. An error leaves both unchanged.
#[inline(never)]
fn append_told(
    records: &mut Vec<CallRecord>,
    entries: &mut Vec<LineEntry>,
    calls: &[CallRecord],
    entry: LineEntry,
) -> Result<(), AllocError>
    ensures records { OnOk result (records.new.items ≡ records.old.items ++ calls.now) }
    ensures entries { OnOk result (entries.new.items ≡ entries.old.items ++ entry ∷ []) }
    ensures kept { OnErr result ((records.new.items ≡ records.old.items) × (entries.new.items ≡ entries.old.items)) }
{
    let start = records.len();
    records.extend_from_slice(calls)?;
    if entries.push(entry).is_err() {
        records.truncate(start);
        return Err(AllocError);
    }
    Ok(())
}

// Appends records and entries. An error leaves both unchanged.
fn append_entries(
    records: &mut Vec<CallRecord>,
    entries: &mut Vec<LineEntry>,
    more: &[CallRecord],
    known: &[LineEntry],
) -> Result<(), AllocError>
    ensures records { OnOk result (records.new.items ≡ records.old.items ++ more.now) }
    ensures entries { OnOk result (entries.new.items ≡ entries.old.items ++ known.now) }
    ensures kept { OnErr result ((records.new.items ≡ records.old.items) × (entries.new.items ≡ entries.old.items)) }
{
    let start = records.len();
    records.extend_from_slice(more)?;
    let done = entries.extend_from_slice(known);
    if done.is_err() {
        records.truncate(start);
    }
    done
}

// Returns the items from one position to another.
fn between<T>(items: &Vec<T>, start: usize, end: usize) -> &[T]
    requires order { start ≤ end }
    requires within { end ≤ length items.now.items }
    ensures { result.now ≡ take (end - start) (drop start items.now.items) }
{
    &items.as_slice()[start..end]
}

// Returns the entries of the lines after those that were moved.
fn entries_left(entries: &Vec<LineEntry>, handed: usize) -> &[LineEntry]
    requires { handed ≤ length entries.now.items }
    ensures { result.now ≡ drop handed entries.now.items }
{
    &entries.as_slice()[handed..]
}

// Returns the length of the first run: the first line, and the next ones as long as they come before a position.
fn run_length(entries: &[LineEntry], below: u32) -> usize
    ensures within { result ≤ length entries.now }
    ensures some { 0 < length entries.now → 0 < result }
    ensures before { AreBefore below (drop 1 (take result entries.now)) }
    ensures stops { BeginFrom below (drop result entries.now) }
{
    let mut count = 0;
    for entry in entries {
        if count > 0 && entry.place >= below {
            return count;
        }
        count += 1;
    }
    count
}

// Returns the extent of lines together with those before them.
fn behind(front: Extent, entries: &[LineEntry]) -> Extent
    requires lines { front.lines + length entries.now < 2 ^ 64 }
    requires octets { front.octets + octets_in entries.now < 2 ^ 64 }
    requires records { front.records + records_in entries.now < 2 ^ 64 }
    ensures lines { result.lines ≡ front.lines + length entries.now }
    ensures octets { result.octets ≡ front.octets + octets_in entries.now }
    ensures records { result.records ≡ front.records + records_in entries.now }
{
    let mut end = front;
    for entry in entries {
        end.lines += 1;
        end.octets += entry.octets;
        end.records += entry.records;
    }
    end
}
