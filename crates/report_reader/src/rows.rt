// The octets of each line in a frame.
ghost use Rattle.std.specs.Prelude.{◌≡◌, length, option_map, IfOk, IfSome, OnOk};
ghost use Rattle.report_reader.specs.Spelling.{is_idle};
ghost use Rattle.report_reader.specs.Reading.{row_at, rows_before, rows_of};

use crate::signals::signal_at;
use circuit_model::IDLE;
use exchange_events::{Rows, Signal};
use std::alloc::{AllocError, Global};

// The octets of an idle line.
const IDLE_ROW: [u8; 30] = [IDLE; 30];

// Returns whether every octet of a line is idle.
fn is_idle(octets: &[u8]) -> bool
    ensures { result ≡ is_idle octets.now }
{
    octets.iter().all(|octet| *octet == IDLE)
}

// Returns a row of 30 octets.
fn row_of(octets: &[u8]) -> [u8; 30]
    requires { length octets.now ≡ 30 }
    ensures { result ≡ octets.now }
{
    let mut row = IDLE_ROW;
    row.copy_from_slice(octets);
    row
}

// Returns the 30 octets of a line that is not idle, after its number, and the octets after them.
fn row_at(octets: &[u8]) -> Option<(Signal, &[u8])>
    ensures read { option_map (λ cut. (cut.0, cut.1.now)) result ≡ row_at octets.now }
    ensures thirty { IfSome result (λ cut. length cut.0.octets ≡ 30) }
{
    let (sent, rest) = signal_at(octets)?;
    let row = sent.octets.as_slice();
    if row.len() != 30 || is_idle(row) {
        return None;
    }
    Some((sent, rest))
}

// Appends idle rows, up to a line.
fn fill_before(rows: &mut Vec<[u8; 30]>, line: usize) -> Result<(), AllocError>
    ensures { OnOk result (rows.new.items ≡ rows_before line rows.old.items) }
{
    while rows.len() < line {
        rows.push(IDLE_ROW)?;
    }
    Ok(())
}

/// Returns the rows of a frame to the end of a line.
pub(crate) fn rows_of(alloc: Global, octets: &[u8]) -> Result<Option<Rows>, AllocError>
    ensures { IfOk result (λ read. read ≡ rows_of octets.now) }
{
    let mut rows = Vec::new(alloc);
    let mut rest = octets;
    while !rest.is_empty() {
        let Some((sent, others)) = row_at(rest) else {
            return Ok(None);
        };
        let line = usize::from(sent.line);
        if line < rows.len() {
            return Ok(None);
        }
        fill_before(&mut rows, line)?;
        rows.push(row_of(sent.octets.as_slice()))?;
        rest = others;
    }
    Ok(Some(Rows::of(rows)))
}
