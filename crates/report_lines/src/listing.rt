//! The listing of an answer sink of lines: the report, or nothing.
ghost use Rattle.std.specs.Prelude.{◌≡◌};
ghost use Rattle.report_lines.specs.declared.listing.Listing.{Listing};
ghost use Rattle.report_lines.specs.declared.listing.Listing.TheVariants as listed;

/// The text that a run writes for its events.
#[derive(Clone, Copy, Debug, PartialEq, Eq)]
pub enum Listing {
    /// The lines of their report.
    Report,
    /// Nothing: a summary has no lines.
    Nothing,
}

/// A listing as a type, not a field: lines move from one sink to another, and two sinks of one type list the same.
pub trait ListingKind {
    /// The listing.
    ghost listing: { Listing };

    /// Returns the listing.
    fn listing() -> Listing
        ensures { result ≡ listing };
}

/// The listing of the report.
#[derive(Debug, Drop)]
pub struct ReportLines;

/// The empty listing.
#[derive(Debug, Drop)]
pub struct NoLines;

impl ListingKind for ReportLines {
    ghost listing = { listed.Report };

    fn listing() -> Listing {
        Listing::Report
    }
}

impl ListingKind for NoLines {
    ghost listing = { listed.Nothing };

    fn listing() -> Listing {
        Listing::Nothing
    }
}
