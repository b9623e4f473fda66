//! The table of links.
ghost use Rattle.std.specs.Prelude.{◌≡◌, ◌==◌, ◌+◌, ◌≤◌, length, IfOk, is_some};
ghost use Rattle.link_table.specs.Tables as spec;
ghost use Rattle.link_table.specs.Steps.{marked};
ghost use Rattle.link_table.specs.Rest.{IsTable};

use arrayvec::ArrayVec;
use link_frames::FrameOctets;
use link_procedures::{FrameOutbox, Link, MAX_FRAMES};
use std::alloc::{AllocError, Global};
use std::marker::Model;

/// The number of lines of an exchange, and of frames between two turns of a link.
pub const LINES: u32 = 32;

/// The links of the lines of an exchange, with the frames of the last step. A contract views them as the record
/// `Table`.
#[derive(Drop)]
pub struct LinkTable {
    pub(crate) links: Vec<Option<Link>>,
    pub(crate) receiving: Option<u8>,
    pub(crate) messages: u8,
    pub(crate) lines: ArrayVec<u8, MAX_FRAMES>,
    pub(crate) frames: FrameOutbox,
}

impl Model for LinkTable {
    ghost use Rattle.link_table.specs.Tables.{Table};
    ghost use Rattle.link_table.specs.Rest.{IsTable};

    ghost Value = { Table };

    ghost view = { λ t. record { links = t.links.items; receiving = t.receiving; messages = t.messages; lines = t.lines.items; frames = t.frames } };

    ghost invariant = { λ t. IsTable (record { links = t.links.items; receiving = t.receiving; messages = t.messages; lines = t.lines.items; frames = t.frames }) };
}

impl LinkTable {
    /// Returns a table with a link in state 4 for each line that has one. T200 starts in this frame of the exchange.
    ///
    /// # Errors
    ///
    /// [`AllocError`] if an allocation fails.
    pub fn new(alloc: Global, linked: &[bool], at: u32) -> Result<LinkTable, AllocError>
        ensures { IfOk result (λ t. t ≡ spec.new_table linked.now at) }
    {
        Ok(LinkTable {
            links: new_links(alloc, linked, at)?,
            receiving: None,
            messages: 0,
            lines: ArrayVec::new(),
            frames: FrameOutbox::new(),
        })
    }

    /// Returns whether the table has no lines.
    pub fn is_empty(&self) -> bool
        ensures { result ≡ (length self.now.links == 0) }
    {
        self.links.is_empty()
    }

    /// Returns whether a line has a link.
    pub fn has_link(&self, line: u8) -> bool
        ensures { result ≡ spec.has_link line self.now }
    {
        matches!(self.links.get(usize::from(line)), Some(Some(_)))
    }

    /// Returns whether a line has a link that accepts messages.
    pub fn is_up(&self, line: u8) -> bool
        ensures { result ≡ spec.is_link_up (spec.link_of line self.now) }
    {
        match self.links.get(usize::from(line)) {
            Some(Some(link)) => link.is_up(),
            _ => false,
        }
    }

    /// Returns whether a line received a frame, and the step has not ended.
    pub fn is_receiving(&self) -> bool
        ensures { result ≡ is_some self.now.receiving }
    {
        self.receiving.is_some()
    }

    /// Returns the number of messages submitted in the step.
    pub fn messages(&self) -> u8
        ensures { result ≡ self.now.messages }
    {
        self.messages
    }

    /// Returns the frames sent in the step, in the order of transmission. A message on a line without a link is one of
    /// them.
    pub fn frames(&self) -> &[FrameOctets]
        ensures frames { result.now ≡ self.now.frames }
        ensures few { length result.now ≤ 10 + self.now.messages }
        ensures table { IsTable self.now }
    {
        self.frames.as_slice()
    }

    /// Returns the lines of the frames of the step.
    pub fn lines(&self) -> &[u8]
        ensures lines { result.now ≡ self.now.lines }
        ensures each { length result.now ≡ length self.now.frames }
    {
        self.lines.as_slice()
    }
}

// Returns a new link for each line that has one.
fn new_links(alloc: Global, linked: &[bool], at: u32) -> Result<Vec<Option<Link>>, AllocError>
    ensures { IfOk result (λ links. links.items ≡ (spec.new_table linked.now at).links) }
{
    let mut links = Vec::with_capacity(alloc, linked.len())?;
    for has_one in linked {
        links.push(if *has_one { Some(Link::new(at)) } else { None })?;
    }
    Ok(links)
}

// Appends the line for each frame that has none yet.
pub(crate) fn mark(lines: &mut ArrayVec<u8, MAX_FRAMES>, line: u8, frames: &FrameOutbox)
    requires { length frames.now ≤ 80 }
    ensures marked { lines.new.items ≡ marked line lines.old.items frames.now }
{
    while lines.len() < frames.as_slice().len() {
        lines.push(line);
    }
}
