//! The steps of a table of links.
ghost use Rattle.std.specs.Prelude.{◌≡◌, ◌≤◌, ◌<◌, length, None};
ghost use Rattle.link_table.specs.Steps as spec;

use crate::links::{finish_on, receive_on, submit_on, turn_on};
use crate::notice::{Change, NoLinkError, Notice, change_of, notice_of};
use crate::table::{LINES, LinkTable, mark};
use link_frames::{Sender, read_frame};
use link_procedures::LinkTimers;

impl LinkTable {
    /// Begins a step without a received frame.
    pub fn begin(&mut self)
        requires { self.old.receiving ≡ None }
        ensures { self.new ≡ spec.begun self.old }
    {
        self.messages = 0;
        self.lines.clear();
        self.frames.clear();
    }

    /// Begins a step with the octets of a frame of the user on a line, and returns the notice to call control.
    ///
    /// # Errors
    ///
    /// [`NoLinkError`] if the line has no link. Then no link changes.
    pub fn receive<'a>(
        &mut self,
        line: u8,
        octets: &'a [u8],
        at: u32,
    ) -> Result<Option<Notice<'a>>, NoLinkError>
        requires { self.old.receiving ≡ None }
        ensures table { self.new ≡ spec.received_on line octets.entry.now at self.old }
        ensures notice { result ≡ spec.noticed_on line octets.entry.now at self.old }
    {
        self.begin();
        if !self.has_link(line) {
            return Err(NoLinkError);
        }
        let Some(frame) = read_frame(Sender::User, octets) else {
            return Ok(None);
        };
        let indication = receive_on(&mut self.links, line, &frame, at, &mut self.frames);
        mark(&mut self.lines, line, &self.frames);
        self.receiving = Some(line);
        Ok(notice_of(&frame, indication))
    }

    /// Submits a message of call control, of at most 112 octets, to the link of a line. At most 64 messages are
    /// submitted in a step. On a line without a link the message is sent as it is.
    pub fn submit(&mut self, line: u8, octets: &[u8], at: u32)
        requires short { length octets.now ≤ 112 }
        requires room { self.old.messages < 64 }
        ensures { self.new ≡ spec.submitted_on line octets.now at self.old }
    {
        if !self.has_link(line) {
            self.frames.push(octets);
            self.lines.push(line);
            self.messages += 1;
            return;
        }
        submit_on(&mut self.links, line, octets, at, &mut self.frames);
        mark(&mut self.lines, line, &self.frames);
        self.messages += 1;
    }

    /// Ends a step: the link that received a frame sends what it may, and acknowledges the frame.
    pub fn finish(&mut self, at: u32)
        ensures { self.new ≡ spec.ended at self.old }
    {
        let Some(line) = self.receiving else {
            return;
        };
        if !self.has_link(line) {
            unreachable!();
        }
        finish_on(&mut self.links, line, at, &mut self.frames);
        mark(&mut self.lines, line, &self.frames);
        self.receiving = None;
    }

    /// Begins a step with the turn of a link in a frame of the exchange, and returns the change of the link. In frame f
    /// it is the link of line f modulo 32.
    pub fn turn(&mut self, timers: &LinkTimers, at: u32) -> Option<Change>
        requires { self.old.receiving ≡ None }
        ensures table { self.new ≡ spec.turned_at timers.now at self.old }
        ensures change { result ≡ spec.changed_at timers.now at self.old }
    {
        self.begin();
        let line = (at % LINES) as u8;
        if !self.has_link(line) {
            return None;
        }
        let indication = turn_on(&mut self.links, line, timers, at, &mut self.frames);
        mark(&mut self.lines, line, &self.frames);
        change_of(indication)
    }
}
