//! The settings of an exchange with data links.

use call_timers::Timers;
use number_plan::Plan;
use tone_rules::Tones;

/// The settings of an exchange with data links, by which it processes each step.
#[derive(Clone, Copy)]
pub struct Settings<'a> {
    /// The number plan.
    pub plan: &'a Plan,
    /// The octets of the tones.
    pub tones: &'a Tones,
    /// The timers of the calls.
    pub timers: &'a Timers,
    /// The timers of the data links.
    pub link_timers: &'a link_procedures::LinkTimers,
}
