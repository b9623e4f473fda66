//! The scope of a restart: a channel, or the line.

/// The scope of a RESTART, by its restart indicator (Q.931, 4.5.25) and its channel identification (4.5.13).
#[derive(Clone, Copy, Debug, PartialEq, Eq)]
pub enum Restart {
    /// The bearer channel at this place of the line, 0 to 29.
    Channel(u8),
    /// Every bearer channel of the line. The number is the octet of the restart indicator, 86 for a single interface or
    /// 87 for all of them.
    Interface(u8),
}

impl Restart {
    ghost use Rattle.std.specs.Prelude.{◌≡◌};
    ghost use Rattle.clearing_rules.specs.Restarting.{is_restarted};

    /// Returns whether the bearer channel at this place of the line is restarted.
    pub fn covers(self, place: u8) -> bool
        ensures { result ≡ is_restarted self place }
    {
        match self {
            Restart::Channel(restarted) => place == restarted,
            Restart::Interface(_) => true,
        }
    }
}
