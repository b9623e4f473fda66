//! The target of a number, and the result of a lookup of digits.

use crate::line_list::LineList;

/// The target of a number.
#[derive(Clone, Copy, Debug, PartialEq, Eq)]
pub enum Target {
    /// This line.
    Line(u8),
    /// This conference room.
    Room(u8),
    /// The first of these lines that has an idle channel.
    Lines(LineList),
}

/// The result of a lookup of digits in a plan.
#[derive(Clone, Copy, Debug, PartialEq, Eq)]
pub enum Found {
    /// A number of the plan begins the digits, and is routed to this line.
    Line(u8),
    /// A number of the plan begins the digits, and is routed to this conference room.
    Room(u8),
    /// A number of the plan begins the digits, and is routed to the first of these lines that has an idle channel.
    Lines(LineList),
    /// The digits are a proper prefix of a number of the plan.
    More,
    /// No number of the plan begins the digits or begins with them.
    Nothing,
}

impl From<Target> for Found {
    ghost use Rattle.std.specs.Prelude.{◌≡◌};
    ghost use Rattle.number_plan.specs.Plan.{found_at};

    ghost from_gives = { λ target found. found ≡ found_at target };

    fn from(target: Target) -> Found {
        match target {
            Target::Line(line) => Found::Line(line),
            Target::Room(room) => Found::Room(room),
            Target::Lines(lines) => Found::Lines(lines),
        }
    }
}
