//! A list of lines, in the order in which a hunt tries them.

use std::marker::Model;

/// The maximum number of lines of a list. Source: this project.
pub const MAX_LINES: usize = 32;

/// A list of up to 32 lines, in the order in which a hunt tries them. A contract views it as the list.
#[derive(Clone, Copy, Debug, PartialEq, Eq)]
pub struct LineList {
    lines: [u8; MAX_LINES],
    count: u8,
}

impl Model for LineList {
    ghost use Rattle.std.specs.Prelude.{ℕ, List, ◌≡◌, ◌≤◌, ◌-◌, ◌++◌, length, take, drop, replicate};
    ghost use Rattle.std.proofs.Common.{sym, ap, ◌∙◌, arith, take-append-drop, length-take-le};

    ghost Value = { List ℕ };

    ghost view = { λ l. take l.count l.lines };

    ghost invariant = { λ l. (length l.lines ≡ 32) × (l.count ≤ 32) × (drop l.count l.lines ≡ replicate (32 - l.count) 0) };

    ghost inverse = { λ lines. record { lines = lines ++ replicate (32 - length lines) 0; count = length lines } };

    ghost inverse_ok = { λ l h i. record {
      lines =
          (ap (λ n. take l.count l.lines ++ replicate (32 - n) 0) (length-take-le l.count l.lines (omega (arith, h.0, h.1)))
          ∙ ap (λ rest. take l.count l.lines ++ rest) (sym h.2)
          ∙ take-append-drop l.count l.lines) i;
      count = length-take-le l.count l.lines (omega (arith, h.0, h.1)) i;
    } };
}

impl LineList {
    ghost use Rattle.std.specs.Prelude.{◌≡◌, ◌==◌, ◌<◌, ◌≤◌, ◌++◌, ◌∷◌, [], length};
    ghost use Rattle.number_plan.specs.Plan.{is_listed};

    /// Returns an empty list.
    pub fn new() -> LineList
        ensures { result ≡ [] }
    {
        LineList {
            lines: [0; MAX_LINES],
            count: 0,
        }
    }

    /// Returns whether the list has 32 lines.
    pub fn is_full(&self) -> bool
        ensures full { result ≡ (length self.now == 32) }
        ensures few { length self.now ≤ 32 }
    {
        usize::from(self.count) == MAX_LINES
    }

    /// Returns whether the list has this line.
    pub fn contains(&self, line: u8) -> bool
        ensures { result ≡ is_listed line self.now }
    {
        self.as_slice().iter().any(|other| *other == line)
    }

    /// Appends a line.
    pub fn push(&mut self, line: u8)
        requires { length self.old < 32 }
        ensures { self.new ≡ self.old ++ line ∷ [] }
    {
        self.lines[usize::from(self.count)] = line;
        self.count += 1;
    }

    /// Returns the lines in the order in which they are tried.
    pub fn as_slice(&self) -> &[u8]
        ensures { result.now ≡ self.now }
    {
        &self.lines[..usize::from(self.count)]
    }
}
