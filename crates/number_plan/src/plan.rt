//! The plan of numbers, in the order of their digits.

use crate::digits::{Digits, bounds_of, compare};
use crate::target::{Found, Target};
use std::alloc::{AllocError, Global};
use std::cmp::Ordering;
use std::marker::Model;
use thiserror::Error;

/// The maximum number of numbers of a plan. Source: this project.
pub const MAX_NUMBERS: usize = 256;

/// A number and its target.
#[derive(Debug, Drop)]
pub struct Number {
    /// The digits.
    pub digits: Digits,
    /// The target of the number.
    pub target: Target,
}

/// The reason for which a number cannot be added to a plan.
#[derive(Clone, Copy, Debug, PartialEq, Eq, Error)]
pub enum PlanFault {
    /// The number equals, begins or continues a number of the plan.
    #[error("the number equals, begins or continues another")]
    Prefix = 1,
    /// The plan has 256 numbers.
    #[error("the plan is full")]
    TooMany = 2,
    /// An allocation failed.
    #[error("out of memory")]
    Memory = 3,
}

impl From<AllocError> for PlanFault {
    ghost use Rattle.std.specs.Prelude.{◌≡◌};
    ghost use Rattle.number_plan.specs.declared.plan.PlanFault.TheVariants.{Memory};

    ghost from_gives = { λ _ fault. fault ≡ Memory };

    fn from(_: AllocError) -> PlanFault {
        PlanFault::Memory
    }
}

/// A number plan. A contract views it as the list of its numbers, in the order of their digits.
#[derive(Debug, Drop)]
pub struct Plan {
    numbers: Vec<Number>,
}

impl Model for Plan {
    ghost use Rattle.std.specs.Prelude.{List, ◌≡◌, true, ◌≤◌, length};
    ghost use Rattle.number_plan.specs.declared.plan.Number.{Number};
    ghost use Rattle.number_plan.specs.Plan.{in_order};

    ghost Value = { List Number };

    ghost view = { λ p. p.numbers.items };

    ghost invariant = { λ p. (in_order p.numbers.items ≡ true) × (length p.numbers.items ≤ 256) };
}

impl Plan {
    ghost use Rattle.std.specs.Prelude.{◌≡◌, ◌↔◌, ◌<◌, ◌≤◌, ℕ, List, [], true, false, IsTrue, length, OnOk, OnErr, IfOk, IfErr, IsErrOf};
    ghost use Rattle.number_plan.specs.Plan.{side_by_side, in_order, with_number, found_for, is_number_taken, is_number, AreApart, LeadsTo, IsUnfinishedNumber, IsUnknown};
    ghost use Rattle.number_plan.specs.Bounds.{AreBounds};
    ghost use Rattle.number_plan.specs.Search.{IsBesideAt, IsPlaceFor};

    /// Returns an empty plan.
    pub fn new(alloc: Global) -> Plan
        ensures { result ≡ [] }
    {
        Plan {
            numbers: Vec::new(alloc),
        }
    }

    /// Adds a number of 1 to 20 digits `0` to `9`, which [`is_number`](crate::is_number) tests.
    ///
    /// # Errors
    ///
    /// - [`PlanFault::Prefix`] if and only if the number equals, begins or continues a number of the plan.
    /// - [`PlanFault::TooMany`] if and only if it does not, and the plan has 256 numbers.
    /// - [`PlanFault::Memory`] if the allocation fails.
    ///
    /// With each error the plan is unchanged.
    pub fn add(&mut self, digits: &[u8], target: Target) -> Result<(), PlanFault>
        requires { IsTrue (is_number digits.now) }
        ensures added { OnOk result (self.new ≡ with_number self.old (record { digits = digits.now; target = target })) }
        ensures refused { OnErr result (self.new ≡ self.old) }
        ensures prefix { IsErrOf result PlanFault.Prefix ↔ IsTrue (is_number_taken self.old digits.now) }
        ensures too_many { IsErrOf result PlanFault.TooMany ↔ ((is_number_taken self.old digits.now ≡ false) × (length self.old ≡ 256)) }
        ensures apart { AreApart self.new }
    {
        match self.search(digits) {
            Ok(_) => Err(PlanFault::Prefix),
            Err(_) if self.numbers.len() == MAX_NUMBERS => Err(PlanFault::TooMany),
            Err(place) => {
                let digits = Digits::from_slice(digits);
                Ok(self.insert(place, Number { digits, target })?)
            }
        }
    }

    /// Returns the target of the digits, `More` if they are a proper prefix of a number, or `Nothing`.
    pub fn look(&self, digits: &[u8]) -> Found
        ensures found { result ≡ found_for self.now digits.now }
        ensures line { (l : ℕ) → (result ≡ Found.Line l) ↔ LeadsTo self.now digits.now (Target.Line l) }
        ensures room { (r : ℕ) → (result ≡ Found.Room r) ↔ LeadsTo self.now digits.now (Target.Room r) }
        ensures lines { (ls : List ℕ) → (result ≡ Found.Lines ls) ↔ LeadsTo self.now digits.now (Target.Lines ls) }
        ensures more { (result ≡ Found.More) ↔ IsUnfinishedNumber self.now digits.now }
        ensures nothing { (result ≡ Found.Nothing) ↔ IsUnknown self.now digits.now }
        ensures apart { AreApart self.now }
    {
        self.find(digits)
    }

    fn find(&self, digits: &[u8]) -> Found
        ensures found { result ≡ found_for self.now digits.now }
        ensures apart { AreApart self.now }
    {
        match self.search(digits) {
            Ok(place) => {
                let number = &self.numbers[place];
                if number.digits.as_slice().len() <= digits.len() {
                    Found::from(number.target)
                } else {
                    Found::More
                }
            }
            Err(_) => Found::Nothing,
        }
    }

    // Returns the place of a number that is a prefix of the digits or has them as a prefix. The error is the place for
    // the digits if there is no such number.
    fn search(&self, digits: &[u8]) -> Result<usize, usize>
        ensures beside { IfOk result (IsBesideAt self.now digits.now) }
        ensures taken { IfOk result (λ _. IsTrue (is_number_taken self.now digits.now)) }
        ensures place { IfErr result (IsPlaceFor self.now digits.now) }
        ensures free { IfErr result (λ _. is_number_taken self.now digits.now ≡ false) }
        ensures order { in_order self.now ≡ true }
        ensures apart { AreApart self.now }
        ensures few { length self.now ≤ 256 }
    {
        let bounds = bounds_of(digits);
        self.numbers.binary_search_by(
            |number: &Number| -> Ordering
                requires { AreBounds digits.now bounds }
                ensures { result ≡ side_by_side number.now.digits digits.entry.now }
            { compare(&number.digits, digits, bounds) },
        )
    }

    fn insert(&mut self, place: usize, number: Number) -> Result<(), AllocError>
        requires place { IsPlaceFor self.old number.digits place }
        requires few { length self.old < 256 }
        ensures added { OnOk result (self.new ≡ with_number self.old number) }
        ensures refused { OnErr result (self.new ≡ self.old) }
        ensures apart { AreApart self.new }
    {
        Ok(self.numbers.insert(place, number)?)
    }
}
