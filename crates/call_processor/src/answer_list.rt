//! The answer sink that stores complete answers.
ghost use Rattle.std.specs.Prelude.{◌≡◌, ◌++◌, ◌∷◌, List, [], OnOk, OnErr, take, drop};
ghost use Rattle.call_processor.specs.declared.worked.Placed.{Placed};
ghost use Rattle.call_processor.specs.Keeping.{BeginsFrom, HandsBelow};

use crate::answer_sink::AnswerSink;
use crate::worked::Placed;
use exchange_events::{Answer, Outbox, Response};
use std::alloc::{AllocError, Global};
use std::collections::VecDeque;

/// An answer sink that stores complete answers.
#[derive(Drop)]
pub struct AnswerList {
    /// The answers, in the order in which they were appended.
    pub items: VecDeque<Placed>,
}

impl AnswerList {
    /// Returns an empty list.
    pub fn new(alloc: Global) -> AnswerList
        ensures { result.items.items ≡ [] }
    {
        AnswerList {
            items: VecDeque::new(alloc),
        }
    }
}

impl AnswerSink for AnswerList {
    ghost holds = { λ k answers. k.items.items ≡ answers };

    fn new_empty(&self, alloc: Global) -> AnswerList {
        AnswerList::new(alloc)
    }

    fn clear(&mut self) {
        self.items.clear();
    }

    fn push(
        &mut self,
        alloc: Global,
        place: u32,
        event: u32,
        response: Response,
        outbox: &Outbox,
        octets: &[[u8; 30]],
        _: usize,
    ) -> Result<(), AllocError> {
        let answer = Answer::keep_response(alloc, event, response, outbox, octets)?;
        self.items.push_back(Placed { place, answer })?;
        Ok(())
    }

    fn len(&self) -> usize {
        self.items.len()
    }

    fn truncate(&mut self, count: usize) {
        self.items.truncate(count);
    }

    fn first_place(&self) -> Option<u32> {
        match self.items.front() {
            Some(first) => Some(first.place),
            None => None,
        }
    }

    fn move_before(&mut self, to: &mut Self, below: u32) -> Result<(), AllocError> {
        move_first(&mut self.items, &mut to.items)?;
        move_below(&mut self.items, &mut to.items, below)
    }
}

// Moves the first answers, as long as they come before a position.
fn move_below(
    from: &mut VecDeque<Placed>,
    to: &mut VecDeque<Placed>,
    below: u32,
) -> Result<(), AllocError>
    ensures handed { OnOk result (HandsBelow below from.old.items to.old.items from.new.items to.new.items) }
    ensures stops { OnOk result (BeginsFrom below from.new.items) }
    ensures refused { OnErr result ((more : List Placed) × (to.new.items ≡ to.old.items ++ more)) }
{
    while let Some(next) = from.front() {
        if next.place >= below {
            return Ok(());
        }
        move_first(from, to)?;
    }
    Ok(())
}

// Moves the first answer, if there is one.
fn move_first(from: &mut VecDeque<Placed>, to: &mut VecDeque<Placed>) -> Result<(), AllocError>
    ensures handed { OnOk result (from.new.items ≡ drop 1 from.old.items × (to.new.items ≡ to.old.items ++ take 1 from.old.items)) }
    ensures refused { OnErr result (to.new.items ≡ to.old.items) }
{
    if let Some(first) = from.pop_front() {
        to.push_back(first)?;
    }
    Ok(())
}
