//! The moves, in the form that the table requires: the knowledge that the seat gets from each, and the views after a
//! split and a join.
ghost use Rattle.turn_lock.specs.Moves.{IsDraw, IsLook, IsMeet, IsPass, IsRenew, IsAppend, view_after_split, new_view, view_after_join, spent_view};

use crate::board::{Aim, Gift, View};
use crate::stepper::Stepper;
use atomic_table::{Join, Play, Split};
use std::marker::PhantomData;

pub(crate) struct Cut<G> {
    marker: PhantomData<G>,
}

impl<C, G: Gift> Split<View<C>> for Cut<G> {
    ghost left = { view_after_split G.turns G.baton };

    ghost right = { new_view G.turns G.baton };
}

pub(crate) struct Glue;

impl<C> Join<View<C>> for Glue {
    ghost both = { view_after_join };

    ghost spent = { spent_view };
}

pub(crate) struct Meet<S> {
    marker: PhantomData<S>,
}

impl<S: Stepper> Play<Option<S>, View<S::Setting>> for Meet<S> {
    ghost then = { IsMeet };
}

pub(crate) struct Draw<S, E> {
    marker: PhantomData<(S, E)>,
}

impl<S: Stepper, E: Aim> Play<Option<S>, View<S::Setting>> for Draw<S, E> {
    ghost then = { IsDraw S.setting S.journal S.room S.reserved E.event };
}

pub(crate) struct Look<S> {
    marker: PhantomData<S>,
}

impl<S: Stepper> Play<Option<S>, View<S::Setting>> for Look<S> {
    ghost then = { IsLook S.setting S.journal S.room S.reserved };
}

pub(crate) struct Renew<S, E> {
    marker: PhantomData<(S, E)>,
}

impl<S: Stepper, E: Aim> Play<Option<S>, View<S::Setting>> for Renew<S, E> {
    ghost then = { IsRenew E.event };
}

pub(crate) struct Append<S> {
    marker: PhantomData<S>,
}

impl<S: Stepper> Play<Option<S>, View<S::Setting>> for Append<S> {
    ghost then = { IsAppend };
}

pub(crate) struct Pass<S> {
    marker: PhantomData<S>,
}

impl<S: Stepper> Play<Option<S>, View<S::Setting>> for Pass<S> {
    ghost then = { IsPass };
}
