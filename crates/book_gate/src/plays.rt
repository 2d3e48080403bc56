//! The rule of the gate, and what each step tells.
ghost use Rattle.book_gate.specs.Rule.{IsKept};
ghost use Rattle.book_gate.specs.Steps.{Takes, Looks, Advances, Meets, giving, given, joining};
ghost use Rattle.book_gate.specs.Steps.{spent};
ghost use Rattle.book_gate.specs.Views.{statement_of, newcomer, origin};

use crate::held::Home;
use crate::stands::Stands;
use crate::views::{Opening, View};
use atomic_table::{Join, Play, Split, TableRule};
use std::marker::{Brand, PhantomData};

pub(crate) struct Turns<S> {
    book: PhantomData<S>,
}

impl<S: Stands> TableRule<Option<Home<S>>, View<S::Entry, S::Footing>, Opening<S>> for Turns<S> {
    ghost holds = { λ o.
        IsKept (statement_of S.list S.settled S.count) S.footing o.turns o.book.value };

    ghost first = { λ o. newcomer (origin (S.footing o.book.value) o.turns)
        (statement_of S.list S.settled S.count o.book.value) };
}

pub(crate) struct Take;

impl<S, E, F> Play<Option<S>, View<E, F>> for Take {
    ghost then = { Takes };
}

pub(crate) struct Look<S> {
    book: PhantomData<S>,
}

impl<S: Stands> Play<Option<Home<S>>, View<S::Entry, S::Footing>> for Look<S> {
    ghost then = { Looks (statement_of S.list S.settled S.count) S.footing };
}

pub(crate) struct Advance<S> {
    book: PhantomData<S>,
}

impl<S: Stands> Play<Option<Home<S>>, View<S::Entry, S::Footing>> for Advance<S> {
    ghost then = { Advances (statement_of S.list S.settled S.count) };
}

pub(crate) struct Meet;

impl<S, E, F> Play<Option<S>, View<E, F>> for Meet {
    ghost then = { Meets };
}

// How many turns a pass gives away. Each call picks it.
pub(crate) trait Amount {
    ghost use Rattle.std.specs.Prelude.{ℕ};

    ghost amount: { ℕ };
}

impl Amount for Brand {
    ghost amount = { 0 };
}

pub(crate) struct Give<A> {
    amount: PhantomData<A>,
}

impl<E, F, A: Amount> Split<View<E, F>> for Give<A> {
    ghost left = { λ v. giving v A.amount };

    ghost right = { λ v. given v A.amount };
}

pub(crate) struct TakeIn;

impl<E, F> Join<View<E, F>> for TakeIn {
    ghost both = { joining };

    ghost spent = { spent };
}
