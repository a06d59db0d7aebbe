//! The rule of a door's table, and what each step tells. These types are for the proofs alone.
ghost use Rattle.door.specs.Views.{first_view, split_view, joining, spent_view};
ghost use Rattle.door.specs.Rule.{Rule};
ghost use Rattle.door.specs.Steps.{Draws, Looks, Takes, PutsBack, Serves, Numbers, Merges};

use crate::kept::Kept;
use crate::object::{Answer, Object};
use crate::view::View;
use atomic_table::{Join, Play, Split, TableRule};
use std::marker::PhantomData;
use std::snapshot::Snapshot;

/// The rule, by the object that the door opened with.
pub struct Law<O> {
    object: PhantomData<O>,
}

impl<O: Object> TableRule<Kept<O, O::Ask, Answer<O>>, View<O, O::Ask, Answer<O>>, Snapshot<O>>
    for Law<O> {
    ghost holds = { λ opening. Rule O.serves O.fits opening.value };

    ghost first = { λ opening. first_view opening.value };
}

pub struct Draw;

impl<O, Q, A> Play<Kept<O, Q, A>, View<O, Q, A>> for Draw {
    ghost then = { Draws };
}

pub struct Look;

impl<O, Q, A> Play<Kept<O, Q, A>, View<O, Q, A>> for Look {
    ghost then = { Looks };
}

pub struct Take;

impl<O, Q, A> Play<Kept<O, Q, A>, View<O, Q, A>> for Take {
    ghost then = { Takes };
}

pub struct PutBack;

impl<O, Q, A> Play<Kept<O, Q, A>, View<O, Q, A>> for PutBack {
    ghost then = { PutsBack };
}

pub struct Serve;

impl<O: Object> Play<Kept<O, O::Ask, Answer<O>>, View<O, O::Ask, Answer<O>>> for Serve {
    ghost then = { Serves O.serves O.fits };
}

pub struct Inherit;

impl<O, Q, A> Split<View<O, Q, A>> for Inherit {
    ghost left = { λ v. v };

    ghost right = { split_view };
}

pub struct Number;

impl<O, Q, A> Play<Kept<O, Q, A>, View<O, Q, A>> for Number {
    ghost then = { Numbers };
}

pub struct TakeOver;

impl<O, Q, A> Join<View<O, Q, A>> for TakeOver {
    ghost both = { joining };

    ghost spent = { spent_view };
}

pub struct Merge;

impl<O, Q, A> Play<Kept<O, Q, A>, View<O, Q, A>> for Merge {
    ghost then = { Merges };
}
