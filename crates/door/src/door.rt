//! The door and its passes.
ghost use Rattle.std.specs.Prelude.{◌≡◌, [], ◌∷◌};
ghost use Rattle.door.specs.Steps.{IsAtRest};

use crate::kept::Kept;
use crate::object::{Answer, Object};
use crate::plays::{Inherit, Law, TakeOver};
use crate::steps;
use crate::view::View;
use atomic_table::{Refused, Seat, Table};
use std::alloc::{AllocError, AllocFailed, Global};
use std::snapshot::Snapshot;
use std::sync::Wait;

/// A ticket lock round an object. Contracts see the object that it opened with (`opening_of`).
#[derive(Drop)]
pub struct Door<O: Object> {
    table: Table<
        Kept<O, O::Ask, Answer<O>>,
        View<O, O::Ask, Answer<O>>,
        Snapshot<O>,
        Law<O>,
        Global,
    >,
    ghost sized: { (table.shared.table_id.words ≡ 3) × (table.shared.table_id.slots ≡ 1) },
}

/// The right to enter a door, with no bytes. Contracts see its turns (`turns_of`), each once and in the order of the
/// history, and the numbers of the passes that it stands for (`numbers_of`), its own first.
#[derive(Drop)]
pub struct Pass<O: Object> {
    seat: Seat<Kept<O, O::Ask, Answer<O>>, View<O, O::Ask, Answer<O>>>,
    ghost rests: { IsAtRest seat.me },
}

impl<O: Object> Door<O> {
    ghost use Rattle.std.specs.Prelude.{ℕ, List, [], ◌∷◌, ◌++◌, IfOk, IfErr};
    ghost use Rattle.door.specs.History.{Account, HasServed, HasBoth, AreApart};
    ghost use Rattle.door.specs.Doors.{opening_of, turns_of, numbers_of, IsPassOf};

    /// A door round the object, and its first pass, which has the number 0 and no turns. Where memory runs out the object
    /// comes back.
    pub fn new(alloc: Global, object: O) -> Result<(Door<O>, Pass<O>), AllocFailed<O>>
        ensures ok { IfOk result (λ d. (opening_of d.0 ≡ object) × IsPassOf d.0 d.1 × (turns_of d.1 ≡ []) × (numbers_of d.1 ≡ 0 ∷ [])) }
        ensures err { IfErr result (λ e. e.value ≡ object) }
    {
        let opening = Snapshot::of(&object);
        let mut slots = Vec::new(alloc);
        if let Err(failed) = slots.push(Kept::new(object)) {
            slots.destroy_empty();
            let AllocFailed { value } = failed;
            return Err(AllocFailed {
                value: value.into_object(),
            });
        }
        match Table::new(alloc, &[0, 0, 1], slots, &opening) {
            Ok((table, seat)) => Ok((Door { table }, Pass { seat })),
            Err(refused) => Err(AllocFailed {
                value: only_object(refused),
            }),
        }
    }

    /// Waits for the pass's turn and has the object serve the ask, which fits the turns that the pass has had. The turn is
    /// then the last of the pass's list, also where the object found no memory.
    pub fn enter<R: Wait>(
        &self,
        rt: &R,
        pass: &mut Pass<O>,
        ask: &O::Ask,
    ) -> Result<O::Served, AllocError>
        requires pass { IsPassOf self.now pass.old }
        requires fits { O.fits (turns_of pass.old) ask.now }
        ensures pass { IsPassOf self.now pass.new }
        ensures numbers { numbers_of pass.new ≡ numbers_of pass.old }
        ensures turn { HasServed O.serves O.fits (opening_of self.now) (numbers_of pass.old) (turns_of pass.old) ask.now result (turns_of pass.new) }
    {
        let shared = &self.table.shared;
        let ticket = steps::draw(rt, shared, &mut pass.seat);
        steps::await_turn(rt, shared, &mut pass.seat, ticket);
        let answer = steps::serve_turn(shared, &mut pass.seat, ask);
        steps::serve_next(shared, &mut pass.seat);
        answer
    }

    /// Another pass, which begins with the turns of this one and has a number that no other pass had. No number passes the
    /// greatest u64: there it waits for ever.
    pub fn split<R: Wait>(&self, rt: &R, pass: &mut Pass<O>) -> Result<Pass<O>, AllocError>
        requires { IsPassOf self.now pass.old }
        ensures pass { IsPassOf self.now pass.new }
        ensures same { (turns_of pass.new ≡ turns_of pass.old) × (numbers_of pass.new ≡ numbers_of pass.old) }
        ensures new { IfOk result (λ p. IsPassOf self.now p × (turns_of p ≡ turns_of pass.old) × ((n : ℕ) × (numbers_of p ≡ n ∷ []))) }
    {
        let shared = &self.table.shared;
        let mut seat = shared.split_seat::<Inherit>(&mut pass.seat);
        steps::number(rt, shared, &mut seat);
        Ok(Pass { seat })
    }

    /// Ends the pass `from`. `into` has its turns then, and stands for it.
    pub fn join(&self, into: &mut Pass<O>, from: Pass<O>)
        requires into { IsPassOf self.now into.old }
        requires from { IsPassOf self.now from }
        ensures pass { IsPassOf self.now into.new }
        ensures turns { HasBoth (turns_of into.old) (turns_of from) (turns_of into.new) }
        ensures numbers { (numbers_of into.new ≡ numbers_of into.old ++ numbers_of from) × AreApart (numbers_of into.old) (numbers_of from) }
    {
        let shared = &self.table.shared;
        let Pass { seat } = from;
        shared.join_seat::<TakeOver>(&mut into.seat, seat);
        steps::merge(shared, &mut into.seat);
    }

    /// Waits for the pass's turn and takes the object out for good. It is the object after all turns.
    pub fn close<R: Wait>(self, rt: &R, pass: Pass<O>) -> O
        requires { IsPassOf self pass }
        ensures { Account O.serves O.fits (opening_of self) (numbers_of pass) (turns_of pass) result }
    {
        let Door { table } = self;
        let Pass { mut seat } = pass;
        let ticket = steps::draw(rt, &table.shared, &mut seat);
        steps::await_turn(rt, &table.shared, &mut seat, ticket);
        let mut closed = table.close_with(seat);
        let kept = closed.take(0);
        closed.free();
        kept.into_object()
    }
}

// The object of a table that found no memory.
fn only_object<O: Object>(refused: Refused<Kept<O, O::Ask, Answer<O>>, Global>) -> O
    requires { (k : _) × (refused.slots.items ≡ k ∷ []) }
    ensures { (k : _) → refused.slots.items ≡ k ∷ [] → result ≡ k.object }
{
    let Refused { mut slots } = refused;
    let Some(kept) = slots.pop() else {
        unreachable!()
    };
    slots.destroy_empty();
    kept.into_object()
}
