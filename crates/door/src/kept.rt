//! What the slot of a door's table holds.
ghost use Rattle.std.specs.Prelude.{◌≡◌, Some};
ghost use Rattle.door.specs.declared.kept.Exchange.{Exchange};

use crate::object::{Answer, Object};
use std::snapshot::Snapshot;

/// What was asked and answered last. It has no bytes.
#[derive(Drop)]
pub struct Exchange<Q, A> {
    pub ask: Snapshot<Q>,
    pub answer: Snapshot<A>,
}

/// The object, and what it served last.
#[derive(Drop)]
pub struct Kept<O, Q, A> {
    pub object: O,
    pub last: Option<Exchange<Q, A>>,
}

impl<O: Object> Kept<O, O::Ask, Answer<O>> {
    // Serves one ask, and notes what was asked and answered.
    pub(crate) fn serve(&mut self, ask: &O::Ask) -> Answer<O>
        requires { O.may_serve ask.now }
        ensures served { O.serves self.old.object ask.now result self.new.object }
        ensures noted { (e : Exchange _ _) × (self.new.last ≡ Some e) × (e.ask.value ≡ ask.now) × (e.answer.value ≡ result) }
    {
        let answer = self.object.serve(ask);
        self.last = Some(Exchange {
            ask: Snapshot::of(ask),
            answer: Snapshot::of(&answer),
        });
        answer
    }

    pub(crate) fn new(object: O) -> Kept<O, O::Ask, Answer<O>>
        ensures { result.object ≡ object }
    {
        Kept { object, last: None }
    }

    pub(crate) fn into_object(self) -> O
        ensures { result ≡ self.object }
    {
        let Kept { object, last: _ } = self;
        object
    }
}
