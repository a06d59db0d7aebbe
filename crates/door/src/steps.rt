//! The steps of a turn.
ghost use Rattle.std.specs.Prelude.{◌≡◌, ◌≢◌, ℕ, [], ◌∷◌, ◌++◌, List, Some, IfSome};
ghost use Rattle.door.specs.declared.view.Stage.TheVariants.{Idle, Waits, Called, Out, Back, Joins};
ghost use Rattle.door.specs.declared.kept.Kept.{Kept};
ghost use Rattle.door.specs.declared.kept.Exchange.{Exchange};
ghost use Rattle.door.specs.Views.{at_rest, staged, waiting};
ghost use Rattle.door.specs.History.{HasServed, HasBoth, AreApart};
ghost use Rattle.door.specs.Steps.{Sits, Carries, IsBack};

use crate::kept::Kept;
use crate::object::{Answer, Object};
use crate::plays::{Draw, Law, Look, Merge, Number, PutBack, Serve, Take};
use crate::view::View;
use atomic_table::{Seat, Shared};
use crossbeam_utils::Backoff;
use std::snapshot::Snapshot;
use std::sync::Wait;

/// What the slot holds.
pub type Slot<O> = Kept<O, <O as Object>::Ask, Answer<O>>;

/// What a seat knows.
pub type Sight<O> = View<O, <O as Object>::Ask, Answer<O>>;

// The words: the next ticket, the number of turns served, and the next number of a pass.
pub(crate) const TICKET: usize = 0;

pub(crate) const SERVING: usize = 1;

pub(crate) const PASSES: usize = 2;

// At this count nothing more is drawn.
const LAST: u64 = u64::MAX;

// Draws a ticket. At the greatest u64 none is drawn, and it waits for ever.
pub(crate) fn draw<O: Object, R: Wait>(
    rt: &R,
    shared: &Shared<Slot<O>, Sight<O>, Snapshot<O>, Law<O>>,
    seat: &mut Seat<Slot<O>, Sight<O>>,
) -> u64
    requires sits { Sits shared.now.table_id seat.old.table_id }
    requires idle { (seat.old.me.0.stage ≡ Idle) × (seat.old.me.0.numbers ≢ []) }
    ensures same { (seat.new.table_id ≡ seat.old.table_id) × (seat.new.id ≡ seat.old.id) }
    ensures drawn { seat.new.me ≡ (waiting seat.old.me.0 result, seat.old.me.1) }
{
    let backoff = Backoff::new();
    for _ in rt.forever() {
        let next = shared.peek(TICKET);
        if next < LAST {
            let found = shared.compare_exchange::<Draw>(seat, TICKET, next, next + 1);
            if found == next {
                return next;
            }
        }
        backoff.snooze();
    }
    unreachable!()
}

// Waits until the seat's ticket is served.
pub(crate) fn await_turn<O: Object, R: Wait>(
    rt: &R,
    shared: &Shared<Slot<O>, Sight<O>, Snapshot<O>, Law<O>>,
    seat: &mut Seat<Slot<O>, Sight<O>>,
    ticket: u64,
)
    requires sits { Sits shared.now.table_id seat.old.table_id }
    requires waits { (seat.old.me.0.stage ≡ Waits) × (seat.old.me.0.ticket ≡ ticket) }
    ensures same { (seat.new.table_id ≡ seat.old.table_id) × (seat.new.id ≡ seat.old.id) }
    ensures called { seat.new.me ≡ (staged seat.old.me.0 Called, seat.old.me.1) }
{
    let backoff = Backoff::new();
    for _ in rt.forever() {
        if shared.load::<Look>(seat, SERVING) == ticket {
            return;
        }
        backoff.snooze();
    }
    unreachable!()
}

// Takes the object out of the slot.
pub(crate) fn take<O: Object>(
    shared: &Shared<Slot<O>, Sight<O>, Snapshot<O>, Law<O>>,
    seat: &mut Seat<Slot<O>, Sight<O>>,
)
    requires sits { Sits shared.now.table_id seat.old.table_id }
    requires called { seat.old.me.0.stage ≡ Called }
    ensures same { (seat.new.table_id ≡ seat.old.table_id) × (seat.new.id ≡ seat.old.id) }
    ensures took { (k : Kept _ _ _) × (seat.new.me ≡ (staged seat.old.me.0 (Out k.object), (0, k) ∷ seat.old.me.1)) }
{
    shared.load::<Take>(seat, SERVING);
}

// Puts the object back, once it has served.
pub(crate) fn put_back<O: Object>(
    shared: &Shared<Slot<O>, Sight<O>, Snapshot<O>, Law<O>>,
    seat: &mut Seat<Slot<O>, Sight<O>>,
)
    requires sits { Sits shared.now.table_id seat.old.table_id }
    requires served { (x : O) × (k : Kept _ _ _) × (e : Exchange _ _) × (seat.old.me.0.stage ≡ Out x) × Carries seat.old.me.1 k e × O.serves x e.ask.value e.answer.value k.object }
    ensures same { (seat.new.table_id ≡ seat.old.table_id) × (seat.new.id ≡ seat.old.id) }
    ensures back { (k : Kept _ _ _) (e : Exchange _ _) → Carries seat.old.me.1 k e → seat.new.me ≡ (staged seat.old.me.0 (Back k.object e.ask.value e.answer.value), []) }
{
    shared.load::<PutBack>(seat, SERVING);
}

// Has the object serve one ask while the seat holds it.
pub(crate) fn serve_out<O: Object>(
    shared: &Shared<Slot<O>, Sight<O>, Snapshot<O>, Law<O>>,
    seat: &mut Seat<Slot<O>, Sight<O>>,
    ask: &O::Ask,
) -> Answer<O>
    requires sits { Sits shared.now.table_id seat.old.table_id }
    requires held { (k : Kept _ _ _) × (seat.old.me.1 ≡ (0, k) ∷ []) }
    requires asked { O.may_serve ask.now }
    ensures same { (seat.new.table_id ≡ seat.old.table_id) × (seat.new.id ≡ seat.old.id) × (seat.new.me.0 ≡ seat.old.me.0) }
    ensures served { (k : Kept _ _ _) → seat.old.me.1 ≡ (0, k) ∷ [] → (l : Kept _ _ _) × (e : Exchange _ _) × Carries seat.new.me.1 l e × O.serves k.object ask.now result l.object × (e.ask.value ≡ ask.now) × (e.answer.value ≡ result) }
{
    let kept = seat.slot_mut(shared, 0);
    kept.serve(ask)
}

// Takes the object out, has it serve one ask, and puts it back.
pub(crate) fn serve_turn<O: Object>(
    shared: &Shared<Slot<O>, Sight<O>, Snapshot<O>, Law<O>>,
    seat: &mut Seat<Slot<O>, Sight<O>>,
    ask: &O::Ask,
) -> Answer<O>
    requires sits { Sits shared.now.table_id seat.old.table_id }
    requires called { (seat.old.me.0.stage ≡ Called) × (seat.old.me.1 ≡ []) }
    requires asked { O.may_serve ask.now }
    ensures same { (seat.new.table_id ≡ seat.old.table_id) × (seat.new.id ≡ seat.old.id) }
    ensures served { (x : O) × (seat.new.me ≡ (staged seat.old.me.0 (Back x ask.now result), [])) }
{
    take(shared, seat);
    let answer = serve_out(shared, seat, ask);
    put_back(shared, seat);
    answer
}

// Counts the turn: the next ticket is served.
pub(crate) fn serve_next<O: Object>(
    shared: &Shared<Slot<O>, Sight<O>, Snapshot<O>, Law<O>>,
    seat: &mut Seat<Slot<O>, Sight<O>>,
)
    requires sits { Sits shared.now.table_id seat.old.table_id }
    requires back { (x : O) × (q : O.Ask) × (a : _) × (n : ℕ) × (ns : List ℕ) × (seat.old.me.0.stage ≡ Back x q a) × (seat.old.me.0.numbers ≡ n ∷ ns) × O.fits seat.old.me.0.turns q }
    ensures same { (seat.new.table_id ≡ seat.old.table_id) × (seat.new.id ≡ seat.old.id) × (seat.new.me.1 ≡ seat.old.me.1) }
    ensures rests { seat.new.me.0 ≡ at_rest seat.old.me.0.opening seat.old.me.0.numbers seat.new.me.0.turns }
    ensures served { (q : O.Ask) × (a : _) × IsBack seat.old.me.0.stage q a × ((x : O) → seat.old.me.0.opening ≡ Some x → HasServed O.serves O.fits x seat.old.me.0.numbers seat.old.me.0.turns q a seat.new.me.0.turns) }
{
    shared.fetch_add::<Serve>(seat, SERVING, 1);
}

// Draws the number of a new pass. At the greatest u64 none is drawn, and it waits for ever.
pub(crate) fn number<O: Object, R: Wait>(
    rt: &R,
    shared: &Shared<Slot<O>, Sight<O>, Snapshot<O>, Law<O>>,
    seat: &mut Seat<Slot<O>, Sight<O>>,
) -> u64
    requires sits { Sits shared.now.table_id seat.old.table_id }
    requires idle { (seat.old.me.0.stage ≡ Idle) × (seat.old.me.0.numbers ≡ []) }
    ensures same { (seat.new.table_id ≡ seat.old.table_id) × (seat.new.id ≡ seat.old.id) }
    ensures numbered { seat.new.me ≡ (at_rest seat.old.me.0.opening (result ∷ []) seat.old.me.0.turns, seat.old.me.1) }
{
    let backoff = Backoff::new();
    for _ in rt.forever() {
        let next = shared.peek(PASSES);
        if next < LAST {
            let found = shared.compare_exchange::<Number>(seat, PASSES, next, next + 1);
            if found == next {
                return next;
            }
        }
        backoff.snooze();
    }
    unreachable!()
}

// Puts the numbers and turns that the seat took over with its own.
pub(crate) fn merge<O: Object>(
    shared: &Shared<Slot<O>, Sight<O>, Snapshot<O>, Law<O>>,
    seat: &mut Seat<Slot<O>, Sight<O>>,
)
    requires sits { Sits shared.now.table_id seat.old.table_id }
    requires joins { (ns : List ℕ) × (ts : _) × (seat.old.me.0.stage ≡ Joins ns ts) }
    ensures same { (seat.new.table_id ≡ seat.old.table_id) × (seat.new.id ≡ seat.old.id) }
    ensures merged { (ns : List ℕ) (ts : _) → seat.old.me.0.stage ≡ Joins ns ts → (seat.new.me.1 ≡ seat.old.me.1) × (seat.new.me.0 ≡ at_rest seat.old.me.0.opening (seat.old.me.0.numbers ++ ns) seat.new.me.0.turns) × HasBoth seat.old.me.0.turns ts seat.new.me.0.turns × AreApart seat.old.me.0.numbers ns }
{
    shared.load::<Merge>(seat, TICKET);
}
