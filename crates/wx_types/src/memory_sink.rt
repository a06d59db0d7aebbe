// A sink in memory.
ghost use Rattle.std.specs.Prelude.{◌≡◌, ◌++◌, ◌↔◌, ◌≤◌, [], Some, IsErr, IfOk, OnErr, length, min, take};
ghost use Rattle.wx_types.specs.MemoryObjects.{SinkState, SinkFails, after_call, after_fault};

use super::errors::Failed;
use super::memory_plan::CallPlan;
use super::outside::Sink;
use std::alloc::{AllocError, Global};
use std::marker::Model;

/// A sink in memory, which keeps what it took. It is for tests: it has room for so many bytes, takes
/// so many in one call, and fails at the calls that are named to it.
#[derive(Debug, Drop)]
pub struct MemSink {
    taken: Vec<u8>,
    room: usize,
    most: usize,
    plan: CallPlan,
}

impl Model for MemSink {
    ghost use Rattle.std.specs.Prelude.{◌≤◌, vec_len};
    ghost use Rattle.std.specs.Vec.{vec_capacity};
    ghost use Rattle.wx_types.specs.MemoryObjects.{SinkState};

    ghost Value = { SinkState };

    ghost view = { λ a. record { taken = a.taken.items; room = a.room; most = a.most; plan = a.plan } };

    ghost invariant = { λ a. (vec_len a.taken ≤ a.room) × (a.room ≤ vec_capacity a.taken) };
}

impl MemSink {
    /// An empty sink with room for `room` bytes, which takes at most `most` bytes in one call, and
    /// fails at the calls whose numbers, from 1, are in `fails`. `AllocError` is want of memory and
    /// nothing else.
    pub fn new(
        alloc: Global,
        room: usize,
        most: usize,
        fails: Vec<u64>,
    ) -> Result<MemSink, AllocError>
        ensures { IfOk result (λ sink. sink ≡ record { taken = []; room = room; most = most; plan = record { fails = fails.items; calls = 0; faults = 0 } }) }
    {
        Ok(MemSink {
            taken: Vec::with_capacity(alloc, room)?,
            room,
            most,
            plan: CallPlan::new(fails),
        })
    }

    /// All that the sink took.
    pub fn taken(&self) -> &[u8]
        ensures { result.now ≡ self.now.taken }
    {
        self.taken.as_slice()
    }
}

impl Sink for MemSink {
    ghost use Rattle.std.specs.Prelude.{Some};

    ghost faults = { λ sink. sink.plan.faults };

    ghost taken = { λ sink. Some sink.taken };

    /// Takes the first `most` bytes of `piece`, or all where there are fewer. It fails exactly where the
    /// call is one that is to fail, where it would take nothing of a piece that isn't empty, and
    /// where what it would take passes the room.
    fn write(&mut self, piece: &[u8]) -> Result<usize, Failed>
        ensures fails { IsErr result ↔ SinkFails self.old piece.now }
        ensures ok { IfOk result (λ n. n ≡ min self.old.most (length piece.now)) }
        ensures took { IfOk result (λ n. self.new ≡ record self.old { taken = self.old.taken ++ take n piece.now; plan = after_call self.old.plan }) }
        ensures never_falls { self.old.plan.faults ≤ self.new.plan.faults }
        ensures err { OnErr result (self.new ≡ record self.old { plan = after_fault self.old.plan }) }
    {
        let n = piece.len().min(self.most);
        let nothing = n == 0 && !piece.is_empty();
        if self.plan.next_fails() || nothing || n > self.room - self.taken.len() {
            self.plan.count_fault();
            return Err(Failed);
        }
        if self.taken.extend_from_slice(&piece[..n]).is_err() {
            unreachable!();
        }
        self.plan.count_call();
        Ok(n)
    }
}
