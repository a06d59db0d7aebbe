//! A counter behind a door.
ghost use Rattle.std.specs.Prelude.{◌≡◌, ◌+◌, ◌%◌, ◌^◌, MatchResult};

use door::Object;
use std::alloc::AllocError;

#[derive(Drop)]
pub struct Counter {
    pub count: u64,
}

/// It adds what it is asked, modulo 2^64, and answers the count. Asked to add nothing it answers that it found no memory.
impl Object for Counter {
    type Ask = u64;

    type Served = u64;

    ghost serves = { λ before ask answer after. MatchResult answer (λ n. (n ≡ after.count) × (after.count ≡ (before.count + ask) % 2 ^ 64)) (λ _. (ask ≡ 0) × (after.count ≡ before.count)) };

    ghost may_serve = { λ ask. Unit {0} };

    ghost fits = { λ turns ask. Unit {0} };

    ghost fitting = { λ turns ask fits. fits };

    fn serve(&mut self, ask: &u64) -> Result<u64, AllocError> {
        if *ask == 0 {
            return Err(AllocError);
        }
        self.count = self.count.wrapping_add(*ask);
        Ok(self.count)
    }
}
