//! Threads that count.
ghost use Rattle.door.specs.Doors.{IsPassOf};
ghost use Rattle.std.specs.Prelude.{IfOk};

use crate::counter::Counter;
use door::{Door, Pass};
use std::alloc::{AllocError, Global};
use std::sync::Wait;
use std::thread::{Threads, join};

/// Counts 1 so many times.
pub fn count<R: Wait>(
    rt: &R,
    door: &Door<Counter>,
    mut pass: Pass<Counter>,
    times: u64,
) -> Result<Pass<Counter>, AllocError>
    requires { IsPassOf door.now pass }
    ensures { IfOk result (λ p. IsPassOf door.now p) }
{
    for _ in 0..times {
        door.enter(rt, &mut pass, &1)?;
    }
    Ok(pass)
}

// Counts in two threads, and joins their passes.
fn count_both<R: Threads + Wait + Sync>(
    rt: &R,
    door: &Door<Counter>,
    first: Pass<Counter>,
    second: Pass<Counter>,
    times: u64,
) -> Result<Pass<Counter>, AllocError>
    requires { IsPassOf door.now first × IsPassOf door.now second }
    ensures { IfOk result (λ p. IsPassOf door.now p) }
{
    let (mine, theirs) = join(
        rt,
        || -> Result<Pass<Counter>, AllocError>
            requires { IsPassOf door.now first }
            ensures { IfOk result (λ p. IsPassOf door.entry.now p) }
        { count(rt, door, first, times) },
        || -> Result<Pass<Counter>, AllocError>
            requires { IsPassOf door.now second }
            ensures { IfOk result (λ p. IsPassOf door.entry.now p) }
        { count(rt, door, second, times) },
    );
    let mut all = mine?;
    door.join(&mut all, theirs?);
    Ok(all)
}

/// What two threads have counted that each count 1 so many times.
pub fn count_by_two<R: Threads + Wait + Sync>(
    rt: &R,
    alloc: Global,
    times: u64,
) -> Result<u64, AllocError> {
    let (door, mut pass) = Door::new(alloc, Counter { count: 0 })?;
    let second = door.split(rt, &mut pass)?;
    let all = count_both(rt, &door, pass, second, times)?;
    Ok(door.close(rt, all).count)
}

/// The answers to 3, and then on a second pass to 4, and the count at the end.
pub fn three_and_four<R: Wait>(rt: &R, alloc: Global) -> Result<(u64, u64, u64), AllocError> {
    let (door, mut pass) = Door::new(alloc, Counter { count: 0 })?;
    let first = door.enter(rt, &mut pass, &3)?;
    let mut second = door.split(rt, &mut pass)?;
    let both = door.enter(rt, &mut second, &4)?;
    door.join(&mut pass, second);
    Ok((first, both, door.close(rt, pass).count))
}

/// Whether the counter found no memory where it was asked to add nothing, and its answer to 5 after that.
pub fn five_after_a_failure<R: Wait>(rt: &R, alloc: Global) -> Result<(bool, u64), AllocError> {
    let (door, mut pass) = Door::new(alloc, Counter { count: 0 })?;
    let failed = door.enter(rt, &mut pass, &0).is_err();
    let five = door.enter(rt, &mut pass, &5)?;
    drop(door.close(rt, pass));
    Ok((failed, five))
}
