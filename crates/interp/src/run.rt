// The loop of steps.
ghost use Rattle.std.specs.Prelude.{◌≡◌, ◌<◌, ◌≤◌, length, IfOk, OnOk, Some, unwrap_or};
ghost use Rattle.guest_state.specs.Fits.{Fits};
ghost use Rattle.guest_state.specs.Module.{body_of};
ghost use Rattle.guest_state.specs.Snapshot.{thread_of};
ghost use Rattle.wasm_steps.specs.Step.{after, step};
ghost use Rattle.interp.specs.Stops.{stop_of};

use crate::step::step;
use crate::stop::{Reached, Stop, Stopped};
use crate::stop_at::stop_at;
use guest_state::Thread;
use int_ops::Cause;
use linear_memory::Memory;
use std::alloc::AllocError;
use wasm_ast::{Body, Module, Position};
use wasm_validate::Valid;

/// The instructions of the module's own function of that number, of which there is one.
#[inline(always)]
fn body(module: &Module, function: u32) -> &Body
    requires { function < length «module».now.codes }
    ensures { result.now ≡ body_of «module».now function }
{
    &module.codes.as_slice()[function as usize].body
}

/// Runs a thread of the module, at most `max` steps, until it stands at something else than a step or has finished.
///
/// It stops as `Spent` exactly where `max` steps ran and another is next. `Trap` comes exactly where the next step traps; that
/// step isn't counted. Memory is taken only by `memory.grow`. `AllocError` is want of memory and nothing else; the run ends
/// there, and nothing is said of the thread.
pub fn advance(
    valid: &Valid,
    memory: &mut Memory,
    thread: &mut Thread,
    max: u64,
) -> Result<Stopped, AllocError>
    requires { Fits valid.now (thread_of valid.now thread.old) }
    ensures steps { IfOk result (λ s. after s.ran valid.now memory.old (thread_of valid.now thread.old) ≡ Some (memory.new, thread_of valid.now thread.new)) }
    ensures most { IfOk result (λ s. s.ran ≤ max) }
    ensures stops { IfOk result (λ s. s.stop ≡ unwrap_or (stop_of (step valid.now memory.new (thread_of valid.now thread.new))) Stop.Spent) }
    ensures spent { IfOk result (λ s. s.stop ≡ Stop.Spent → s.ran ≡ max) }
    ensures fits { OnOk result (Fits valid.now (thread_of valid.now thread.new)) }
    ensures main { OnOk result (thread.new.main ≡ thread.old.main) }
{
    let _pages = memory.size();
    if thread.is_full() {
        let stop = Stop::Trap(Cause::StackFull);
        return Ok(Stopped { ran: 0, stop });
    }
    if thread.is_finished() {
        let stop = Stop::Finished;
        return Ok(Stopped { ran: 0, stop });
    }
    let module = valid.module();
    // The thread is moved out, so that what each step changes of it is kept in registers.
    let mut own = thread.take()?;
    let mut ran: u64 = 0;
    let mut code = body(module, own.function());
    let mut place = own.place();
    let mut list = code.list(place.list);
    while ran < max {
        match step(valid, memory, &mut own, list, place)? {
            Reached::Behind => place = place.next(),
            Reached::At(to) => {
                place = to;
                list = code.list(place.list);
            }
            Reached::Called => {
                code = body(module, own.function());
                place = Position::start(0);
                list = code.list(0);
            }
            Reached::Returned => {
                ran += 1;
                if own.is_finished() {
                    let stop = Stop::Finished;
                    *thread = own;
                    return Ok(Stopped { ran, stop });
                }
                place = own.place();
                code = body(module, own.function());
                list = code.list(place.list);
                continue;
            }
            Reached::Stands(stop) => {
                *thread = own;
                thread.rest_at(place);
                return Ok(Stopped { ran, stop });
            }
        }
        ran += 1;
    }
    *thread = own;
    let stop = match stop_at(valid, memory, thread, list, place) {
        Some(stop) => stop,
        None => Stop::Spent,
    };
    thread.rest_at(place);
    Ok(Stopped { ran, stop })
}
