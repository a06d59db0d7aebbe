// The thread that a process begins with (WebAssembly Core 1.0, 4.5.4).
ghost use Rattle.std.specs.Prelude.{◌≡◌, true, IfOk, Some};
ghost use Rattle.guest_state.specs.Fits.{Fits};
ghost use Rattle.guest_state.specs.Snapshot.{thread_of};
ghost use Rattle.instance.specs.Kept.{CanStart};
ghost use Rattle.instance.specs.Program.{main_function, main_thread};

use guest_state::Thread;
use std::alloc::{AllocError, Global};
use wasm_ast::Module;

/// The thread that begins the function of that index, with the frame of the start function above it, where there is one.
/// `AllocError` is want of memory and nothing else.
pub fn main_thread(alloc: Global, module: &Module, main: u32) -> Result<Thread, AllocError>
    requires starts { CanStart «module».now }
    requires begins { main_function «module».now ≡ Some main }
    ensures value { IfOk result (λ thread. thread_of «module».now thread ≡ main_thread «module».now) }
    ensures fits { IfOk result (λ thread. Fits «module».now (thread_of «module».now thread)) }
{
    let mut thread = Thread::start(alloc, module, main, &[], true)?;
    if let Some(function) = module.start {
        if thread.push_frame(module, function, &[]).is_err() {
            unreachable!();
        }
    }
    Ok(thread)
}
