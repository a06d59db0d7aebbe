//! Programs: modules whose imports are calls of the host, with what they begin with.
#![tactic(auto)]

ghost use Rattle.instance.specs.Loads.{LoadAsOne, LoadOrFail};

mod calls;
mod exports;
mod fault;
mod links;
mod loading;
mod memory;
mod program;
mod segments;
mod thread;
mod waits;

pub use exports::ExportKind;
pub use fault::LoadFault;
pub use loading::load;
pub use program::Program;

/// Bytes load as at most one program, and then have no fault but want of memory.
pub fn bytes_load_as_one_program()
    ensures one { LoadAsOne }
    ensures no_fault { LoadOrFail }
{}
