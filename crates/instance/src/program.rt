// Programs: modules whose imports are linked.
ghost use Rattle.std.specs.Prelude.{◌≡◌, ◌<◌, length, option_map, slice_get, IfOk, IfSome, IsSome, false, true};
ghost use Rattle.wasm_ast.specs.Table.{function_type};
ghost use Rattle.wasm_ast.specs.TypingModule.{functions_of};
ghost use Rattle.guest_state.specs.Fits.{Fits};
ghost use Rattle.guest_state.specs.Snapshot.{thread_of};
ghost use Rattle.instance.specs.Calls.{call_numbered, type_of_call};
ghost use Rattle.instance.specs.Links.{any_waits, is_built};
ghost use Rattle.instance.specs.Program.{call_of, exported_function, first_memory, main_thread, params_of};

use crate::exports::{ExportKind, exported_function};
use crate::memory::{empty_memory, write_segments};
use crate::thread::main_thread;
use guest_state::Thread;
use linear_memory::Memory;
use std::alloc::{AllocError, Global};
use std::collections::BTreeMap;
use std::marker::Model;
use wasm_ast::{ExportKind as Exported, Limits};
use wasm_validate::Valid;

/// A module whose imports are calls that the host answers, and the memory of `env`. Contracts see it as the module and
/// the numbers of the calls that its imported functions are, in their order.
#[derive(Drop)]
pub struct Program {
    pub(crate) valid: Valid,
    pub(crate) calls: Vec<u16>,
    pub(crate) exports: BTreeMap<Vec<u8>, Exported>,
    pub(crate) main: u32,
    pub(crate) memory: Option<Limits>,
}

impl Model for Program {
    ghost use Rattle.instance.specs.Program.{Program as LinkedProgram, program_code};

    ghost Value = { LinkedProgram };

    ghost coded = { program_code };

    ghost use Rattle.instance.specs.Kept.{HasExports, IsProgram};

    ghost view = { λ p. record { «module» = p.valid; calls = p.calls.items } };

    ghost invariant = { λ p. IsProgram p.valid p.calls.items p.main p.memory × HasExports p.valid.exports p.exports };
}

/// The number at a place, if there is one.
fn number_at(numbers: &[u16], place: u32) -> Option<u16>
    ensures { result ≡ slice_get numbers.now place }
{
    numbers.get(place as usize).copied()
}

impl Program {
    /// Its module. No function of it waits or notifies.
    pub fn valid(&self) -> &Valid
        ensures value { result.now ≡ self.now.module }
        ensures waits { any_waits self.now.module ≡ false }
    {
        &self.valid
    }

    /// The number of the call that the imported function of that index is. Each imported function has one, and it is one
    /// that the host answers, with the function's type.
    pub fn call_of(&self, import: u32) -> Option<u16>
        ensures value { result ≡ call_of self.now import }
        ensures known { import < length (functions_of self.now.module.imports) → IsSome result }
        ensures built { IfSome result (λ call. is_built call ≡ true) }
        ensures its_type { IfSome result (λ call. function_type self.now.module import ≡ option_map type_of_call (call_numbered call)) }
    {
        number_at(self.calls.as_slice(), import)
    }

    /// The index of the function of the module's own that is exported under a name and has the type of such functions.
    /// An imported function is never found.
    pub fn export_of_type(&self, name: &[u8], kind: ExportKind) -> Option<u32>
        ensures { result ≡ exported_function self.now.module name.now (params_of kind) }
    {
        exported_function(&self.valid, &self.exports, name, kind.params())
    }

    /// The memory that a process begins with: its first pages with the data segments written in their order; without a
    /// memory, one of no page. `AllocError` is want of memory and nothing else.
    pub fn memory(&self, alloc: Global) -> Result<Memory, AllocError>
        ensures { IfOk result (λ memory. memory ≡ first_memory self.now.module) }
    {
        let mut memory = empty_memory(alloc, self.memory)?;
        write_segments(self.valid.module(), &mut memory);
        Ok(memory)
    }

    /// The thread that a process begins with: the frame of `_start`, and above it that of the start function, where
    /// there is one. It fits the module. `AllocError` is want of memory and nothing else.
    pub fn main_thread(&self, alloc: Global) -> Result<Thread, AllocError>
        ensures value { IfOk result (λ thread. thread_of self.now.module thread ≡ main_thread self.now.module) }
        ensures fits { IfOk result (λ thread. Fits self.now.module (thread_of self.now.module thread)) }
    {
        main_thread(alloc, self.valid.module(), self.main)
    }
}
