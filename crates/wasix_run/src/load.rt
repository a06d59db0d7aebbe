// A program, from the bytes of its file.
ghost use Rattle.std.specs.Prelude.{◌≡◌, ◌≤◌, ◌<◌, ℕ, IfErr, OnOk};
ghost use Rattle.wasix_run.specs.Loading.{Loading, ProgramCounts, program_reason};

use crate::reason::Reason;
use instance::{LoadFault, Program};
use std::alloc::Global;
use wx_types::{Shelf, ShelfError};

/// A program file has at most so many bytes.
pub const PROGRAM_LIMIT: u64 = 4_194_304;

/// Why a program file isn't loaded.
#[derive(Drop)]
pub enum ProgramFault {
    /// The shelf failed.
    Shelf,
    /// The file is longer than a program may be.
    TooLong,
    /// Its bytes are no program. The fault is never `Memory`.
    Load(LoadFault),
    /// Want of memory.
    Memory,
}

/// The reason that tells it.
pub fn program_reason(fault: ProgramFault) -> Reason
    ensures { result ≡ program_reason fault }
{
    match fault {
        ProgramFault::Shelf => Reason::ShelfFault,
        ProgramFault::TooLong => Reason::TooLong,
        ProgramFault::Load(fault) => Reason::BadProgram(fault),
        ProgramFault::Memory => Reason::Memory,
    }
}

/// The program in the file of this name.
pub fn load<H: Shelf>(alloc: Global, shelf: &mut H, name: &str) -> Result<Program, ProgramFault>
    ensures cause { Loading (H.held shelf.old) name.now result }
    ensures kept { H.held shelf.new ≡ H.held shelf.old }
    ensures never_falls { H.faults shelf.old ≤ H.faults shelf.new }
    ensures no_fault { OnOk result (H.faults shelf.new ≡ H.faults shelf.old) }
    ensures fault { IfErr result (λ fault. ProgramCounts fault (H.faults shelf.old) (H.faults shelf.new)) }
{
    let bytes = match shelf.read(alloc, name, PROGRAM_LIMIT) {
        Ok(bytes) => bytes,
        Err(ShelfError::Failed) => return Err(ProgramFault::Shelf),
        Err(ShelfError::TooLong) => return Err(ProgramFault::TooLong),
        Err(ShelfError::Memory) => return Err(ProgramFault::Memory),
    };
    match instance::load(alloc, bytes.as_slice()) {
        Ok(program) => Ok(program),
        Err(LoadFault::Memory) => Err(ProgramFault::Memory),
        Err(fault) => Err(ProgramFault::Load(fault)),
    }
}
