// Why a command's file gives no bytes to be written, and the read of a file, which is the first reason.
ghost use Rattle.std.specs.Prelude.{◌≡◌, ◌≤◌, ◌<◌, ℕ, IfErr, OnOk};
ghost use Rattle.wasix_run.specs.Loading.{Counts, ReadAs, fault_reason};

use crate::reason::Reason;
use std::alloc::Global;
use wat_asm::AsmKind;
use wx_types::{Bytes, Shelf, ShelfError};

/// Why a list or a text gives no bytes to be written.
#[derive(Drop)]
pub enum FileFault {
    /// The shelf failed.
    Shelf,
    /// A named file is longer than its limit.
    TooLong,
    /// This line of the list is the first that is wrong.
    List { line: u32 },
    /// The text is no module's.
    Text { line: u32, kind: AsmKind },
    /// Want of memory.
    Memory,
}

/// The reason that tells it.
pub fn fault_reason(fault: FileFault) -> Reason
    ensures { result ≡ fault_reason fault }
{
    match fault {
        FileFault::Shelf => Reason::ShelfFault,
        FileFault::TooLong => Reason::TooLong,
        FileFault::List { line } => Reason::BadList { line },
        FileFault::Text { line, kind } => Reason::BadText { line, kind },
        FileFault::Memory => Reason::Memory,
    }
}

/// The bytes of the file of this name, which has so many at most.
pub fn read<H: Shelf>(
    alloc: Global,
    shelf: &mut H,
    name: &str,
    limit: u64,
) -> Result<Bytes, FileFault>
    ensures read { ReadAs (H.held shelf.old) name.now limit result }
    ensures kept { H.held shelf.new ≡ H.held shelf.old }
    ensures never_falls { H.faults shelf.old ≤ H.faults shelf.new }
    ensures no_fault { OnOk result (H.faults shelf.new ≡ H.faults shelf.old) }
    ensures fault { IfErr result (λ fault. Counts fault (H.faults shelf.old) (H.faults shelf.new)) }
{
    match shelf.read(alloc, name, limit) {
        Ok(bytes) => Ok(bytes),
        Err(ShelfError::Failed) => Err(FileFault::Shelf),
        Err(ShelfError::TooLong) => Err(FileFault::TooLong),
        Err(ShelfError::Memory) => Err(FileFault::Memory),
    }
}
