// Why bytes were not read.
ghost use Rattle.std.specs.Prelude.{◌≡◌};
ghost use Rattle.wasm_reading.specs.declared.fault.ReadFault.TheVariants.{Malformed, Memory};

use byte_cursor::CursorFault;
use std::alloc::{AllocError, AllocFailed};

/// Why bytes were not read.
#[derive(Clone, Copy, Debug)]
pub enum ReadFault {
    /// The bytes spell nothing of what was to be read.
    Malformed,
    /// Want of memory.
    Memory,
}

impl From<CursorFault> for ReadFault {
    ghost from_gives = { λ _ e. e ≡ Malformed };

    fn from(_e: CursorFault) -> ReadFault {
        ReadFault::Malformed
    }
}

impl From<AllocError> for ReadFault {
    ghost from_gives = { λ _ e. e ≡ Memory };

    fn from(_e: AllocError) -> ReadFault {
        ReadFault::Memory
    }
}

impl<T: Drop> From<AllocFailed<T>> for ReadFault {
    ghost from_gives = { λ _ e. e ≡ Memory };

    fn from(_e: AllocFailed<T>) -> ReadFault {
        ReadFault::Memory
    }
}
