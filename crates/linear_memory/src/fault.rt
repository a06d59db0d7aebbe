// Why a range of memory isn't copied.
use std::alloc::AllocError;

/// Why a range of a memory isn't copied out of it.
#[derive(Clone, Copy, Debug, PartialEq, Eq)]
pub enum RangeFault {
    /// The range passes the end of the memory.
    Outside,
    /// Want of memory of the host.
    Memory,
}

impl From<AllocError> for RangeFault {
    ghost use Rattle.std.specs.Prelude.{◌≡◌};
    ghost use Rattle.linear_memory.specs.declared.fault.RangeFault.TheVariants.{Memory};

    ghost from_gives = { λ _ fault. fault ≡ Memory };

    fn from(_want: AllocError) -> RangeFault {
        RangeFault::Memory
    }
}
