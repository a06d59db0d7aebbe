// Why something has no meaning.
ghost use Rattle.std.specs.Prelude.{◌≡◌};
ghost use Rattle.wat_spaces.specs.declared.unmeant.Unmeant.TheVariants.{Memory};
ghost use Rattle.wat_spaces.specs.Means.{Means};

use std::alloc::{AllocError, AllocFailed};

/// Why something has no meaning.
#[derive(Clone, Copy)]
pub enum Unmeant {
    /// It names what is bound nowhere, binds a name twice, or a use of a type means none.
    Name,
    /// Want of memory.
    Memory,
}

impl From<AllocError> for Unmeant {
    ghost from_gives = { λ _ unmeant. unmeant ≡ Memory };

    fn from(_e: AllocError) -> Unmeant {
        Unmeant::Memory
    }
}

impl<T: Drop> From<AllocFailed<T>> for Unmeant {
    ghost from_gives = { λ _ unmeant. unmeant ≡ Memory };

    fn from(_e: AllocFailed<T>) -> Unmeant {
        Unmeant::Memory
    }
}

/// An index that is bound.
pub fn bound(index: Option<u32>) -> Result<u32, Unmeant>
    ensures { Means (λ n. n) result index }
{
    match index {
        Some(index) => Ok(index),
        None => Err(Unmeant::Name),
    }
}
