//! Why a module could not be read.

ghost use Rattle.std.specs.Prelude.{◌≡◌};
ghost use Rattle.wasm_decode.specs.declared.fault.DecodeFault.TheVariants as decoding;

use std::alloc::AllocError;
use thiserror::Error;

/// A limit of this project that a module passes. They are tested in this order.
#[derive(Clone, Copy, Debug, PartialEq, Eq)]
pub enum Bound {
    /// More than 4,194,304 bytes.
    Length,
    /// More than 10,000 types.
    Types,
    /// More than 20,000 functions, imported ones among them.
    Functions,
    /// A function of its own with more than 8,192 locals, its parameters among them. Where it names no
    /// type of the module, it has no parameters.
    Locals,
    /// Blocks, loops and ifs more than 256 deep, in a function or in a constant expression.
    Nesting,
    /// A table, its own or imported, of more than 65,536 elements at first.
    Table,
    /// A memory, its own or imported, of more than 256 pages of 65,536 bytes at first.
    Pages,
}

/// Why the bytes gave no module.
#[derive(Debug, Drop, Error)]
pub enum DecodeFault {
    /// The bytes spell no module of the binary format.
    #[error("not a module")]
    Malformed,
    /// They spell a module that has a floating-point type or instruction.
    #[error("floating-point numbers")]
    Float,
    /// They spell a module without one, and this is the first limit that it passes; or there are more
    /// bytes than a module may have.
    #[error("a limit is passed")]
    Limit(Bound),
    /// There is not enough memory.
    #[error("out of memory")]
    Memory,
}

impl From<AllocError> for DecodeFault {
    ghost from_gives = { λ _ e. e ≡ decoding.Memory };

    fn from(_e: AllocError) -> DecodeFault {
        DecodeFault::Memory
    }
}
