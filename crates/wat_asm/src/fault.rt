// What is wrong with a text.
ghost use Rattle.std.specs.Prelude.{◌≡◌};
ghost use Rattle.wat_asm.specs.declared.fault.AsmFault.TheVariants.{Memory};

use std::alloc::AllocError;

/// The kind of a fault of a text. The kinds and their lines are this project's own.
#[derive(Clone, Copy)]
pub enum AsmKind {
    /// At some place no token, space or comment can be read.
    Token,
    /// The tokens aren't one balanced `(module ..)` of fields in parentheses, or a field has no form or stands where it may
    /// not.
    Syntax,
    /// A field binds an identifier anew, uses one that is bound nowhere, or its use of a type means none.
    Name,
}

/// Why a text has no module.
#[derive(Clone, Copy)]
pub enum AsmFault {
    /// The text is no module's. The line counts from 1.
    Text { line: u32, kind: AsmKind },
    /// Want of memory.
    Memory,
}

impl From<AllocError> for AsmFault {
    ghost from_gives = { λ _ fault. fault ≡ Memory };

    fn from(_e: AllocError) -> AsmFault {
        AsmFault::Memory
    }
}
