//! Why an instruction traps.

/// The cause of a trap: execution of the thread ends there (WebAssembly Core 1.0, 4.4, and the threads proposal).
#[derive(Clone, Copy, Debug, PartialEq, Eq)]
pub enum Cause {
    /// `unreachable` was executed.
    Unreachable,
    /// `call_indirect` named a place at or past the end of the table.
    UndefinedElement,
    /// `call_indirect` named an empty place of the table.
    UninitializedElement,
    /// `call_indirect` found a function of another type.
    TypeMismatch,
    /// A division or a remainder by 0.
    DivideByZero,
    /// A signed division of the least number by -1.
    Overflow,
    /// An access that passes the end of memory.
    OutOfBounds,
    /// An atomic access at an address that is no multiple of its width.
    Misaligned,
    /// A wait on a memory that is not shared.
    NotShared,
    /// A call past the bounds of the thread's stack.
    StackFull,
}
