// What a thread stops as.
use int_ops::Cause;
use wasm_ast::Position;

/// What a thread stands at when the interpreter stops.
#[derive(Clone, Copy, Debug, PartialEq, Eq)]
pub enum Stop {
    /// All the steps that it was given ran, and another is next.
    Spent,
    /// A call of the imported function of that index is next (WebAssembly Core 1.0, 4.4.7).
    Call { import: u32 },
    /// A wait is next for a number of so many bytes at that address, its offset added (threads proposal).
    Wait { width: u8, at: u32 },
    /// A notify is next at that address, its offset added (threads proposal).
    Notify { at: u32 },
    /// The next step traps.
    Trap(Cause),
    /// Its last frame has returned.
    Finished,
}

/// How far a thread came.
#[derive(Clone, Copy, Debug, PartialEq, Eq)]
pub struct Stopped {
    /// The steps that it ran. One that traps isn't among them.
    pub ran: u64,
    /// What it stands at after them.
    pub stop: Stop,
}

/// What one step reached.
#[derive(Clone, Copy)]
pub enum Reached {
    /// The place behind the instruction.
    Behind,
    /// Another place of the same function.
    At(Position),
    /// The start of a function that was called. The caller rests behind the call.
    Called,
    /// The place of the function that was returned to, if any.
    Returned,
    /// No step was next, and nothing has changed.
    Stands(Stop),
}
