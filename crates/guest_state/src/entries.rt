// What the code keeps of an open label and of a frame.
use wasm_ast::Position;

/// A block, loop or if that is open.
#[derive(Clone, Copy)]
pub struct OpenLabel {
    /// Where a branch to it goes on: before a loop, behind a block or an if.
    pub branch: Position,
    /// The place behind it.
    pub end: Position,
    /// How many values of the thread stand below its operands.
    pub height: usize,
    /// Whether a branch to it takes a value along.
    pub carries: bool,
}

/// A function that was called and hasn't returned.
#[derive(Clone, Copy)]
pub struct OpenFrame {
    /// The number of its code among the module's own functions.
    pub function: u32,
    /// Whether it gives a value back.
    pub returns: bool,
    /// How many values of the thread stand below its locals.
    pub locals_start: usize,
    /// How many values of the thread stand below its operands.
    pub locals_end: usize,
    /// How many labels were open when it was called.
    pub labels_start: usize,
    /// The next instruction, where another frame is above it or the thread is at rest.
    pub place: Position,
}
