//! WebAssembly modules as data: Core 1.0 with the instructions of the threads proposal. Here stand
//! the types, the tables of the instructions, and the definitions of what bytes spell a module.
#![tactic(auto)]

mod body;
mod builder;
mod instr;
mod items;
mod locals;
mod module;
mod opcode;
mod operators;
mod position;
mod types;
mod walk;

pub use body::Body;
pub use builder::BodyBuilder;
pub use instr::{
    Access, BinaryOp, BlockKind, CompareOp, Construct, ConvertOp, Form, Instr, LoadOp, MemArg,
    NumericOp, RmwOp, Targets, UnaryOp, VariableOp,
};
pub use items::{Copied, Items};
pub use locals::{LocalGroup, Locals};
pub use module::{
    Code, Element, Export, ExportKind, GlobalVar, Import, ImportKind, Module, Segment,
};
pub use opcode::{ATOMIC_OPCODES, AtomicOpcode, OPCODES, Opcode, opcodes_are_encodings};
pub use position::Position;
pub use types::{FuncType, IntType, Limits, ValType, same_types};
pub use walk::{Event, Walk};
