// The instructions of a function, one step behind another: WebAssembly Core 1.0, section 6.5.

use super::parsed::{Reference, TypeUse, Variable};
use super::simple::Simple;
use wasm_ast::{Construct, ValType, VariableOp};
use wx_types::Bytes;

/// An instruction that has no inner instructions, with its immediates (6.5).
#[derive(Drop)]
pub enum Plain<'a> {
    /// One that names nothing.
    Alone(Simple),
    Br(Reference<'a>),
    BrIf(Reference<'a>),
    /// Its labels, and the default behind them.
    BrTable(Vec<Reference<'a>>, Reference<'a>),
    Call(Reference<'a>),
    CallIndirect(TypeUse<'a>),
    OnVariable(VariableOp, Reference<'a>),
}

/// What stands in the body of a function once its folded instructions are unfolded: operands come in front of their operator.
#[derive(Drop)]
pub enum Step<'a> {
    Plain(Plain<'a>),
    /// The start of a block, a loop or an if.
    Open {
        of: Construct,
        label: Option<&'a [u8]>,
        /// The type of its result, if it has one.
        leaves: Option<ValType>,
    },
    /// The middle of an if. Every if has one.
    Else {
        /// The label of the if, where it stands again.
        label: Option<&'a [u8]>,
    },
    /// The end of a block, a loop or an if.
    End {
        /// The label of what ends, where it stands again.
        label: Option<&'a [u8]>,
    },
}

/// A field for a function of the module's own (6.6.5).
#[derive(Drop)]
pub struct FunctionField<'a> {
    pub name: Option<&'a [u8]>,
    pub exports: Vec<Bytes>,
    pub of: TypeUse<'a>,
    pub locals: Vec<Variable<'a>>,
    pub body: Vec<Step<'a>>,
}
