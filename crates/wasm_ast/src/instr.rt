// Instructions: WebAssembly Core 1.0, section 2.4, and the threads proposal.
ghost use Rattle.std.specs.Prelude.{◌≡◌, IfOk};
ghost use Rattle.wasm_ast.specs.Table.{instruction_constant};

use super::items::Copied;
use super::types::{IntType, ValType};
use std::alloc::{AllocError, Global};
use std::marker::Model;

/// The immediates of an instruction that accesses memory (2.4.4).
#[derive(Clone, Copy)]
pub struct MemArg {
    /// The exponent of the alignment, a power of 2.
    pub align: u32,
    /// What is added to the address.
    pub offset: u32,
}

/// An operator between two numbers of one type that gives 0 or 1 as an i32 (`irelop`, 2.4.1).
#[derive(Clone, Copy)]
pub enum CompareOp {
    Eq,
    Ne,
    LtS,
    LtU,
    GtS,
    GtU,
    LeS,
    LeU,
    GeS,
    GeU,
}

/// An operator on one number that gives one of the same type (`iunop`, 2.4.1).
#[derive(Clone, Copy)]
pub enum UnaryOp {
    Clz,
    Ctz,
    Popcnt,
}

/// An operator on two numbers that gives one of the same type (`ibinop`, 2.4.1).
#[derive(Clone, Copy)]
pub enum BinaryOp {
    Add,
    Sub,
    Mul,
    DivS,
    DivU,
    RemS,
    RemU,
    And,
    Or,
    Xor,
    Shl,
    ShrS,
    ShrU,
    Rotl,
    Rotr,
}

/// A conversion between the types of whole numbers (`cvtop`, 2.4.1).
#[derive(Clone, Copy)]
pub enum ConvertOp {
    /// `i32.wrap_i64`
    Wrap,
    /// `i64.extend_i32_s`
    ExtendS,
    /// `i64.extend_i32_u`
    ExtendU,
}

/// A numeric instruction on whole numbers other than a constant (2.4.1).
#[derive(Clone, Copy)]
pub enum NumericOp {
    /// `eqz`, the one test.
    Eqz(IntType),
    Compare(IntType, CompareOp),
    Unary(IntType, UnaryOp),
    Binary(IntType, BinaryOp),
    Convert(ConvertOp),
}

/// A variable instruction (2.4.3), by its opcode. Its immediate is the index of a local or of a global.
#[derive(Clone, Copy)]
pub enum VariableOp {
    LocalGet = 0x20,
    LocalSet = 0x21,
    LocalTee = 0x22,
    GlobalGet = 0x23,
    GlobalSet = 0x24,
}

/// What a store or an atomic access moves: the type of the number on the stack, and how much of it
/// is in memory.
#[derive(Clone, Copy)]
pub enum Form {
    /// An i32, whole: 4 bytes.
    I32,
    /// An i64, whole: 8 bytes.
    I64,
    /// The low byte of an i32.
    I32Low8,
    /// The low two bytes of an i32.
    I32Low16,
    /// The low byte of an i64.
    I64Low8,
    /// The low two bytes of an i64.
    I64Low16,
    /// The low four bytes of an i64.
    I64Low32,
}

/// A load that isn't atomic, by type, bits in memory and sign (2.4.4), and by its opcode.
#[derive(Clone, Copy)]
pub enum LoadOp {
    I32 = 0x28,
    I64 = 0x29,
    I32From8S = 0x2C,
    I32From8U = 0x2D,
    I32From16S = 0x2E,
    I32From16U = 0x2F,
    I64From8S = 0x30,
    I64From8U = 0x31,
    I64From16S = 0x32,
    I64From16U = 0x33,
    I64From32S = 0x34,
    I64From32U = 0x35,
}

/// A block or a loop. They differ in what a branch to their label goes to and takes (2.4.5).
#[derive(Clone, Copy)]
pub enum BlockKind {
    Block,
    Loop,
}

/// What begins with instructions inside it (2.4.5).
#[derive(Clone, Copy)]
pub enum Construct {
    Block(BlockKind),
    If,
}

/// The operator of an atomic read, modify and write, by the byte behind FE of that of a whole i32.
#[derive(Clone, Copy)]
pub enum RmwOp {
    Add = 0x1E,
    Sub = 0x25,
    And = 0x2C,
    Or = 0x33,
    Xor = 0x3A,
    Exchange = 0x41,
}

/// An instruction on whole numbers that accesses memory at an address with an offset: the plain
/// ones of Core 1.0, and those of the threads proposal.
#[derive(Clone, Copy)]
pub enum Access {
    Load(LoadOp),
    Store(Form),
    /// `memory.atomic.notify`
    Notify,
    /// `memory.atomic.wait32` and `memory.atomic.wait64`, by the type of the expected number.
    Wait(IntType),
    AtomicLoad(Form),
    AtomicStore(Form),
    AtomicRmw(RmwOp, Form),
    /// Compare and exchange.
    AtomicCompareExchange(Form),
}

/// The labels of a `br_table`: those that its operand chooses among, and the default. Contracts
/// see the list and the default as a pair.
#[derive(Drop)]
pub struct Targets {
    inner: Box<TargetList>,
}

#[derive(Drop)]
struct TargetList {
    labels: Vec<u32>,
    default: u32,
}

impl Model for Targets {
    ghost use Rattle.std.specs.Prelude.{List, ℕ};

    ghost Value = { List ℕ × ℕ };

    ghost view = { λ t. (t.inner.value.labels.items, t.inner.value.default) };
}

impl Targets {
    /// The labels from a list and the default. `AllocError` is want of memory and nothing else.
    pub fn new(alloc: Global, labels: Vec<u32>, default: u32) -> Result<Targets, AllocError>
        ensures { IfOk result (λ t. t ≡ (labels.items, default)) }
    {
        let inner = Box::new(alloc, TargetList { labels, default })?;
        Ok(Targets { inner })
    }

    /// The labels that the operand chooses among, from 0 on.
    pub fn labels(&self) -> &[u32]
        ensures { result.now ≡ self.now.0 }
    {
        let inner: &TargetList = &self.inner;
        inner.labels.as_slice()
    }

    /// The label for every operand from the list's length on.
    pub fn default(&self) -> u32
        ensures { result ≡ self.now.1 }
    {
        let inner: &TargetList = &self.inner;
        inner.default
    }

    /// Equal labels. `AllocError` is want of memory and nothing else.
    pub fn copy(&self, alloc: Global) -> Result<Targets, AllocError>
        ensures { IfOk result (λ t. t ≡ self.now) }
    {
        let labels = Vec::from_slice(alloc, self.labels())?;
        Targets::new(alloc, labels, self.default())
    }
}

/// One instruction (2.4). Instructions of one kind share a variant that holds the operator. A block,
/// a loop and an if name their inner lists by their numbers in the body.
#[derive(Drop)]
pub enum Instr {
    // Control instructions (2.4.5).
    Unreachable,
    Nop,
    Block {
        /// The type of the value that it leaves, if any.
        of: Option<ValType>,
        /// The number of its list.
        body: u32,
    },
    Loop {
        /// The type of the value that it leaves, if any.
        of: Option<ValType>,
        /// The number of its list.
        body: u32,
    },
    If {
        /// The type of the value that each arm leaves, if any.
        of: Option<ValType>,
        /// The number of the list for an operand other than 0.
        then: u32,
        /// The number of the list for the operand 0.
        otherwise: u32,
    },
    /// The label is counted from the innermost block, from 0.
    Br(u32),
    /// The label is counted from the innermost block, from 0.
    BrIf(u32),
    BrTable(Targets),
    Return,
    /// The index of the function.
    Call(u32),
    /// The index of the function's type.
    CallIndirect(u32),

    // Parametric instructions (2.4.2).
    Drop,
    Select,

    /// A variable instruction, and the index of its local or global (2.4.3).
    Variable(VariableOp, u32),

    // Memory instructions (2.4.4), those of the threads proposal among them.
    Access(Access, MemArg),
    MemorySize,
    MemoryGrow,
    /// `atomic.fence`
    Fence,

    // Numeric instructions (2.4.1).
    I32Const(i32),
    I64Const(i64),
    Numeric(NumericOp),

    /// Any instruction on floating-point numbers. Which one isn't kept.
    Float,
}

impl Instr {
    /// The number of a constant as the bits of its type, and 0 of any other instruction.
    pub fn constant(&self) -> u64
        ensures { result ≡ instruction_constant self.now }
    {
        match self {
            Instr::I32Const(n) => n.cast_unsigned() as u64,
            Instr::I64Const(n) => n.cast_unsigned(),
            _ => 0,
        }
    }
}

impl Copied for Instr {
    fn copied(&self, alloc: Global) -> Result<Instr, AllocError> {
        Ok(match self {
            Instr::Unreachable => Instr::Unreachable,
            Instr::Nop => Instr::Nop,
            Instr::Block { of, body } => Instr::Block {
                of: *of,
                body: *body,
            },
            Instr::Loop { of, body } => Instr::Loop {
                of: *of,
                body: *body,
            },
            Instr::If {
                of,
                then,
                otherwise,
            } => Instr::If {
                of: *of,
                then: *then,
                otherwise: *otherwise,
            },
            Instr::Br(label) => Instr::Br(*label),
            Instr::BrIf(label) => Instr::BrIf(*label),
            Instr::BrTable(targets) => Instr::BrTable(targets.copy(alloc)?),
            Instr::Return => Instr::Return,
            Instr::Call(function) => Instr::Call(*function),
            Instr::CallIndirect(of) => Instr::CallIndirect(*of),
            Instr::Drop => Instr::Drop,
            Instr::Select => Instr::Select,
            Instr::Variable(op, index) => Instr::Variable(*op, *index),
            Instr::Access(op, arg) => Instr::Access(*op, *arg),
            Instr::MemorySize => Instr::MemorySize,
            Instr::MemoryGrow => Instr::MemoryGrow,
            Instr::Fence => Instr::Fence,
            Instr::I32Const(value) => Instr::I32Const(*value),
            Instr::I64Const(value) => Instr::I64Const(*value),
            Instr::Numeric(op) => Instr::Numeric(*op),
            Instr::Float => Instr::Float,
        })
    }
}
