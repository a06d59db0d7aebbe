// What an opcode begins: WebAssembly Core 1.0, sections 5.4 and A.7, and the threads proposal.
ghost use Rattle.std.specs.Prelude.{◌≡◌, ◌↔◌, ◌<◌, ◌∷◌, List, ℕ};
ghost use Rattle.std.specs.Option.{option_to_list};
ghost use Rattle.wasm_ast.specs.declared.instr.Instr.{Instr};
ghost use Rattle.wasm_ast.specs.Opcodes.{numeric_opcode, variable_opcode, store_opcode, access_opcode};
ghost use Rattle.wasm_ast.specs.SpelledInstr.{SpellsPlain};
ghost use Rattle.wasm_ast.specs.OpcodeTables.{opcode_at, control, SpellsBehind};

use super::instr::{
    Access, BinaryOp, CompareOp, ConvertOp, Form, LoadOp, NumericOp, RmwOp, UnaryOp, VariableOp,
};
use super::types::IntType;

impl NumericOp {
    /// The opcode (5.4.5).
    pub fn opcode(self) -> u8
        ensures { result ≡ numeric_opcode self }
    {
        match self {
            NumericOp::Eqz(IntType::I32) => 0x45,
            NumericOp::Eqz(IntType::I64) => 0x50,
            NumericOp::Compare(IntType::I32, op) => 0x46 + op as u8,
            NumericOp::Compare(IntType::I64, op) => 0x51 + op as u8,
            NumericOp::Unary(IntType::I32, op) => 0x67 + op as u8,
            NumericOp::Unary(IntType::I64, op) => 0x79 + op as u8,
            NumericOp::Binary(IntType::I32, op) => 0x6A + op as u8,
            NumericOp::Binary(IntType::I64, op) => 0x7C + op as u8,
            NumericOp::Convert(ConvertOp::Wrap) => 0xA7,
            NumericOp::Convert(ConvertOp::ExtendS) => 0xAC,
            NumericOp::Convert(ConvertOp::ExtendU) => 0xAD,
        }
    }
}

impl VariableOp {
    /// The opcode (5.4.3).
    pub fn opcode(self) -> u8
        ensures { result ≡ variable_opcode self }
    {
        self as u8
    }
}

impl Form {
    /// The opcode of a store that isn't atomic (5.4.4).
    fn store_opcode(self) -> u8
        ensures { result ≡ store_opcode self }
    {
        match self {
            Form::I32 => 0x36,
            Form::I64 => 0x37,
            Form::I32Low8 => 0x3A,
            Form::I32Low16 => 0x3B,
            Form::I64Low8 => 0x3C,
            Form::I64Low16 => 0x3D,
            Form::I64Low32 => 0x3E,
        }
    }
}

impl Access {
    /// The opcode (5.4.4, and the threads proposal): a byte, and the one behind it where it is FE.
    pub fn opcode(self) -> (u8, Option<u8>)
        ensures { result.0 ∷ option_to_list result.1 ≡ access_opcode self }
    {
        match self {
            Access::Load(op) => (op as u8, None),
            Access::Store(of) => (of.store_opcode(), None),
            Access::Notify => (0xFE, Some(0x00)),
            Access::Wait(IntType::I32) => (0xFE, Some(0x01)),
            Access::Wait(IntType::I64) => (0xFE, Some(0x02)),
            Access::AtomicLoad(of) => (0xFE, Some(0x10 + of as u8)),
            Access::AtomicStore(of) => (0xFE, Some(0x17 + of as u8)),
            Access::AtomicRmw(op, of) => (0xFE, Some(op as u8 + of as u8)),
            Access::AtomicCompareExchange(of) => (0xFE, Some(0x48 + of as u8)),
        }
    }
}

/// What the first byte of an instruction begins. The immediates behind it are named in 5.4.
#[derive(Clone, Copy)]
pub enum Opcode {
    /// No instruction.
    Illegal,
    Unreachable,
    Nop,
    /// A block type, instructions, `end`.
    Block,
    /// A block type, instructions, `end`.
    Loop,
    /// A block type, instructions, perhaps `else` and instructions, `end`.
    If,
    /// The middle of an if.
    Else,
    /// The end of a block, a loop, an if or an expression.
    End,
    /// A label.
    Br,
    /// A label.
    BrIf,
    /// A vector of labels, and a label.
    BrTable,
    Return,
    /// The index of a function.
    Call,
    /// The index of a type, and a byte 0.
    CallIndirect,
    Drop,
    Select,
    /// The index of a local or a global.
    Variable(VariableOp),
    /// A memory argument.
    Access(Access),
    /// A byte 0.
    MemorySize,
    /// A byte 0.
    MemoryGrow,
    /// A signed number of 32 bits.
    I32Const,
    /// A signed number of 64 bits.
    I64Const,
    /// Nothing.
    Numeric(NumericOp),
    /// Four bytes.
    F32Const,
    /// Eight bytes.
    F64Const,
    /// A memory argument, of a load or a store of a floating-point number.
    FloatAccess,
    /// Nothing, at a numeric instruction with floating-point numbers.
    Float,
    /// A further byte, which says what is begun: `ATOMIC_OPCODES`.
    Atomic,
}

/// What the byte behind the opcode FE begins.
#[derive(Clone, Copy)]
pub enum AtomicOpcode {
    /// No instruction.
    Illegal,
    /// A byte 0.
    Fence,
    /// A memory argument.
    Access(Access),
}

/// The entries in brackets, and then those of each item: one value at some places, the comparisons or
/// the other operators of a type, an atomic access in its forms, or a list of values.
macro_rules! table {
    ([$($entry:expr),*]) => { [$($entry),*] };
    (@ $place:tt $value:expr) => { $value };
    ([$($entry:expr),*] at [$($place:tt)*] $value:expr; $($item:tt)*) => {
        table!([$($entry,)* $(table!(@ $place $value)),*] $($item)*)
    };
    ([$($entry:expr),*] comparisons $of:ident; $($item:tt)*) => {
        table!([
            $($entry,)*
            Opcode::Numeric(NumericOp::Compare(IntType::$of, CompareOp::Eq)),
            Opcode::Numeric(NumericOp::Compare(IntType::$of, CompareOp::Ne)),
            Opcode::Numeric(NumericOp::Compare(IntType::$of, CompareOp::LtS)),
            Opcode::Numeric(NumericOp::Compare(IntType::$of, CompareOp::LtU)),
            Opcode::Numeric(NumericOp::Compare(IntType::$of, CompareOp::GtS)),
            Opcode::Numeric(NumericOp::Compare(IntType::$of, CompareOp::GtU)),
            Opcode::Numeric(NumericOp::Compare(IntType::$of, CompareOp::LeS)),
            Opcode::Numeric(NumericOp::Compare(IntType::$of, CompareOp::LeU)),
            Opcode::Numeric(NumericOp::Compare(IntType::$of, CompareOp::GeS)),
            Opcode::Numeric(NumericOp::Compare(IntType::$of, CompareOp::GeU))
        ] $($item)*)
    };
    ([$($entry:expr),*] operators $of:ident; $($item:tt)*) => {
        table!([
            $($entry,)*
            Opcode::Numeric(NumericOp::Unary(IntType::$of, UnaryOp::Clz)),
            Opcode::Numeric(NumericOp::Unary(IntType::$of, UnaryOp::Ctz)),
            Opcode::Numeric(NumericOp::Unary(IntType::$of, UnaryOp::Popcnt)),
            Opcode::Numeric(NumericOp::Binary(IntType::$of, BinaryOp::Add)),
            Opcode::Numeric(NumericOp::Binary(IntType::$of, BinaryOp::Sub)),
            Opcode::Numeric(NumericOp::Binary(IntType::$of, BinaryOp::Mul)),
            Opcode::Numeric(NumericOp::Binary(IntType::$of, BinaryOp::DivS)),
            Opcode::Numeric(NumericOp::Binary(IntType::$of, BinaryOp::DivU)),
            Opcode::Numeric(NumericOp::Binary(IntType::$of, BinaryOp::RemS)),
            Opcode::Numeric(NumericOp::Binary(IntType::$of, BinaryOp::RemU)),
            Opcode::Numeric(NumericOp::Binary(IntType::$of, BinaryOp::And)),
            Opcode::Numeric(NumericOp::Binary(IntType::$of, BinaryOp::Or)),
            Opcode::Numeric(NumericOp::Binary(IntType::$of, BinaryOp::Xor)),
            Opcode::Numeric(NumericOp::Binary(IntType::$of, BinaryOp::Shl)),
            Opcode::Numeric(NumericOp::Binary(IntType::$of, BinaryOp::ShrS)),
            Opcode::Numeric(NumericOp::Binary(IntType::$of, BinaryOp::ShrU)),
            Opcode::Numeric(NumericOp::Binary(IntType::$of, BinaryOp::Rotl)),
            Opcode::Numeric(NumericOp::Binary(IntType::$of, BinaryOp::Rotr))
        ] $($item)*)
    };
    ([$($entry:expr),*] forms $access:ident $(of $op:ident)?; $($item:tt)*) => {
        table!([
            $($entry,)*
            AtomicOpcode::Access(Access::$access($(RmwOp::$op,)? Form::I32)),
            AtomicOpcode::Access(Access::$access($(RmwOp::$op,)? Form::I64)),
            AtomicOpcode::Access(Access::$access($(RmwOp::$op,)? Form::I32Low8)),
            AtomicOpcode::Access(Access::$access($(RmwOp::$op,)? Form::I32Low16)),
            AtomicOpcode::Access(Access::$access($(RmwOp::$op,)? Form::I64Low8)),
            AtomicOpcode::Access(Access::$access($(RmwOp::$op,)? Form::I64Low16)),
            AtomicOpcode::Access(Access::$access($(RmwOp::$op,)? Form::I64Low32))
        ] $($item)*)
    };
    ([$($entry:expr),*] $($value:expr),+; $($item:tt)*) => {
        table!([$($entry,)* $($value),+] $($item)*)
    };
}

/// What each byte begins as the first of an instruction, by its value.
pub static OPCODES: [Opcode; 256] = table! {
    []
    // 00
    Opcode::Unreachable,
    Opcode::Nop,
    Opcode::Block,
    Opcode::Loop,
    Opcode::If,
    Opcode::Else;
    at [6 7 8 9 A] Opcode::Illegal;
    Opcode::End,
    Opcode::Br,
    Opcode::BrIf,
    Opcode::BrTable,
    Opcode::Return,
    // 10
    Opcode::Call,
    Opcode::CallIndirect;
    at [2 3 4 5 6 7 8 9] Opcode::Illegal;
    Opcode::Drop,
    Opcode::Select;
    at [C D E F] Opcode::Illegal;
    // 20
    Opcode::Variable(VariableOp::LocalGet),
    Opcode::Variable(VariableOp::LocalSet),
    Opcode::Variable(VariableOp::LocalTee),
    Opcode::Variable(VariableOp::GlobalGet),
    Opcode::Variable(VariableOp::GlobalSet);
    at [5 6 7] Opcode::Illegal;
    Opcode::Access(Access::Load(LoadOp::I32)),
    Opcode::Access(Access::Load(LoadOp::I64));
    at [A B] Opcode::FloatAccess;
    Opcode::Access(Access::Load(LoadOp::I32From8S)),
    Opcode::Access(Access::Load(LoadOp::I32From8U)),
    Opcode::Access(Access::Load(LoadOp::I32From16S)),
    Opcode::Access(Access::Load(LoadOp::I32From16U)),
    // 30
    Opcode::Access(Access::Load(LoadOp::I64From8S)),
    Opcode::Access(Access::Load(LoadOp::I64From8U)),
    Opcode::Access(Access::Load(LoadOp::I64From16S)),
    Opcode::Access(Access::Load(LoadOp::I64From16U)),
    Opcode::Access(Access::Load(LoadOp::I64From32S)),
    Opcode::Access(Access::Load(LoadOp::I64From32U)),
    Opcode::Access(Access::Store(Form::I32)),
    Opcode::Access(Access::Store(Form::I64));
    at [8 9] Opcode::FloatAccess;
    Opcode::Access(Access::Store(Form::I32Low8)),
    Opcode::Access(Access::Store(Form::I32Low16)),
    Opcode::Access(Access::Store(Form::I64Low8)),
    Opcode::Access(Access::Store(Form::I64Low16)),
    Opcode::Access(Access::Store(Form::I64Low32)),
    Opcode::MemorySize,
    // 40
    Opcode::MemoryGrow,
    Opcode::I32Const,
    Opcode::I64Const,
    Opcode::F32Const,
    Opcode::F64Const,
    Opcode::Numeric(NumericOp::Eqz(IntType::I32));
    comparisons I32;
    // 50
    Opcode::Numeric(NumericOp::Eqz(IntType::I64));
    comparisons I64;
    at [B C D E F] Opcode::Float;
    // 60
    at [0 1 2 3 4 5 6] Opcode::Float;
    operators I32;
    operators I64;
    // 8B
    at [B C D E F] Opcode::Float;
    // 90
    at [0 1 2 3 4 5 6 7 8 9 A B C D E F] Opcode::Float;
    // A0
    at [0 1 2 3 4 5 6] Opcode::Float;
    Opcode::Numeric(NumericOp::Convert(ConvertOp::Wrap));
    at [8 9 A B] Opcode::Float;
    Opcode::Numeric(NumericOp::Convert(ConvertOp::ExtendS)),
    Opcode::Numeric(NumericOp::Convert(ConvertOp::ExtendU));
    at [E F] Opcode::Float;
    // B0
    at [0 1 2 3 4 5 6 7 8 9 A B C D E F] Opcode::Float;
    // C0
    at [0 1 2 3 4 5 6 7 8 9 A B C D E F] Opcode::Illegal;
    // D0
    at [0 1 2 3 4 5 6 7 8 9 A B C D E F] Opcode::Illegal;
    // E0
    at [0 1 2 3 4 5 6 7 8 9 A B C D E F] Opcode::Illegal;
    // F0
    at [0 1 2 3 4 5 6 7 8 9 A B C D] Opcode::Illegal;
    Opcode::Atomic,
    Opcode::Illegal;
};

/// What each byte begins behind the opcode FE, by its value.
pub static ATOMIC_OPCODES: [AtomicOpcode; 79] = table! {
    []
    // 00
    AtomicOpcode::Access(Access::Notify),
    AtomicOpcode::Access(Access::Wait(IntType::I32)),
    AtomicOpcode::Access(Access::Wait(IntType::I64)),
    AtomicOpcode::Fence;
    at [4 5 6 7 8 9 A B C D E F] AtomicOpcode::Illegal;
    // 10
    forms AtomicLoad;
    forms AtomicStore;
    forms AtomicRmw of Add;
    forms AtomicRmw of Sub;
    forms AtomicRmw of And;
    forms AtomicRmw of Or;
    forms AtomicRmw of Xor;
    forms AtomicRmw of Exchange;
    forms AtomicCompareExchange;
};

/// At each byte the tables hold what the encoding of instructions says.
pub fn opcodes_are_encodings()
    ensures plain { (b : ℕ) (bytes : List ℕ) (i : Instr) → SpellsPlain (b ∷ bytes) i ↔ SpellsBehind (opcode_at b) bytes i }
    ensures control { (b : ℕ) (of : Opcode) (c : ℕ) → control of ≡ Some c → opcode_at b ≡ of ↔ b ≡ c }
{}
