// What the operators of instructions take, give and move: WebAssembly Core 1.0, sections 2.4 and 3.3,
// and the threads proposal.
ghost use Rattle.std.specs.Prelude.{◌≡◌, [], ◌∷◌};
ghost use Rattle.wasm_ast.specs.Operators.{value_type, numeric_operands, numeric_result, form_type, form_exponent, load_type, load_exponent, load_is_signed, access_exponent, access_is_atomic, access_operands, access_results};

use super::instr::{Access, ConvertOp, Form, LoadOp, NumericOp};
use super::types::{IntType, ValType};

impl IntType {
    /// The value type of whole numbers.
    pub fn value_type(self) -> ValType
        ensures { result ≡ value_type self }
    {
        match self {
            IntType::I32 => ValType::I32,
            IntType::I64 => ValType::I64,
        }
    }
}

impl NumericOp {
    /// What the instruction takes, the first below the others (3.3.1).
    pub fn operands(self) -> &'static [ValType]
        ensures { result.now ≡ numeric_operands self }
    {
        match self {
            NumericOp::Eqz(of) | NumericOp::Unary(of, _) => of.once(),
            NumericOp::Compare(of, _) | NumericOp::Binary(of, _) => of.twice(),
            NumericOp::Convert(ConvertOp::Wrap) => &[ValType::I64],
            NumericOp::Convert(ConvertOp::ExtendS | ConvertOp::ExtendU) => &[ValType::I32],
        }
    }

    /// What the instruction gives (3.3.1).
    pub fn result(self) -> ValType
        ensures { result ≡ numeric_result self }
    {
        match self {
            NumericOp::Eqz(_) | NumericOp::Compare(_, _) => ValType::I32,
            NumericOp::Unary(of, _) | NumericOp::Binary(of, _) => of.value_type(),
            NumericOp::Convert(ConvertOp::Wrap) => ValType::I32,
            NumericOp::Convert(ConvertOp::ExtendS | ConvertOp::ExtendU) => ValType::I64,
        }
    }
}

impl Form {
    /// The type of the number on the stack.
    pub fn of(self) -> IntType
        ensures { result ≡ form_type self }
    {
        match self {
            Form::I32 | Form::I32Low8 | Form::I32Low16 => IntType::I32,
            Form::I64 | Form::I64Low8 | Form::I64Low16 | Form::I64Low32 => IntType::I64,
        }
    }

    /// The exponent of the number of bytes in memory, a power of 2: 0 to 3.
    pub fn exponent(self) -> u32
        ensures { result ≡ form_exponent self }
    {
        match self {
            Form::I32Low8 | Form::I64Low8 => 0,
            Form::I32Low16 | Form::I64Low16 => 1,
            Form::I32 | Form::I64Low32 => 2,
            Form::I64 => 3,
        }
    }
}

impl LoadOp {
    /// The type of the number that the load gives.
    pub fn of(self) -> IntType
        ensures { result ≡ load_type self }
    {
        match self {
            LoadOp::I32
            | LoadOp::I32From8S
            | LoadOp::I32From8U
            | LoadOp::I32From16S
            | LoadOp::I32From16U => IntType::I32,
            _ => IntType::I64,
        }
    }

    /// The exponent of the number of bytes that the load reads, a power of 2: 0 to 3.
    pub fn exponent(self) -> u32
        ensures { result ≡ load_exponent self }
    {
        match self {
            LoadOp::I32From8S | LoadOp::I32From8U | LoadOp::I64From8S | LoadOp::I64From8U => 0,
            LoadOp::I32From16S | LoadOp::I32From16U | LoadOp::I64From16S | LoadOp::I64From16U => 1,
            LoadOp::I32 | LoadOp::I64From32S | LoadOp::I64From32U => 2,
            LoadOp::I64 => 3,
        }
    }

    /// Whether what the load reads is extended by its sign, and not by zeros.
    pub fn is_signed(self) -> bool
        ensures { result ≡ load_is_signed self }
    {
        matches!(
            self,
            LoadOp::I32From8S
                | LoadOp::I32From16S
                | LoadOp::I64From8S
                | LoadOp::I64From16S
                | LoadOp::I64From32S
        )
    }
}

impl Access {
    /// The exponent of the number of bytes that is read or written, a power of 2, from 0 to 3. It is
    /// the exponent of the natural alignment too.
    pub fn exponent(self) -> u32
        ensures { result ≡ access_exponent self }
    {
        match self {
            Access::Load(op) => op.exponent(),
            Access::Notify | Access::Wait(IntType::I32) => 2,
            Access::Wait(IntType::I64) => 3,
            Access::Store(of)
            | Access::AtomicLoad(of)
            | Access::AtomicStore(of)
            | Access::AtomicRmw(_, of)
            | Access::AtomicCompareExchange(of) => of.exponent(),
        }
    }

    /// Whether the access is atomic, so that it wants its alignment exact.
    pub fn is_atomic(self) -> bool
        ensures { result ≡ access_is_atomic self }
    {
        !matches!(self, Access::Load(_) | Access::Store(_))
    }

    /// What the access takes, the address below the others (3.3.4).
    pub fn operands(self) -> &'static [ValType]
        ensures { result.now ≡ access_operands self }
    {
        match self {
            Access::Load(_) | Access::AtomicLoad(_) => &[ValType::I32],
            Access::Notify => &[ValType::I32, ValType::I32],
            Access::Wait(IntType::I32) => &[ValType::I32, ValType::I32, ValType::I64],
            Access::Wait(IntType::I64) => &[ValType::I32, ValType::I64, ValType::I64],
            Access::Store(of) | Access::AtomicStore(of) | Access::AtomicRmw(_, of) => {
                match of.of() {
                    IntType::I32 => &[ValType::I32, ValType::I32],
                    IntType::I64 => &[ValType::I32, ValType::I64],
                }
            }
            Access::AtomicCompareExchange(of) => match of.of() {
                IntType::I32 => &[ValType::I32, ValType::I32, ValType::I32],
                IntType::I64 => &[ValType::I32, ValType::I64, ValType::I64],
            },
        }
    }

    /// What the access gives (3.3.4): nothing or one number.
    pub fn results(self) -> &'static [ValType]
        ensures { result.now ≡ access_results self }
    {
        match self {
            Access::Load(op) => op.of().once(),
            Access::Store(_) | Access::AtomicStore(_) => &[],
            Access::Notify | Access::Wait(_) => &[ValType::I32],
            Access::AtomicLoad(of) | Access::AtomicRmw(_, of) | Access::AtomicCompareExchange(of) =>
                of.of().once(),
        }
    }
}

impl IntType {
    /// The list of the one type.
    fn once(self) -> &'static [ValType]
        ensures { result.now ≡ value_type self ∷ [] }
    {
        match self {
            IntType::I32 => &[ValType::I32],
            IntType::I64 => &[ValType::I64],
        }
    }

    /// The list of the type twice.
    fn twice(self) -> &'static [ValType]
        ensures { result.now ≡ value_type self ∷ value_type self ∷ [] }
    {
        match self {
            IntType::I32 => &[ValType::I32, ValType::I32],
            IntType::I64 => &[ValType::I64, ValType::I64],
        }
    }
}
