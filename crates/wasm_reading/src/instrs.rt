// Instructions without inner instructions: WebAssembly Core 1.0, section 5.4, and the threads proposal.
ghost use Rattle.std.specs.Prelude.{◌≡◌};
ghost use Rattle.wasm_ast.specs.OpcodeTables.{opcode_at, atomic_at};
ghost use Rattle.wasm_reading.specs.ReadAnswers.{Gives};
ghost use Rattle.wasm_reading.specs.ReadInstr.{memarg_at, zero_at, atomic_instr_at, immediates_at};
ghost use Rattle.wasm_reading.specs.ReadValues.{mapped, span_at};

use crate::fault::ReadFault;
use crate::values::{next, number, signed_32, signed_64, span, vector};
use byte_cursor::Cursor;
use std::alloc::Global;
use wasm_ast::{ATOMIC_OPCODES, AtomicOpcode, Instr, MemArg, OPCODES, Opcode, Targets};

/// What a byte begins.
pub(crate) fn opcode(byte: u8) -> Opcode
    ensures { result ≡ opcode_at byte }
{
    OPCODES[byte as usize]
}

/// What the byte behind FE begins.
fn atomic_opcode(byte: u8) -> AtomicOpcode
    ensures { result ≡ atomic_at byte }
{
    if (byte as usize) < ATOMIC_OPCODES.len() {
        ATOMIC_OPCODES[byte as usize]
    } else {
        AtomicOpcode::Illegal
    }
}

/// A memory argument (5.4.4).
fn memarg(cursor: &mut Cursor<'_>) -> Result<MemArg, ReadFault>
    ensures { Gives (λ x. x) result cursor.new (memarg_at cursor.old) }
{
    let align = number(cursor)?;
    let offset = number(cursor)?;
    Ok(MemArg { align, offset })
}

/// A byte 0, which stands for that instruction.
fn with_zero(cursor: &mut Cursor<'_>, instr: Instr) -> Result<Instr, ReadFault>
    ensures { Gives (λ x. x) result cursor.new (zero_at instr cursor.old) }
{
    match next(cursor)? {
        0x00 => Ok(instr),
        _ => Err(ReadFault::Malformed),
    }
}

/// The labels of a `br_table`.
fn br_table(alloc: Global, cursor: &mut Cursor<'_>) -> Result<Instr, ReadFault>
    ensures { Gives (λ x. x) result cursor.new (immediates_at Opcode.BrTable cursor.old) }
{
    let labels = vector(alloc, cursor)?;
    let default = number(cursor)?;
    let targets = Targets::new(alloc, labels.into_vec(), default)?;
    Ok(Instr::BrTable(targets))
}

/// The type of a `call_indirect`, and a byte 0.
fn call_indirect(cursor: &mut Cursor<'_>) -> Result<Instr, ReadFault>
    ensures { Gives (λ x. x) result cursor.new (immediates_at Opcode.CallIndirect cursor.old) }
{
    let of = number(cursor)?;
    with_zero(cursor, Instr::CallIndirect(of))
}

/// The bytes of a floating-point number.
fn float_const(cursor: &mut Cursor<'_>, n: u32) -> Result<Instr, ReadFault>
    ensures { Gives (λ x. x) result cursor.new (mapped (λ _. Instr.Float) (span_at n) cursor.old) }
{
    let _number = span(cursor, n)?;
    Ok(Instr::Float)
}

/// What stands behind FE.
fn atomic(cursor: &mut Cursor<'_>) -> Result<Instr, ReadFault>
    ensures { Gives (λ x. x) result cursor.new (atomic_instr_at cursor.old) }
{
    match atomic_opcode(next(cursor)?) {
        AtomicOpcode::Illegal => Err(ReadFault::Malformed),
        AtomicOpcode::Fence => with_zero(cursor, Instr::Fence),
        AtomicOpcode::Access(of) => Ok(Instr::Access(of, memarg(cursor)?)),
    }
}

/// What stands behind an opcode.
pub(crate) fn immediates(
    alloc: Global,
    opcode: Opcode,
    cursor: &mut Cursor<'_>,
) -> Result<Instr, ReadFault>
    ensures { Gives (λ x. x) result cursor.new (immediates_at opcode cursor.old) }
{
    match opcode {
        Opcode::Illegal | Opcode::Block | Opcode::Loop | Opcode::If | Opcode::Else | Opcode::End =>
            Err(ReadFault::Malformed),
        Opcode::Unreachable => Ok(Instr::Unreachable),
        Opcode::Nop => Ok(Instr::Nop),
        Opcode::Br => Ok(Instr::Br(number(cursor)?)),
        Opcode::BrIf => Ok(Instr::BrIf(number(cursor)?)),
        Opcode::BrTable => br_table(alloc, cursor),
        Opcode::Return => Ok(Instr::Return),
        Opcode::Call => Ok(Instr::Call(number(cursor)?)),
        Opcode::CallIndirect => call_indirect(cursor),
        Opcode::Drop => Ok(Instr::Drop),
        Opcode::Select => Ok(Instr::Select),
        Opcode::Variable(of) => Ok(Instr::Variable(of, number(cursor)?)),
        Opcode::Access(of) => Ok(Instr::Access(of, memarg(cursor)?)),
        Opcode::MemorySize => with_zero(cursor, Instr::MemorySize),
        Opcode::MemoryGrow => with_zero(cursor, Instr::MemoryGrow),
        Opcode::I32Const => Ok(Instr::I32Const(signed_32(cursor)?)),
        Opcode::I64Const => Ok(Instr::I64Const(signed_64(cursor)?)),
        Opcode::Numeric(of) => Ok(Instr::Numeric(of)),
        Opcode::F32Const => float_const(cursor, 4),
        Opcode::F64Const => float_const(cursor, 8),
        Opcode::FloatAccess => {
            let _arg = memarg(cursor)?;
            Ok(Instr::Float)
        }
        Opcode::Float => Ok(Instr::Float),
        Opcode::Atomic => atomic(cursor),
    }
}
