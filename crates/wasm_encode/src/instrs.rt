// Instructions that have no inner instructions: WebAssembly Core 1.0, section 5.4, and the threads
// proposal.
ghost use Rattle.std.specs.Prelude.{◌≡◌, ◌<◌, ◌++◌, OnOk};
ghost use Rattle.wasm_ast.specs.Opcodes.{access_opcode};
ghost use Rattle.wasm_ast.specs.CanonInstr.{canon_plain};
ghost use Rattle.wasm_ast.specs.Shortest.{shortest_unsigned};

use crate::numbers::write_signed;
use crate::vectors::{write_byte, write_pair, write_tagged, write_u32, write_vector};
use std::alloc::{AllocError, Global};
use wasm_ast::{Access, Instr, MemArg};

/// Appends the opcode of an access to memory (5.4.4, and the threads proposal).
fn write_access(out: &mut Vec<u8>, op: Access) -> Result<(), AllocError>
    ensures { OnOk result (out.new.items ≡ out.old.items ++ access_opcode op) }
{
    let (first, second) = op.opcode();
    match second {
        None => write_byte(out, first),
        Some(second) => write_pair(out, first, second),
    }
}

/// Appends the immediates of an access to memory (`memarg`, 5.4.4).
fn write_memarg(out: &mut Vec<u8>, arg: MemArg) -> Result<(), AllocError>
    ensures { OnOk result (out.new.items ≡ out.old.items ++ shortest_unsigned arg.align ++ shortest_unsigned arg.offset) }
{
    write_u32(out, arg.align)?;
    write_u32(out, arg.offset)
}

/// Appends an instruction that has no inner instructions (5.4). Of a block, a loop or an if nothing
/// is written here.
pub(crate) fn write_plain(alloc: Global, out: &mut Vec<u8>, instr: &Instr) -> Result<(), AllocError>
    ensures { OnOk result (out.new.items ≡ out.old.items ++ canon_plain instr.now) }
{
    match instr {
        Instr::Unreachable => write_byte(out, 0x00),
        Instr::Nop => write_byte(out, 0x01),
        Instr::Block { .. } | Instr::Loop { .. } | Instr::If { .. } => Ok(()),
        Instr::Br(label) => write_tagged(out, 0x0C, *label),
        Instr::BrIf(label) => write_tagged(out, 0x0D, *label),
        Instr::BrTable(targets) => {
            out.push(0x0E)?;
            write_vector(alloc, out, targets.labels())?;
            write_u32(out, targets.default())
        }
        Instr::Return => write_byte(out, 0x0F),
        Instr::Call(function) => write_tagged(out, 0x10, *function),
        Instr::CallIndirect(of) => {
            write_tagged(out, 0x11, *of)?;
            write_byte(out, 0x00)
        }
        Instr::Drop => write_byte(out, 0x1A),
        Instr::Select => write_byte(out, 0x1B),
        Instr::Variable(op, index) => write_tagged(out, op.opcode(), *index),
        Instr::Access(op, arg) => {
            write_access(out, *op)?;
            write_memarg(out, *arg)
        }
        Instr::MemorySize => write_pair(out, 0x3F, 0x00),
        Instr::MemoryGrow => write_pair(out, 0x40, 0x00),
        Instr::Fence => {
            write_pair(out, 0xFE, 0x03)?;
            write_byte(out, 0x00)
        }
        Instr::I32Const(value) => {
            out.push(0x41)?;
            write_signed(out, i64::from(*value))
        }
        Instr::I64Const(value) => {
            out.push(0x42)?;
            write_signed(out, *value)
        }
        Instr::Numeric(op) => write_byte(out, op.opcode()),
        Instr::Float => write_byte(out, 0x5B),
    }
}
