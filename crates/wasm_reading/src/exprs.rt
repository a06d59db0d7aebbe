// Expressions: WebAssembly Core 1.0, sections 5.4.1 and 5.4.6.
ghost use Rattle.std.specs.Prelude.{◌≡◌, [], IfOk};
ghost use Rattle.std.specs.Bool.{OnTrue};
ghost use Rattle.wasm_reading.specs.ReadAnswers.{Gives};
ghost use Rattle.wasm_reading.specs.ReadExpr.{expr_at, shape_of, end_step, step_of, step_at};

use crate::fault::ReadFault;
use crate::instrs::{immediates, opcode};
use crate::types::blocktype;
use crate::values::next;
use byte_cursor::Cursor;
use std::alloc::{AllocError, Global};
use wasm_ast::{BlockKind, Body, BodyBuilder, Construct, Opcode};

/// What an opcode does to the constructs that are open.
#[derive(Clone, Copy)]
pub(crate) enum Shape {
    End,
    Else,
    Begin(Construct),
    /// It begins an instruction without inner instructions, or none.
    Plain,
}

/// What an opcode does to the constructs that are open.
fn shape_at(opcode: Opcode) -> Shape
    ensures { result ≡ shape_of opcode }
{
    match opcode {
        Opcode::End => Shape::End,
        Opcode::Else => Shape::Else,
        Opcode::Block => Shape::Begin(Construct::Block(BlockKind::Block)),
        Opcode::Loop => Shape::Begin(Construct::Block(BlockKind::Loop)),
        Opcode::If => Shape::Begin(Construct::If),
        _ => Shape::Plain,
    }
}

/// The end of the innermost construct, or that of the expression. Whether it is that of the expression.
fn end(alloc: Global, built: &mut BodyBuilder) -> Result<bool, AllocError>
    ensures step { IfOk result (λ complete. step_of complete built.new ≡ end_step built.old) }
    ensures whole { IfOk result (λ complete. OnTrue complete (built.new.opens ≡ [])) }
{
    if !built.is_inside() {
        return Ok(true);
    }
    built.end(alloc)?;
    Ok(false)
}

/// The next byte, and what stands behind it. Whether that is the end of the expression.
#[inline(always)]
fn next_step(
    alloc: Global,
    built: &mut BodyBuilder,
    cursor: &mut Cursor<'_>,
) -> Result<bool, ReadFault>
    ensures step { Gives (λ complete. step_of complete built.new) result cursor.new (step_at built.old cursor.old) }
    ensures whole { IfOk result (λ complete. OnTrue complete (built.new.opens ≡ [])) }
{
    let byte = next(cursor)?;
    let begun = opcode(byte);
    match shape_at(begun) {
        Shape::End => Ok(end(alloc, built)?),
        Shape::Else => {
            if !built.takes_else() {
                return Err(ReadFault::Malformed);
            }
            built.else_(alloc)?;
            Ok(false)
        }
        Shape::Begin(construct) => {
            let of = blocktype(cursor)?;
            built.open(alloc, construct, of)?;
            Ok(false)
        }
        Shape::Plain => {
            let instr = immediates(alloc, begun, cursor)?;
            built.plain(instr)?;
            Ok(false)
        }
    }
}

/// An expression, with its `end`.
pub(crate) fn expr(alloc: Global, cursor: &mut Cursor<'_>) -> Result<Body, ReadFault>
    ensures { Gives (λ x. x) result cursor.new (expr_at cursor.old) }
{
    let mut built = BodyBuilder::new(alloc)?;
    'steps: loop {
        if next_step(alloc, &mut built, cursor)? {
            return Ok(built.finish());
        }
    }
}
