// Bodies: WebAssembly Core 1.0, sections 5.4.1 and 5.4.6.
ghost use Rattle.std.specs.Prelude.{◌≡◌, ◌++◌, OnOk};
ghost use Rattle.wasm_ast.specs.CanonInstr.{canon_expr};
ghost use Rattle.wasm_ast.specs.Opcodes.{construct_byte};
ghost use Rattle.wasm_ast.specs.Walk.{event_of};
ghost use Rattle.wasm_encode.specs.CanonEvents.{canon_event};

use crate::instrs::write_plain;
use crate::types::block_type_byte;
use crate::vectors::{write_byte, write_pair};
use std::alloc::{AllocError, Global};
use wasm_ast::{BlockKind, Body, Construct, Event, Walk};

/// Appends a body and its end (`expr`, 5.4.6).
pub(crate) fn write_expr(alloc: Global, out: &mut Vec<u8>, body: &Body) -> Result<(), AllocError>
    ensures { OnOk result (out.new.items ≡ out.old.items ++ canon_expr body.now) }
{
    let mut walk = Walk::new(alloc, body);
    'events: while let Some(event) = walk.next()? {
        write_event(alloc, out, event)?;
    }
    write_byte(out, 0x0B)
}

/// Appends an event of a body (5.4.1). There is no `else` before a second arm without instructions.
fn write_event(alloc: Global, out: &mut Vec<u8>, event: Event<'_>) -> Result<(), AllocError>
    ensures { OnOk result (out.new.items ≡ out.old.items ++ canon_event (event_of event.entry)) }
{
    match event {
        Event::Instruction(instr) => write_plain(alloc, out, instr),
        Event::Begin(construct, of) => {
            write_pair(out, construct_byte(construct), block_type_byte(of))
        }
        Event::Else { is_empty: true } => Ok(()),
        Event::Else { is_empty: false } => write_byte(out, 0x05),
        Event::End => write_byte(out, 0x0B),
    }
}

/// The opcode of a block, a loop or an if.
fn construct_byte(construct: Construct) -> u8
    ensures { result ≡ construct_byte construct }
{
    match construct {
        Construct::Block(BlockKind::Block) => 0x02,
        Construct::Block(BlockKind::Loop) => 0x03,
        Construct::If => 0x04,
    }
}
