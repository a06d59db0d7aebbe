// Whether a module has a wait or a notify, in one walk over each body.
ghost use Rattle.std.specs.Prelude.{◌≡◌, IfOk};
ghost use Rattle.wasm_ast.specs.Walk.{event_of};
ghost use Rattle.instance.specs.Links.{any_waits, instruction_waits, waits};
ghost use Rattle.instance.specs.Waiting.{event_waits};

use std::alloc::{AllocError, Global};
use wasm_ast::{Access, Body, Event, Instr, Module, Walk};

/// Whether an instruction is a wait or a notify.
fn instruction_waits(instr: &Instr) -> bool
    ensures { result ≡ instruction_waits instr.now }
{
    matches!(instr, Instr::Access(Access::Wait(_) | Access::Notify, _))
}

/// Whether an event is a wait or a notify.
fn event_waits(event: Event<'_>) -> bool
    ensures { result ≡ event_waits (event_of event.entry) }
{
    match event {
        Event::Instruction(instr) => instruction_waits(instr),
        Event::Begin(_, _) | Event::Else { .. } | Event::End => false,
    }
}

/// Whether a wait or a notify stands in a body. `AllocError` is want of memory and nothing else.
fn body_waits(alloc: Global, body: &Body) -> Result<bool, AllocError>
    ensures { IfOk result (λ found. found ≡ waits body.now) }
{
    let mut walk = Walk::new(alloc, body);
    'events: while let Some(event) = walk.next()? {
        if event_waits(event) {
            return Ok(true);
        }
    }
    Ok(false)
}

/// Whether a wait or a notify stands in a function of a module. `AllocError` is want of memory and nothing else.
pub fn any_waits(alloc: Global, module: &Module) -> Result<bool, AllocError>
    ensures { IfOk result (λ found. found ≡ any_waits «module».now) }
{
    for code in module.codes.as_slice() {
        if body_waits(alloc, &code.body)? {
            return Ok(true);
        }
    }
    Ok(false)
}
