// Whether the instructions of a function or of an expression are typed: WebAssembly Core 1.0,
// sections 3.3.5 to 3.3.7 and 7.3.
ghost use Rattle.std.specs.Prelude.{◌≡◌, Some, true, IfOk};
ghost use Rattle.std.specs.Bool.{OnTrue};
ghost use Rattle.wasm_ast.specs.Typing.{is_body, is_empty, leaves};
ghost use Rattle.wasm_ast.specs.Walk.{event_of};
ghost use Rattle.wasm_validate.specs.Context.{context};
ghost use Rattle.wasm_validate.specs.Algorithm.{Steps, fitting, begun, at_else, at_end, step};

use super::blocks::Blocks;
use super::context::Context;
use std::alloc::{AllocError, Global};
use wasm_ast::{BlockKind, Body, Construct, Event, ValType, Walk};

impl Context<'_> {
    /// Whether the instructions fit one another and leave exactly the result.
    pub fn is_body(&self, alloc: Global, body: &Body) -> Result<bool, AllocError>
        ensures { IfOk result (λ fits. fits ≡ is_body (context self.now) body.now) }
    {
        let mut walk = Walk::new(alloc, body);
        let mut blocks = Blocks::new(alloc, self.result);
        'events: while let Some(fits) = self.next_step(&mut walk, &mut blocks)? {
            if !fits {
                return Ok(false);
            }
        }
        Ok(is_left(&mut blocks, self.result))
    }

    /// Whether what comes next fits what came before it, if anything comes. Instructions without inner ones take a path of
    /// their own, since most are such.
    #[inline(always)]
    fn next_step(
        &self,
        walk: &mut Walk<'_>,
        blocks: &mut Blocks,
    ) -> Result<Option<bool>, AllocError>
        ensures { IfOk result (λ fits. Steps (context self.now) walk.old blocks.old fits walk.new blocks.new) }
    {
        if let Some(instr) = walk.plain() {
            return Ok(Some(self.step(blocks, Event::Instruction(instr))?));
        }
        match walk.next()? {
            None => Ok(None),
            Some(event) => Ok(Some(self.step(blocks, event)?)),
        }
    }

    /// Whether an event fits what came before it.
    #[inline(always)]
    fn step(&self, blocks: &mut Blocks, event: Event<'_>) -> Result<bool, AllocError>
        ensures { IfOk result (λ fits. fitting fits blocks.new ≡ step (context self.now) (event_of event.entry) blocks.old) }
    {
        match event {
            Event::Instruction(instr) => self.after(blocks, instr),
            Event::Begin(construct, of) => begin(blocks, construct, of),
            Event::Else { .. } => Ok(goes_to_second(blocks)),
            Event::End => end(blocks),
        }
    }
}

/// Begins a block, a loop or an if.
#[inline(always)]
fn begin(blocks: &mut Blocks, construct: Construct, of: Option<ValType>) -> Result<bool, AllocError>
    ensures { IfOk result (λ fits. fitting fits blocks.new ≡ begun construct of blocks.old) }
{
    match construct {
        Construct::Block(kind) => {
            blocks.open(kind, of)?;
            Ok(true)
        }
        Construct::If => {
            if !blocks.expect(ValType::I32) {
                return Ok(false);
            }
            blocks.open(BlockKind::Block, of)?;
            Ok(true)
        }
    }
}

/// Ends the first arm of an if, and begins the second.
#[inline(always)]
fn goes_to_second(blocks: &mut Blocks) -> bool
    ensures { fitting result blocks.new ≡ at_else blocks.old }
{
    let of = blocks.leaves();
    if !is_left(blocks, of) {
        return false;
    }
    blocks.restart();
    true
}

/// Ends a block, a loop or an if.
#[inline(always)]
fn end(blocks: &mut Blocks) -> Result<bool, AllocError>
    ensures { IfOk result (λ fits. fitting fits blocks.new ≡ at_end blocks.old) }
{
    let of = blocks.leaves();
    if !is_left(blocks, of) || !blocks.close() {
        return Ok(false);
    }
    blocks.push_value(of)?;
    Ok(true)
}

/// Whether the operands are exactly the value of a block's type, if any. There are none then.
#[inline(always)]
fn is_left(blocks: &mut Blocks, of: Option<ValType>) -> bool
    ensures value { result ≡ leaves of (Some blocks.old.operands) }
    ensures empty { OnTrue result (is_empty blocks.new.operands.types ≡ true) }
    ensures enclosing { blocks.new.enclosing ≡ blocks.old.enclosing }
{
    blocks.expect_value(of) && blocks.is_empty()
}
