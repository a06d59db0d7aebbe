// What one instruction leaves of the operands: WebAssembly Core 1.0, section 3.3.
ghost use Rattle.std.specs.Prelude.{◌≡◌, ◌∷◌, [], IfOk, None, nat_lt, if◌then◌else◌};
ghost use Rattle.wasm_ast.specs.declared.instr.Instr.TheVariants as instr;
ghost use Rattle.wasm_ast.specs.declared.types.ValType.TheVariants.{I32};
ghost use Rattle.wasm_ast.specs.Typing.{after, applied};
ghost use Rattle.wasm_validate.specs.Blocks.{ended, labels_of};
ghost use Rattle.wasm_validate.specs.Context.{context};

use super::blocks::Blocks;
use super::context::{Context, branch, may_align, select, table_value};
use std::alloc::AllocError;
use wasm_ast::{Access, Instr, MemArg, NumericOp, Targets, ValType};

impl Context<'_> {
    /// Gives what an instruction leaves of the operands, or says that it doesn't fit them. A block, a
    /// loop and an if have inner lists and aren't asked about.
    #[inline(always)]
    pub fn after(&self, blocks: &mut Blocks, instr: &Instr) -> Result<bool, AllocError>
        ensures operands { IfOk result (λ fits. ended fits blocks.new.operands ≡ after (context self.now) (labels_of blocks.old.enclosing) instr.now blocks.old.operands) }
        ensures enclosing { blocks.new.enclosing ≡ blocks.old.enclosing }
    {
        match instr {
            Instr::Unreachable => {
                blocks.become_unreachable();
                Ok(true)
            }
            Instr::Nop | Instr::Fence => Ok(true),
            Instr::Block { .. } | Instr::Loop { .. } | Instr::If { .. } | Instr::Float => Ok(false),
            Instr::Br(label) => Ok(self.br(blocks, *label)),
            Instr::BrIf(label) => self.br_if(blocks, *label),
            Instr::BrTable(targets) => Ok(self.br_table(blocks, targets)),
            Instr::Return => Ok(branch(blocks, self.result)),
            Instr::Call(function) => self.call(blocks, *function),
            Instr::CallIndirect(of) => self.call_indirect(blocks, *of),
            Instr::Drop => Ok(blocks.pop().is_some()),
            Instr::Select => select(blocks),
            Instr::Variable(op, index) => self.after_variable(blocks, *op, *index),
            Instr::Access(op, arg) => self.access(blocks, *op, *arg),
            Instr::MemorySize => self.pages(blocks, &[]),
            Instr::MemoryGrow => self.pages(blocks, &[ValType::I32]),
            Instr::I32Const(_) => {
                blocks.push(Some(ValType::I32))?;
                Ok(true)
            }
            Instr::I64Const(_) => {
                blocks.push(Some(ValType::I64))?;
                Ok(true)
            }
            Instr::Numeric(op) => self.numeric(blocks, *op),
        }
    }

    /// `br`
    fn br(&self, blocks: &mut Blocks, label: u32) -> bool
        ensures operands { ended result blocks.new.operands ≡ after (context self.now) (labels_of blocks.old.enclosing) (instr.Br label) blocks.old.operands }
        ensures enclosing { blocks.new.enclosing ≡ blocks.old.enclosing }
    {
        match blocks.label(label) {
            None => false,
            Some(of) => branch(blocks, of),
        }
    }

    /// `br_if`
    fn br_if(&self, blocks: &mut Blocks, label: u32) -> Result<bool, AllocError>
        ensures operands { IfOk result (λ fits. ended fits blocks.new.operands ≡ after (context self.now) (labels_of blocks.old.enclosing) (instr.BrIf label) blocks.old.operands) }
        ensures enclosing { blocks.new.enclosing ≡ blocks.old.enclosing }
    {
        let Some(of) = blocks.label(label) else {
            return Ok(false);
        };
        if !blocks.expect(ValType::I32) || !blocks.expect_value(of) {
            return Ok(false);
        }
        blocks.push_value(of)?;
        Ok(true)
    }

    /// `br_table`
    fn br_table(&self, blocks: &mut Blocks, targets: &Targets) -> bool
        ensures operands { ended result blocks.new.operands ≡ after (context self.now) (labels_of blocks.old.enclosing) (instr.BrTable targets.now) blocks.old.operands }
        ensures enclosing { blocks.new.enclosing ≡ blocks.old.enclosing }
    {
        match table_value(blocks, targets) {
            None => false,
            Some(of) => blocks.expect(ValType::I32) && branch(blocks, of),
        }
    }

    /// `call`
    fn call(&self, blocks: &mut Blocks, function: u32) -> Result<bool, AllocError>
        ensures operands { IfOk result (λ fits. ended fits blocks.new.operands ≡ after (context self.now) (labels_of blocks.old.enclosing) (instr.Call function) blocks.old.operands) }
        ensures enclosing { blocks.new.enclosing ≡ blocks.old.enclosing }
    {
        match self.function(function) {
            None => Ok(false),
            Some(of) => blocks.apply(of.params.as_slice(), of.results.as_slice()),
        }
    }

    /// `call_indirect`
    fn call_indirect(&self, blocks: &mut Blocks, of: u32) -> Result<bool, AllocError>
        ensures operands { IfOk result (λ fits. ended fits blocks.new.operands ≡ after (context self.now) (labels_of blocks.old.enclosing) (instr.CallIndirect of) blocks.old.operands) }
        ensures enclosing { blocks.new.enclosing ≡ blocks.old.enclosing }
    {
        if self.tables == 0 {
            return Ok(false);
        }
        match self.types.get(of as usize) {
            None => Ok(false),
            Some(of) => {
                if !blocks.expect(ValType::I32) {
                    return Ok(false);
                }
                blocks.apply(of.params.as_slice(), of.results.as_slice())
            }
        }
    }

    /// An access to memory.
    #[inline(always)]
    fn access(&self, blocks: &mut Blocks, op: Access, arg: MemArg) -> Result<bool, AllocError>
        ensures operands { IfOk result (λ fits. ended fits blocks.new.operands ≡ after (context self.now) (labels_of blocks.old.enclosing) (instr.Access op arg) blocks.old.operands) }
        ensures enclosing { blocks.new.enclosing ≡ blocks.old.enclosing }
    {
        if self.memories == 0 || !may_align(op, arg.align) {
            return Ok(false);
        }
        blocks.apply(op.operands(), op.results())
    }

    /// `memory.size` and `memory.grow`, which takes a number of pages.
    fn pages(&self, blocks: &mut Blocks, params: &[ValType]) -> Result<bool, AllocError>
        ensures operands { IfOk result (λ fits. ended fits blocks.new.operands ≡ (if nat_lt 0 (context self.now).memories then applied params.now (I32 ∷ []) blocks.old.operands else None)) }
        ensures enclosing { blocks.new.enclosing ≡ blocks.old.enclosing }
    {
        if self.memories == 0 {
            return Ok(false);
        }
        blocks.apply(params, &[ValType::I32])
    }

    /// A numeric instruction other than a constant.
    #[inline(always)]
    fn numeric(&self, blocks: &mut Blocks, op: NumericOp) -> Result<bool, AllocError>
        ensures operands { IfOk result (λ fits. ended fits blocks.new.operands ≡ after (context self.now) (labels_of blocks.old.enclosing) (instr.Numeric op) blocks.old.operands) }
        ensures enclosing { blocks.new.enclosing ≡ blocks.old.enclosing }
    {
        if !blocks.expect_all(op.operands()) {
            return Ok(false);
        }
        blocks.push(Some(op.result()))?;
        Ok(true)
    }
}
