// The open blocks of a function, with their operands.
ghost use Rattle.std.specs.Prelude.{◌≡◌, ◌+◌, ◌<◌, ◌^◌, ◌&&◌, true, [], ◌∷◌, IfOk, OnOk, option_to_list, slice_get};
ghost use Rattle.wasm_ast.specs.Typing.{no_operands, unreachable_operands, push_operand, pop_operand, pop_expected, pop_operands, push_operands, applied, is_empty, label_of};
ghost use Rattle.wasm_validate.specs.Blocks.{OpenBlocks, ended, popped_to, labels_of, first_block, opened, Closes};

use std::alloc::{AllocError, Global};
use std::marker::Model;
use wasm_ast::{BlockKind, ValType};

/// An open block. An arm of an if, and the function's own instructions, are blocks.
#[derive(Clone, Copy)]
pub struct Block {
    /// Whether a branch to it leaves it, or begins it anew.
    pub kind: BlockKind,
    /// The type of the value that it leaves, if any.
    pub of: Option<ValType>,
}

/// An open block and its operands, which lie in a stack with those of the others.
#[derive(Clone, Copy)]
struct Frame {
    /// How many of the operands are its own.
    own: usize,
    block: Block,
    /// Whether anything may stand below them, in code that isn't reached.
    unreachable: bool,
}

/// The open blocks. There is at least the one of the function's own instructions.
#[derive(Drop)]
pub struct Blocks {
    innermost: Frame,
    outer: Vec<Frame>,
    operands: Vec<Option<ValType>>,
}

impl Model for Blocks {
    ghost use Rattle.wasm_validate.specs.Blocks.{OpenBlocks};

    ghost Value = { OpenBlocks };

    ghost use Rattle.wasm_validate.specs.View.{blocks_of, IsWhole};

    ghost view = { blocks_of };

    ghost invariant = { IsWhole };
}

impl Blocks {
    /// The one block of a function's own instructions, without operands. No memory is taken.
    pub fn new(alloc: Global, of: Option<ValType>) -> Blocks
        ensures { result ≡ first_block of }
    {
        Blocks {
            innermost: Frame {
                block: Block {
                    kind: BlockKind::Block,
                    of,
                },
                own: 0,
                unreachable: false,
            },
            outer: Vec::new(alloc),
            operands: Vec::new(alloc),
        }
    }

    /// Adds an operand, of a known type or of any.
    pub fn push(&mut self, of: Option<ValType>) -> Result<(), AllocError>
        ensures operands { OnOk result (self.new.operands ≡ push_operand of self.old.operands) }
        ensures enclosing { self.new.enclosing ≡ self.old.enclosing }
    {
        self.operands.push(of)?;
        self.innermost.own += 1;
        Ok(())
    }

    /// Takes the last operand, if there is one.
    pub fn pop(&mut self) -> Option<Option<ValType>>
        ensures operands { popped_to result self.new.operands ≡ pop_operand self.old.operands }
        ensures enclosing { self.new.enclosing ≡ self.old.enclosing }
    {
        if self.innermost.own == 0 {
            return if self.innermost.unreachable {
                Some(None)
            } else {
                None
            };
        }
        self.innermost.own -= 1;
        self.operands.pop()
    }

    /// Takes the last operand, which is to be of that type.
    pub fn expect(&mut self, of: ValType) -> bool
        ensures operands { ended result self.new.operands ≡ pop_expected of self.old.operands }
        ensures enclosing { self.new.enclosing ≡ self.old.enclosing }
    {
        match self.pop() {
            None => false,
            Some(None) => true,
            Some(Some(found)) => found.is(of),
        }
    }

    /// Takes the last operand, which is to be of that type, if there is one.
    #[inline(always)]
    pub fn expect_value(&mut self, of: Option<ValType>) -> bool
        ensures operands { ended result self.new.operands ≡ pop_operands (option_to_list of) self.old.operands }
        ensures enclosing { self.new.enclosing ≡ self.old.enclosing }
    {
        match of {
            None => true,
            Some(of) => self.expect(of),
        }
    }

    /// Whether anything may stand in place of each operand.
    fn is_any(&self) -> bool
        ensures { result ≡ (self.now.operands.unreachable && is_empty self.now.operands.types) }
    {
        self.innermost.unreachable && self.innermost.own == 0
    }

    /// Takes the last operands, which are to be of those types. In code that isn't reached it takes no
    /// longer than there are operands.
    #[inline(always)]
    pub fn expect_all(&mut self, of: &[ValType]) -> bool
        ensures operands { ended result self.new.operands ≡ pop_operands of.now self.old.operands }
        ensures enclosing { self.new.enclosing ≡ self.old.enclosing }
    {
        let mut left = of.len();
        while left > 0 && !self.is_any() {
            left -= 1;
            if !self.expect(of[left]) {
                return false;
            }
        }
        true
    }

    /// Adds an operand of that type, if there is one.
    pub fn push_value(&mut self, of: Option<ValType>) -> Result<(), AllocError>
        ensures operands { OnOk result (self.new.operands ≡ push_operands (option_to_list of) self.old.operands) }
        ensures enclosing { self.new.enclosing ≡ self.old.enclosing }
    {
        match of {
            None => Ok(()),
            Some(of) => self.push(Some(of)),
        }
    }

    /// Adds operands of those types.
    #[inline(always)]
    pub fn push_all(&mut self, of: &[ValType]) -> Result<(), AllocError>
        ensures operands { OnOk result (self.new.operands ≡ push_operands of.now self.old.operands) }
        ensures enclosing { self.new.enclosing ≡ self.old.enclosing }
    {
        for t in of {
            self.push(Some(*t))?;
        }
        Ok(())
    }

    /// Takes operands of some types, and gives those of others.
    #[inline(always)]
    pub fn apply(&mut self, params: &[ValType], results: &[ValType]) -> Result<bool, AllocError>
        ensures operands { IfOk result (λ fits. ended fits self.new.operands ≡ applied params.now results.now self.old.operands) }
        ensures enclosing { self.new.enclosing ≡ self.old.enclosing }
    {
        if !self.expect_all(params) {
            return Ok(false);
        }
        self.push_all(results)?;
        Ok(true)
    }

    /// Leaves anything in place of the operands, as an unconditional branch does.
    pub fn become_unreachable(&mut self)
        ensures operands { self.new.operands ≡ unreachable_operands }
        ensures enclosing { self.new.enclosing ≡ self.old.enclosing }
    {
        self.operands
            .truncate(self.operands.len() - self.innermost.own);
        self.innermost.own = 0;
        self.innermost.unreachable = true;
    }

    /// Whether the innermost block has no operands.
    pub fn is_empty(&self) -> bool
        ensures { result ≡ is_empty self.now.operands.types }
    {
        self.innermost.own == 0
    }

    /// What a branch to a label takes, if there is that label.
    pub fn label(&self, label: u32) -> Option<Option<ValType>>
        ensures { result ≡ slice_get (labels_of self.now.enclosing) label }
    {
        if label == 0 {
            return Some(self.innermost.block.label());
        }
        let label = label as usize;
        let count = self.outer.len();
        if label > count {
            return None;
        }
        Some(self.outer[count - label].block.label())
    }

    /// Opens a block, without operands.
    #[inline(always)]
    pub fn open(&mut self, kind: BlockKind, of: Option<ValType>) -> Result<(), AllocError>
        ensures { OnOk result (self.new ≡ opened kind of self.old) }
    {
        self.outer.push(self.innermost)?;
        self.innermost = Frame {
            block: Block { kind, of },
            own: 0,
            unreachable: false,
        };
        Ok(())
    }

    /// Closes the innermost block, which is to have no operands, and says whether one is around it.
    #[inline(always)]
    pub fn close(&mut self) -> bool
        requires { is_empty self.old.operands.types ≡ true }
        ensures { Closes self.old.enclosing.outer result self.new }
    {
        match self.outer.pop() {
            None => false,
            Some(frame) => {
                self.innermost = frame;
                true
            }
        }
    }

    /// Begins the second arm of an if in place of the first, which is to have no operands.
    pub fn restart(&mut self)
        requires { is_empty self.old.operands.types ≡ true }
        ensures operands { self.new.operands ≡ no_operands }
        ensures enclosing { self.new.enclosing ≡ self.old.enclosing }
    {
        self.innermost.unreachable = false;
    }

    /// The type of the value that the innermost block leaves, if any.
    pub fn leaves(&self) -> Option<ValType>
        ensures { result ≡ self.now.enclosing.block.of }
    {
        self.innermost.block.of
    }
}

impl Block {
    /// What a branch to the block takes: to a loop nothing, since it goes to its start.
    fn label(self) -> Option<ValType>
        ensures { result ≡ label_of self.kind self.of }
    {
        match self.kind {
            BlockKind::Loop => None,
            BlockKind::Block => self.of,
        }
    }
}
