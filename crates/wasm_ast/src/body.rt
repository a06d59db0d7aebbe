// The instructions of a function or of an initial value, with their blocks.
ghost use Rattle.std.specs.Prelude.{◌≡◌, ◌+◌, ◌<◌, ◌^◌, IfOk, IsSome, option_copied};
ghost use Rattle.wasm_ast.specs.Position.{IsInstrAt, IsList};
ghost use Rattle.wasm_ast.specs.Table.{constant_value};

use super::instr::Instr;
use super::items::Items;
use super::position::Position;
use std::alloc::{AllocError, Global};
use std::marker::Model;

/// The instructions of a function or of a constant expression, without the `end` behind them (2.4.6).
/// They stand in numbered lists. List 0 is the function's own. A block, a loop and an if name their
/// inner lists by number, in the order in which they begin in the text. Contracts see the instructions as
/// nested sequences.
#[derive(Drop)]
pub struct Body {
    lists: Vec<Items<Instr>>,
}

impl Model for Body {
    ghost use Rattle.std.specs.Prelude.{◌≡◌};
    ghost use Rattle.wasm_ast.specs.Sequence.{Sequence, sequence_code};

    ghost Value = { Sequence };

    ghost coded = { sequence_code };

    ghost use Rattle.wasm_ast.specs.Numbering.{lists_of, nested};

    ghost view = { λ b. nested b.lists.items 0 };

    ghost invariant = { λ b. b.lists.items ≡ lists_of (nested b.lists.items 0) };
}

impl Body {
    ghost use Rattle.wasm_ast.specs.Numbering.{lists_of, nested};

    /// The body of these lists, which are numbered in the order of the text. No memory is taken.
    pub(crate) fn new(lists: Vec<Items<Instr>>) -> Body
        requires { lists.items ≡ lists_of (nested lists.items 0) }
        ensures { result ≡ nested lists.items 0 }
    {
        Body { lists }
    }

    /// The list of that number; none has no instructions.
    pub fn list(&self, list: u32) -> &[Instr]
        ensures { IsList self.now list result.now }
    {
        match self.lists.get(list as usize) {
            None => &[],
            Some(found) => found.as_slice(),
        }
    }

    /// The instruction at a place, if it isn't at the end of its list.
    pub fn at(&self, position: Position) -> Option<&Instr>
        ensures value { IsInstrAt self.now position (option_copied result) }
        ensures room { IsSome result → position.index + 1 < 2 ^ 64 }
    {
        self.list(position.list).get(position.index)
    }

    /// The value of a constant expression as the bits of its type (4.5.3), and 0 where it is that of a global.
    pub fn constant_value(&self) -> u64
        ensures { result ≡ constant_value self.now }
    {
        match self.at(Position::start(0)) {
            Some(instr) => instr.constant(),
            None => 0,
        }
    }

    /// An equal body. `AllocError` is want of memory and nothing else.
    pub fn copy(&self, alloc: Global) -> Result<Body, AllocError>
        ensures { IfOk result (λ b. b ≡ self.now) }
    {
        Ok(Body::new(copied_lists(alloc, self.lists.as_slice())?))
    }
}

/// Equal lists.
fn copied_lists(alloc: Global, lists: &[Items<Instr>]) -> Result<Vec<Items<Instr>>, AllocError>
    ensures { IfOk result (λ c. c.items ≡ lists.now) }
{
    let mut copies = Vec::new(alloc);
    for list in lists {
        copies.push(list.copy(alloc)?)?;
    }
    Ok(copies)
}
