// Bodies that are built one instruction after another.
ghost use Rattle.std.specs.Prelude.{◌≡◌, ◌<◌, [], ◌∷◌, ◌++◌, length, true, IfOk, OnOk, OnErr, slice_set};
ghost use Rattle.wasm_ast.specs.Numbering.{block_instr, list_at};
ghost use Rattle.wasm_ast.specs.Built.{NamesNone, nothing_built, with_plain, with_open, takes_else, with_else, is_inside, with_end};
ghost use Rattle.wasm_ast.specs.Wrapping.{outer_of, Wraps};

use super::body::Body;
use super::instr::{BlockKind, Construct, Instr};
use super::items::Items;
use super::types::ValType;
use std::alloc::{AllocError, Global};
use std::marker::Model;

/// A construct that is open, with the number of the list in which it will stand.
#[derive(Clone, Copy)]
pub(crate) enum Frame {
    /// A block, a loop or the first arm of an if, with its type.
    Inside {
        construct: Construct,
        of: Option<ValType>,
        outer: u32,
    },
    /// The second arm of an if, with its type and the number of the list of the first.
    Else {
        of: Option<ValType>,
        then: u32,
        outer: u32,
    },
}

impl Frame {
    /// The number of the list in which the construct will stand.
    fn outer(self) -> u32
        ensures { result ≡ outer_of self }
    {
        match self {
            Frame::Inside { outer, .. } | Frame::Else { outer, .. } => outer,
        }
    }
}

/// A body that is built one instruction after another. Contracts see the constructs that are open,
/// the innermost first, each with what stands in front of it, and what was added to the innermost
/// sequence.
#[derive(Drop)]
pub struct BodyBuilder {
    lists: Vec<Items<Instr>>,
    opens: Vec<Frame>,
    list: u32,
}

impl Model for BodyBuilder {
    ghost use Rattle.std.specs.Prelude.{reverse};
    ghost use Rattle.wasm_ast.specs.Built.{Built, built_code};

    ghost Value = { Built };

    ghost coded = { built_code };

    ghost use Rattle.wasm_ast.specs.Building.{built_of, IsBuilt};

    ghost view = { λ b. built_of b.lists.items (reverse b.opens.items) b.list };

    ghost invariant = { λ b. IsBuilt b.lists.items (reverse b.opens.items) b.list (built_of b.lists.items (reverse b.opens.items) b.list) };
}

impl BodyBuilder {
    /// Nothing yet. `AllocError` is want of memory and nothing else.
    pub fn new(alloc: Global) -> Result<BodyBuilder, AllocError>
        ensures { IfOk result (λ b. b ≡ nothing_built) }
    {
        let mut lists = Vec::with_capacity(alloc, 1)?;
        lists.push(Items::new(alloc))?;
        Ok(BodyBuilder {
            lists,
            opens: Vec::new(alloc),
            list: 0,
        })
    }

    /// Adds an instruction without inner instructions. `AllocError` is want of memory and nothing else;
    /// the body is unchanged then.
    pub fn plain(&mut self, instr: Instr) -> Result<(), AllocError>
        requires { NamesNone instr }
        ensures ok { OnOk result (self.new ≡ with_plain instr self.old) }
        ensures err { OnErr result (self.new ≡ self.old) }
    {
        push_at(&mut self.lists, self.list, instr)
    }

    /// Begins a block, a loop or an if of that type. `AllocError` is want of memory and nothing else; the body
    /// is unchanged then.
    #[inline(always)]
    pub fn open(
        &mut self,
        alloc: Global,
        construct: Construct,
        of: Option<ValType>,
    ) -> Result<(), AllocError>
        ensures ok { OnOk result (self.new ≡ with_open construct of self.old) }
        ensures err { OnErr result (self.new ≡ self.old) }
    {
        let outer = self.list;
        let count = self.lists.len();
        let list = add_list(alloc, &mut self.lists)?;
        let frame = Frame::Inside {
            construct,
            of,
            outer,
        };
        let Ok(()) = self.opens.push(frame) else {
            self.lists.truncate(count);
            return Err(AllocError);
        };
        self.list = list;
        Ok(())
    }

    /// Whether the innermost construct is the first arm of an if.
    pub fn takes_else(&self) -> bool
        ensures { result ≡ takes_else self.now.opens }
    {
        matches!(
            self.opens.last(),
            Some(Frame::Inside {
                construct: Construct::If,
                ..
            })
        )
    }

    /// Begins the second arm of the innermost construct. `AllocError` is want of memory and nothing else; the
    /// body is unchanged then.
    #[inline(always)]
    pub fn else_(&mut self, alloc: Global) -> Result<(), AllocError>
        requires { takes_else self.old.opens ≡ true }
        ensures ok { OnOk result (self.new ≡ with_else self.old) }
        ensures err { OnErr result (self.new ≡ self.old) }
    {
        let list = add_list(alloc, &mut self.lists)?;
        let Some(frame) = self.opens.last_mut() else {
            unreachable!();
        };
        let Frame::Inside { of, outer, .. } = *frame else {
            unreachable!();
        };
        let then = self.list;
        *frame = Frame::Else { of, then, outer };
        self.list = list;
        Ok(())
    }

    /// Whether a construct is open.
    pub fn is_inside(&self) -> bool
        ensures { result ≡ is_inside self.now.opens }
    {
        !self.opens.is_empty()
    }

    /// Ends the innermost construct. `AllocError` is want of memory and nothing else; the body is unchanged then.
    #[inline(always)]
    pub fn end(&mut self, alloc: Global) -> Result<(), AllocError>
        requires { is_inside self.old.opens ≡ true }
        ensures ok { OnOk result (self.new ≡ with_end self.old) }
        ensures err { OnErr result (self.new ≡ self.old) }
    {
        let Some(frame) = self.opens.last() else {
            unreachable!();
        };
        let frame = *frame;
        let outer = frame.outer();
        let count = self.lists.len();
        let instr = wrapped(alloc, &mut self.lists, frame, self.list)?;
        let Ok(()) = push_at(&mut self.lists, outer, instr) else {
            self.lists.truncate(count);
            return Err(AllocError);
        };
        self.opens.pop();
        self.list = outer;
        Ok(())
    }

    /// The body. No memory is taken.
    pub fn finish(self) -> Body
        requires { self.opens ≡ [] }
        ensures { result ≡ self.before }
    {
        let BodyBuilder { lists, .. } = self;
        Body::new(lists)
    }
}

/// A new empty list at the end, by its number. More lists than there are numbers are want of memory.
fn add_list(alloc: Global, lists: &mut Vec<Items<Instr>>) -> Result<u32, AllocError>
    ensures ok { IfOk result (λ n. (n ≡ length lists.old.items) × (lists.new.items ≡ lists.old.items ++ [] ∷ [])) }
    ensures err { OnErr result (lists.new.items ≡ lists.old.items) }
{
    let len = lists.len();
    if len > u32::MAX as usize {
        return Err(AllocError);
    }
    lists.push(Items::new(alloc))?;
    Ok(len as u32)
}

/// An instruction at the end of a list.
fn push_at(lists: &mut Vec<Items<Instr>>, at: u32, instr: Instr) -> Result<(), AllocError>
    requires { at < length lists.old.items }
    ensures ok { OnOk result (lists.new.items ≡ slice_set lists.old.items at (list_at lists.old.items at ++ instr ∷ [])) }
    ensures err { OnErr result (lists.new.items ≡ lists.old.items) }
{
    let list = &mut lists[at as usize];
    list.push(instr)
}

/// The instruction of a block or a loop over the list of that number.
fn block_instr(kind: BlockKind, of: Option<ValType>, body: u32) -> Instr
    ensures { result ≡ block_instr kind of body }
{
    match kind {
        BlockKind::Block => Instr::Block { of, body },
        BlockKind::Loop => Instr::Loop { of, body },
    }
}

/// The instruction of a construct that ends, whose last list has that number. An if without a second
/// arm gets a new empty list for it.
#[inline(always)]
fn wrapped(
    alloc: Global,
    lists: &mut Vec<Items<Instr>>,
    frame: Frame,
    last: u32,
) -> Result<Instr, AllocError>
    ensures ok { IfOk result (λ i. Wraps frame last lists.old.items i lists.new.items) }
    ensures err { OnErr result (lists.new.items ≡ lists.old.items) }
{
    match frame {
        Frame::Inside { construct, of, .. } => match construct {
            Construct::Block(kind) => Ok(block_instr(kind, of, last)),
            Construct::If => {
                let otherwise = add_list(alloc, lists)?;
                Ok(Instr::If {
                    of,
                    then: last,
                    otherwise,
                })
            }
        },
        Frame::Else { of, then, .. } => Ok(Instr::If {
            of,
            then,
            otherwise: last,
        }),
    }
}
