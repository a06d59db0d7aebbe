// The text of a body from its start to its end: WebAssembly Core 1.0, section 2.4.
ghost use Rattle.std.specs.Prelude.{◌≡◌, ◌∷◌, IfOk, IfSome, None};
ghost use Rattle.wasm_ast.specs.Opened.{opened_by};

use super::body::Body;
use super::instr::{BlockKind, Construct, Instr};
use super::types::ValType;
use std::alloc::{AllocError, Global};
use std::marker::Model;
use std::mem;

/// What comes next in the text of a body.
#[derive(Clone, Copy)]
pub enum Event<'a> {
    /// An instruction without inner instructions.
    Instruction(&'a Instr),
    /// The beginning of a block, a loop or an if, with the type of what it leaves.
    Begin(Construct, Option<ValType>),
    /// The end of the first arm of an if, and the beginning of the second. Whether that has no
    /// instructions.
    Else { is_empty: bool },
    /// The end of a block, a loop or an if.
    End,
}

/// What comes where the innermost list is at its end.
#[derive(Clone, Copy)]
pub(crate) struct Outer<'a> {
    /// The instructions that come then.
    pub(crate) rest: &'a [Instr],
    /// How many constructs end in front of them: one, or none where they are the second arm of an if. A word, since
    /// room that holds nothing would be filled at each push.
    pub(crate) ends: usize,
}

/// A walk over a body from its start to its end, over a stack of what comes behind the list that is open.
/// Contracts see the events that are still to come. The end of the body itself is none.
#[derive(Drop)]
pub struct Walk<'a> {
    body: &'a Body,
    rest: &'a [Instr],
    outer: Vec<Outer<'a>>,
}

impl<'a> Model for Walk<'a> {
    ghost use Rattle.std.specs.Prelude.{List, reverse};
    ghost use Rattle.wasm_ast.specs.Events.{Event};

    ghost Value = { List Event };

    ghost use Rattle.wasm_ast.specs.Walk.{walk_events};

    ghost view = { λ w. walk_events w.body.now w.rest.now (reverse w.outer.items) };
}

impl<'a> Walk<'a> {
    ghost use Rattle.wasm_ast.specs.Events.{events, Instruction};
    ghost use Rattle.wasm_ast.specs.Walk.{Follows, first_plain};

    /// A walk at the start of a body. No memory is taken.
    pub fn new(alloc: Global, body: &'a Body) -> Walk<'a>
        ensures { result ≡ events body.now }
    {
        Walk {
            body,
            rest: body.list(0),
            outer: Vec::new(alloc),
        }
    }

    /// The instruction that comes next, if it has no inner instructions. Otherwise the walk stays where it is.
    #[inline(always)]
    pub fn plain(&mut self) -> Option<&'a Instr>
        ensures taken { IfSome result (λ instr. self.old ≡ Instruction instr.now ∷ self.new) }
        ensures left { result ≡ None → self.new ≡ self.old }
        ensures none { result ≡ None → first_plain self.old ≡ None }
    {
        let (instr, rest) = self.rest.split_first()?;
        if opened_by(instr).is_some() {
            return None;
        }
        self.rest = rest;
        Some(instr)
    }

    /// What comes next, if anything. `AllocError` is want of memory and nothing else; what comes next
    /// isn't said then.
    #[inline(always)]
    pub fn next(&mut self) -> Result<Option<Event<'a>>, AllocError>
        ensures { IfOk result (λ e. Follows self.old e self.new) }
    {
        if let Some((instr, rest)) = self.rest.split_first() {
            let Some(inner) = opened_by(instr) else {
                self.rest = rest;
                return Ok(Some(Event::Instruction(instr)));
            };
            // Taken out while it grows, for which its address is needed: otherwise the walk would be kept in memory.
            let mut outer = mem::try_take(&mut self.outer)?;
            outer.push(Outer { rest, ends: 1 })?;
            self.rest = self.body.list(inner.first);
            let begin = Event::Begin(inner.construct, inner.of);
            let Some(second) = inner.second else {
                self.outer = outer;
                return Ok(Some(begin));
            };
            let rest = self.body.list(second);
            outer.push(Outer { rest, ends: 0 })?;
            self.outer = outer;
            return Ok(Some(begin));
        }
        let Some(outer) = self.outer.pop() else {
            return Ok(None);
        };
        self.rest = outer.rest;
        if outer.ends == 0 {
            let is_empty = self.rest.is_empty();
            return Ok(Some(Event::Else { is_empty }));
        }
        Ok(Some(Event::End))
    }
}

/// What an instruction with inner instructions begins.
#[derive(Clone, Copy)]
pub(crate) struct Inner {
    pub(crate) construct: Construct,
    pub(crate) of: Option<ValType>,
    /// The number of its list, or of that of the first arm.
    pub(crate) first: u32,
    /// The number of the list of the second arm of an if.
    pub(crate) second: Option<u32>,
}

/// What an instruction begins, if it has inner instructions.
fn opened_by(instr: &Instr) -> Option<Inner>
    ensures { result ≡ opened_by instr.now }
{
    match instr {
        Instr::Block { of, body } => Some(Inner {
            construct: Construct::Block(BlockKind::Block),
            of: *of,
            first: *body,
            second: None,
        }),
        Instr::Loop { of, body } => Some(Inner {
            construct: Construct::Block(BlockKind::Loop),
            of: *of,
            first: *body,
            second: None,
        }),
        Instr::If {
            of,
            then,
            otherwise,
        } => Some(Inner {
            construct: Construct::If,
            of: *of,
            first: *then,
            second: Some(*otherwise),
        }),
        _ => None,
    }
}
