//! Whether a module's instructions have a float, and whether their blocks are nested too deep, in one
//! walk over each body.

ghost use Rattle.std.specs.Prelude.{◌≡◌, ◌≤◌, ◌||◌, IfOk};
ghost use Rattle.std.specs.List.{list_any};
ghost use Rattle.wasm_ast.specs.Sequence.{Sequence};
ghost use Rattle.wasm_ast.specs.Walk.{event_of};
ghost use Rattle.wasm_decode.specs.Bodies.{any_body};
ghost use Rattle.wasm_decode.specs.Floats.{has_float};
ghost use Rattle.wasm_decode.specs.Bounds.{is_deep};
ghost use Rattle.wasm_decode.specs.Search.{event_is_float, level_behind, passes};

use crate::floats::block_is_float;
use std::alloc::{AllocError, Global};
use wasm_ast::{Body, Code, Element, Event, GlobalVar, Instr, Module, Segment, Walk};

/// The most constructs that may be open.
const MOST_OPEN: u16 = 256;

/// What was found.
#[derive(Clone, Copy)]
pub(crate) struct Found {
    /// An instruction on floating-point numbers, or a block whose type is one.
    pub(crate) float: bool,
    /// More constructs that are open than there may be.
    pub(crate) deep: bool,
}

/// What is found with an event, and how many constructs are open behind it, as far as that many may be.
#[inline(always)]
fn with_event(event: Event<'_>, found: Found, level: u16) -> (Found, u16)
    requires { level ≤ 256 }
    ensures float { result.0.float ≡ (found.float || event_is_float (event_of event.entry)) }
    ensures deep { result.0.deep ≡ (found.deep || passes (event_of event.entry) level) }
    ensures level { result.1 ≡ level_behind (event_of event.entry) level }
{
    let Found { float, deep } = found;
    match event {
        Event::Instruction(instr) => {
            let float = float || matches!(instr, Instr::Float);
            (Found { float, deep }, level)
        }
        Event::Begin(_, of) => {
            let float = float || block_is_float(of);
            let deep = deep || level >= MOST_OPEN;
            (Found { float, deep }, (level + 1).min(MOST_OPEN))
        }
        Event::Else { .. } => (found, level),
        Event::End => (found, level.saturating_sub(1)),
    }
}

/// What was found before, and in a body.
fn search_body(alloc: Global, body: &Body, mut found: Found) -> Result<Found, AllocError>
    ensures float { IfOk result (λ f. f.float ≡ (found.float || has_float body.now)) }
    ensures deep { IfOk result (λ f. f.deep ≡ (found.deep || is_deep body.now)) }
{
    let mut walk = Walk::new(alloc, body);
    let mut level = 0;
    'events: while let Some(event) = walk.next()? {
        (found, level) = with_event(event, found, level);
    }
    Ok(found)
}

/// What has instructions.
trait HasBody {
    /// Them.
    ghost instructions: { Self → Sequence };

    /// Them.
    fn body(&self) -> &Body
        ensures { result.now ≡ instructions self.now };
}

impl HasBody for GlobalVar {
    ghost instructions = { λ g. g.init };

    fn body(&self) -> &Body {
        &self.init
    }
}

impl HasBody for Element {
    ghost instructions = { λ e. e.offset };

    fn body(&self) -> &Body {
        &self.offset
    }
}

impl HasBody for Code {
    ghost instructions = { λ c. c.body };

    fn body(&self) -> &Body {
        &self.body
    }
}

impl HasBody for Segment {
    ghost instructions = { λ s. s.offset };

    fn body(&self) -> &Body {
        &self.offset
    }
}

/// What was found before, and in all of these.
fn search_each<T: HasBody>(
    alloc: Global,
    items: &[T],
    mut found: Found,
) -> Result<Found, AllocError>
    ensures float { IfOk result (λ f. f.float ≡ (found.float || list_any (λ x. has_float (T.instructions x)) items.now)) }
    ensures deep { IfOk result (λ f. f.deep ≡ (found.deep || list_any (λ x. is_deep (T.instructions x)) items.now)) }
{
    for item in items {
        found = search_body(alloc, item.body(), found)?;
    }
    Ok(found)
}

/// What is found in the instructions of a module.
pub(crate) fn search(alloc: Global, module: &Module) -> Result<Found, AllocError>
    ensures float { IfOk result (λ f. f.float ≡ any_body has_float module.now) }
    ensures deep { IfOk result (λ f. f.deep ≡ any_body is_deep module.now) }
{
    let mut found = Found {
        float: false,
        deep: false,
    };
    found = search_each(alloc, module.globals.as_slice(), found)?;
    found = search_each(alloc, module.elements.as_slice(), found)?;
    found = search_each(alloc, module.codes.as_slice(), found)?;
    search_each(alloc, module.segments.as_slice(), found)
}
