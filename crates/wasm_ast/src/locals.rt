// The locals of a function: WebAssembly Core 1.0, section 2.5.3.
ghost use Rattle.std.specs.Prelude.{◌≡◌, [], ◌∷◌, ◌++◌, ◌+◌, ◌<◌, ◌^◌, IfOk, OnOk, OnErr};
ghost use Rattle.std.specs.Bool.{OnTrue, OnFalse};
ghost use Rattle.wasm_ast.specs.Locals.{AreLocals, added, joined, total};

use super::types::ValType;
use std::alloc::{AllocError, Global};
use std::marker::Model;

/// Neighbouring locals of one type.
#[derive(Clone, Copy)]
pub struct LocalGroup {
    /// How many there are.
    pub count: u32,
    /// Their type.
    pub of: ValType,
}

/// The locals of a function beside its parameters, fewer than 2^32, as groups: none is empty, and
/// neighbours differ in type. Contracts see the list of the groups.
#[derive(Drop)]
pub struct Locals {
    groups: Vec<LocalGroup>,
}

impl Model for Locals {
    ghost use Rattle.std.specs.Prelude.{List};
    ghost use Rattle.wasm_ast.specs.declared.locals.LocalGroup.{LocalGroup};

    ghost Value = { List LocalGroup };

    ghost use Rattle.wasm_ast.specs.Locals.{AreLocals};

    ghost view = { λ l. l.groups.items };

    ghost invariant = { λ l. AreLocals l.groups.items };
}

impl Locals {
    /// No locals. No memory is taken.
    pub fn new(alloc: Global) -> Locals
        ensures { result ≡ [] }
    {
        Locals {
            groups: Vec::new(alloc),
        }
    }

    /// The groups in their order.
    pub fn groups(&self) -> &[LocalGroup]
        ensures value { result.now ≡ self.now }
        ensures locals { AreLocals result.now }
    {
        self.groups.as_slice()
    }

    /// Adds so many locals of one type behind the others. `AllocError` is want of memory and nothing
    /// else; the locals are unchanged then.
    pub fn add(&mut self, count: u32, of: ValType) -> Result<(), AllocError>
        requires { total self.old + count < 2 ^ 32 }
        ensures ok { OnOk result (self.new ≡ added self.old (record { count = count; of = of })) }
        ensures err { OnErr result (self.new ≡ self.old) }
    {
        if count == 0 || joins_last(&mut self.groups, count, of) {
            return Ok(());
        }
        self.groups.push(LocalGroup { count, of })?;
        Ok(())
    }

    /// Equal locals. `AllocError` is want of memory and nothing else.
    pub fn copy(&self, alloc: Global) -> Result<Locals, AllocError>
        ensures { IfOk result (λ l. l ≡ self.now) }
    {
        let groups = Vec::from_slice(alloc, self.groups.as_slice())?;
        Ok(Locals { groups })
    }
}

/// Joins the locals to the last group, if that is of their type, and says whether it did.
fn joins_last(groups: &mut Vec<LocalGroup>, count: u32, of: ValType) -> bool
    requires { total groups.old.items + count < 2 ^ 32 }
    ensures yes { OnTrue result (groups.new.items ≡ joined groups.old.items (record { count = count; of = of })) }
    ensures no { OnFalse result ((groups.new.items ≡ groups.old.items) × (joined groups.old.items (record { count = count; of = of }) ≡ groups.old.items ++ record { count = count; of = of } ∷ [])) }
{
    let len = groups.len();
    if len == 0 {
        return false;
    }
    let last = &mut groups[len - 1];
    if !last.of.is(of) {
        return false;
    }
    last.count += count;
    true
}
