// Instructions that have no inner instructions: WebAssembly Core 1.0, section 6.5.
ghost use Rattle.std.specs.Prelude.{◌≡◌, IfOk};
ghost use Rattle.wasm_ast.specs.Built.{NamesNone};

use std::alloc::{AllocError, Global};
use std::marker::Model;
use wasm_ast::{Copied, Instr};

/// An instruction that has no inner instructions. Contracts see the instruction.
#[derive(Drop)]
pub struct Simple {
    instr: Instr,
}

impl Model for Simple {
    ghost use Rattle.wasm_ast.specs.declared.instr.Instr.{Instr};
    ghost use Rattle.wasm_ast.specs.Built.{NamesNone};

    ghost Value = { Instr };

    ghost view = { λ s. s.instr };

    ghost invariant = { λ s. NamesNone s.instr };
}

impl Simple {
    /// This instruction.
    pub fn new(instr: Instr) -> Simple
        requires { NamesNone instr }
        ensures { result ≡ instr }
    {
        Simple { instr }
    }

    /// An equal instruction. `AllocError` is want of memory.
    pub fn instr(&self, alloc: Global) -> Result<Instr, AllocError>
        ensures equal { IfOk result (λ i. i ≡ self.now) }
        ensures simple { IfOk result (λ i. NamesNone i) }
    {
        self.instr.copied(alloc)
    }
}
