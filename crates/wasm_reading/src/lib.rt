//! Reading of modules from the binary format of WebAssembly Core 1.0 with the threads proposal.
#![tactic(auto)]

ghost use Rattle.std.specs.Prelude.{◌≡◌, List, ℕ};
ghost use Rattle.wasm_ast.specs.SpelledModule.{SpellsModule};
ghost use Rattle.wasm_ast.specs.declared.module.Module.{Module};

mod entries;
mod exprs;
mod fault;
mod instrs;
mod modules;
mod types;
mod values;

pub use fault::ReadFault;
pub use modules::read;

/// Bytes spell at most one module.
pub fn bytes_spell_one_module()
    ensures { (bytes : List ℕ) (m n : Module) → SpellsModule bytes m → SpellsModule bytes n → m ≡ n }
{}
