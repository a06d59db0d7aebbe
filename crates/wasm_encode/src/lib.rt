//! Writing of modules in the binary format of WebAssembly Core 1.0 with the threads proposal.
#![tactic(auto)]

ghost use Rattle.std.specs.Prelude.{◌<◌, ◌≤◌, ◌^◌, List, length, ℕ, Result, Ok};
ghost use Rattle.std.specs.List.{All};
ghost use Rattle.wasm_ast.specs.Canon.{canon};
ghost use Rattle.wasm_ast.specs.SpelledModule.{SpellsModule};
ghost use Rattle.wasm_ast.specs.declared.module.Module.{Module};
ghost use Rattle.wasm_decode.specs.declared.fault.DecodeFault.{DecodeFault};
ghost use Rattle.wasm_decode.specs.Decodes.{Decodes, SpellsModest, IsUnlessMemory};

use wasm_reading::bytes_spell_one_module;

mod bodies;
mod entries;
mod instrs;
mod modules;
mod numbers;
mod types;
mod vectors;

pub use modules::encode;

/// Where bytes spell a module, the module as it is written is one of its spellings.
pub fn canon_is_a_spelling()
    ensures { (bytes : List ℕ) (m : Module) → All (λ b. b < 2 ^ 8) bytes → SpellsModule bytes m → SpellsModule (canon m) m }
{}

/// No bytes that spell a module are fewer than those of the module as it is written.
pub fn canon_is_shortest()
    ensures { (bytes : List ℕ) (m : Module) → All (λ b. b < 2 ^ 8) bytes → SpellsModule bytes m → length (canon m) ≤ length bytes }
{}

/// A module that decoding gives is decoded from what is written of it, want of memory aside: the bytes
/// that are written spell it within the limits, and no other answer is one for them.
pub fn decoded_is_read_back()
    ensures spelled { (bytes : List ℕ) (m : Module) → All (λ b. b < 2 ^ 8) bytes → SpellsModest bytes m → SpellsModest (canon m) m }
    ensures answer { (bytes : List ℕ) (m : Module) (result : Result Module DecodeFault) → All (λ b. b < 2 ^ 8) bytes → SpellsModest bytes m → Decodes (canon m) result → IsUnlessMemory result (Ok m) }
{
    bytes_spell_one_module();
}
