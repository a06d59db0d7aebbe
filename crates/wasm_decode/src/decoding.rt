//! Modules from their bytes, within the limits of this project.

ghost use Rattle.std.specs.Prelude.{◌≡◌, ◌<◌, length, Ok, Err, IfOk};
ghost use Rattle.wasm_ast.specs.declared.module.Module.{Module as SpelledModule};
ghost use Rattle.wasm_decode.specs.declared.fault.Bound.{Bound as Passed};
ghost use Rattle.wasm_decode.specs.Bounds.{most_bytes};
ghost use Rattle.wasm_decode.specs.Decodes.{SpellsModest, SpellsNone, SpellsFloat, Passes, Decodes, IsUnlessMemory};
ghost use Rattle.wasm_decode.specs.Judged.{judged, unless_refused};

use crate::bounds::first_passed;
use crate::fault::{Bound, DecodeFault};
use crate::floats::types_have_float;
use crate::search::search;
use std::alloc::Global;
use wasm_ast::Module;
use wasm_reading::{ReadFault, bytes_spell_one_module, read};

const MOST_BYTES: usize = 4_194_304;

/// Why a module is refused, if it has a float or passes a limit.
fn refusal(alloc: Global, module: &Module) -> Option<DecodeFault>
    ensures { IsUnlessMemory (unless_refused module.now result) (judged module.now) }
{
    let Ok(found) = search(alloc, module) else {
        return Some(DecodeFault::Memory);
    };
    if types_have_float(module) || found.float {
        return Some(DecodeFault::Float);
    }
    let bound = first_passed(module, found.deep)?;
    Some(DecodeFault::Limit(bound))
}

/// The module, unless it has a float or passes a limit.
fn judged(alloc: Global, module: Module) -> Result<Module, DecodeFault>
    ensures { IsUnlessMemory result (judged «module») }
{
    match refusal(alloc, &module) {
        None => Ok(module),
        Some(fault) => {
            drop(module);
            Err(fault)
        }
    }
}

/// What decoding the bytes answers.
fn decoded(alloc: Global, bytes: &[u8]) -> Result<Module, DecodeFault>
    ensures { Decodes bytes.now result }
{
    if bytes.len() > MOST_BYTES {
        return Err(DecodeFault::Limit(Bound::Length));
    }
    match read(alloc, bytes) {
        Ok(module) => judged(alloc, module),
        Err(ReadFault::Malformed) => Err(DecodeFault::Malformed),
        Err(ReadFault::Memory) => Err(DecodeFault::Memory),
    }
}

/// Reads a module of WebAssembly Core 1.0 with the threads proposal from all of its bytes (5.5). The
/// faults are tested in this order:
///
/// - `Limit(Length)` exactly where there are more than 4,194,304 bytes;
/// - `Malformed` exactly where the bytes spell no module, floats included;
/// - `Float` exactly where the spelled module has a floating-point type or instruction;
/// - `Limit` exactly where it passes a limit, with the first in the order of `Bound`.
///
/// `Memory` is want of memory, and may come in the place of each answer but `Limit(Length)`.
pub fn decode(alloc: Global, bytes: &[u8]) -> Result<Module, DecodeFault>
    // Each answer comes only where it is right.
    ensures module { IfOk result (SpellsModest bytes.now) }
    ensures length_only { result ≡ Err (DecodeFault.Limit Bound.Length) → most_bytes < length bytes.now }
    ensures malformed_only { result ≡ Err DecodeFault.Malformed → SpellsNone bytes.now }
    ensures float_only { result ≡ Err DecodeFault.Float → SpellsFloat bytes.now }
    ensures limit_only { (bound : Passed) → result ≡ Err (DecodeFault.Limit bound) → Passes bytes.now bound }

    // Where it is right, it comes.
    ensures spelled { (m : SpelledModule) → SpellsModest bytes.now m → IsUnlessMemory result (Ok m) }
    ensures length { most_bytes < length bytes.now → result ≡ Err (DecodeFault.Limit Bound.Length) }
    ensures malformed { SpellsNone bytes.now → IsUnlessMemory result (Err DecodeFault.Malformed) }
    ensures float { SpellsFloat bytes.now → IsUnlessMemory result (Err DecodeFault.Float) }
    ensures limit { (bound : Passed) → Passes bytes.now bound → IsUnlessMemory result (Err (DecodeFault.Limit bound)) }
{
    bytes_spell_one_module();
    decoded(alloc, bytes)
}
