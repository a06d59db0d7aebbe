// Programs from the bytes of modules.
ghost use Rattle.std.specs.Prelude.{◌≡◌, [], true, false, filter_map, None, Result, Err, IfOk, IfErr, OnOk};
ghost use Rattle.std.specs.List.{list_all};
ghost use Rattle.wasm_ast.specs.TypingModule.{globals_of};
ghost use Rattle.wasm_decode.specs.Bounds.{first_passed};
ghost use Rattle.instance.specs.Kept.{HasExports, IsProgram};
ghost use Rattle.instance.specs.Links.{import_call, import_links, linked, program_of, segments_fit};
ghost use Rattle.instance.specs.Loads.{IsUnlessMemory, Loads, answer_of};
ghost use Rattle.instance.specs.Program.{Program as LinkedProgram, memory_limits};
ghost use Rattle.instance.specs.declared.fault.LoadFault.{LoadFault as Fault};

use crate::exports::{ExportKind, by_name, exported_function};
use crate::fault::LoadFault;
use crate::links::{are_built, call_numbers};
use crate::program::Program;
use crate::segments::{memory_limits, segments_fit};
use crate::waits::any_waits;
use std::alloc::Global;
use std::collections::BTreeMap;
use wasm_ast::{ExportKind as Exported, Limits, Module};
use wasm_decode::{DecodeFault, decode};
use wasm_reading::bytes_spell_one_module;
use wasm_validate::{Valid, ValidateFault, validate};

/// What linking finds: the numbers of the calls, what each name is exported as, where the program begins, and the limits
/// of its memory.
struct Linking {
    calls: Vec<u16>,
    exports: BTreeMap<Vec<u8>, Exported>,
    main: u32,
    memory: Option<Limits>,
}

/// `SegmentOutside` exactly where a segment passes the table or the memory as it is at first.
fn check_segments(module: &Module) -> Result<(), LoadFault>
    requires { globals_of «module».now.imports ≡ [] }
    ensures fit { OnOk result (segments_fit «module».now ≡ true) }
    ensures outside { IfErr result (λ fault. (fault ≡ LoadFault.SegmentOutside) × (segments_fit «module».now ≡ false)) }
{
    if segments_fit(module) {
        Ok(())
    } else {
        Err(LoadFault::SegmentOutside)
    }
}

/// Where the program begins that a typed module is which passes no limit and whose imports are these calls, or the first
/// fault of what is left of linking.
fn begun(
    alloc: Global,
    valid: &Valid,
    calls: &[u16],
    exports: &BTreeMap<Vec<u8>, Exported>,
) -> Result<u32, LoadFault>
    requires modest { first_passed valid.now ≡ None }
    requires calls { calls.now ≡ filter_map (import_call valid.now) valid.now.imports }
    requires links { list_all (import_links valid.now) valid.now.imports ≡ true }
    requires exports { HasExports valid.now.exports exports.now }
    ensures program { IfOk result (λ main. IsProgram valid.now calls.now main (memory_limits valid.now)) }
    ensures answer { IsUnlessMemory (answer_of (program_of valid.now) result) (linked valid.now) }
{
    let module = valid.module();
    let Some(main) = exported_function(
        valid,
        exports,
        b"_start".as_slice(),
        ExportKind::Start.params(),
    ) else {
        return Err(LoadFault::Unlinked);
    };
    check_segments(module)?;
    if !are_built(calls) || any_waits(alloc, module)? {
        return Err(LoadFault::NotYet);
    }
    Ok(main)
}

/// What linking finds of a typed module that passes no limit, or the first fault of linking.
fn linked(alloc: Global, valid: &Valid) -> Result<Linking, LoadFault>
    requires { first_passed valid.now ≡ None }
    ensures program { IfOk result (λ found. IsProgram valid.now found.calls.items found.main found.memory) }
    ensures exports { IfOk result (λ found. HasExports valid.now.exports found.exports) }
    ensures answer { IsUnlessMemory (answer_of (program_of valid.now) result) (linked valid.now) }
{
    let module = valid.module();
    let Some(calls) = call_numbers(alloc, module)? else {
        return Err(LoadFault::Unlinked);
    };
    let exports = by_name(alloc, module.exports.as_slice())?;
    let main = begun(alloc, valid, calls.as_slice(), &exports)?;
    let memory = memory_limits(module);
    Ok(Linking {
        calls,
        exports,
        main,
        memory,
    })
}

/// The program that a module is which passes no limit, or its first fault.
fn validated(alloc: Global, module: Module) -> Result<Program, LoadFault>
    requires { first_passed «module» ≡ None }
    ensures { IsUnlessMemory result (linked «module») }
{
    match validate(alloc, module) {
        Ok(valid) => match linked(alloc, &valid) {
            Ok(
                Linking {
                    calls,
                    exports,
                    main,
                    memory,
                },
            ) => Ok(Program {
                valid,
                calls,
                exports,
                main,
                memory,
            }),
            Err(fault) => {
                drop(valid);
                Err(fault)
            }
        },
        Err(ValidateFault::Invalid) => Err(LoadFault::Invalid),
        Err(ValidateFault::Memory) => Err(LoadFault::Memory),
    }
}

/// What loading the bytes answers.
fn loaded(alloc: Global, bytes: &[u8]) -> Result<Program, LoadFault>
    ensures { Loads bytes.now result }
{
    match decode(alloc, bytes) {
        Ok(module) => validated(alloc, module),
        Err(DecodeFault::Malformed) => Err(LoadFault::Malformed),
        Err(DecodeFault::Float) => Err(LoadFault::Float),
        Err(DecodeFault::Limit(bound)) => Err(LoadFault::Limit(bound)),
        Err(DecodeFault::Memory) => Err(LoadFault::Memory),
    }
}

/// Loads a program from all bytes of a module in the binary format. The faults are tested in this order:
///
/// - `Limit(Length)` exactly where there are more than 4,194,304 bytes;
/// - `Malformed` exactly where the bytes spell no module, floats included;
/// - `Float` exactly where the module has a floating-point type or instruction;
/// - `Limit` exactly where it passes a limit, with the first in the order of `Bound`;
/// - `Invalid` exactly where it isn't typed;
/// - `Unlinked` exactly where an import is neither a call with its type nor the memory `memory` of `env`, or where no
///   function of the module's own that takes and gives nothing is exported as `_start`;
/// - `SegmentOutside` exactly where an element or data segment passes the table or the memory as it is at first;
/// - `NotYet` exactly where it imports a call other than `fd_write` and `proc_exit`, or has a wait or a notify.
///
/// `Memory` is want of memory, and may come in the place of each answer but `Limit(Length)`.
pub fn load(alloc: Global, bytes: &[u8]) -> Result<Program, LoadFault>
    // The answer comes only where it is right.
    ensures answer { Loads bytes.now result }
    // Where an answer is right, it comes.
    ensures comes { (answer : Result LinkedProgram Fault) → Loads bytes.now answer → (answer ≡ Err LoadFault.Memory → ⊥) → IsUnlessMemory result answer }
{
    bytes_spell_one_module();
    loaded(alloc, bytes)
}
