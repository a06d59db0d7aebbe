// What a thread takes from its module.
ghost use Rattle.std.specs.Prelude.{◌≡◌, ◌+◌, ◌<◌, ◌^◌, if◌then◌else◌, length, IfOk, IsSome, option_copied};
ghost use Rattle.wasm_ast.specs.TypingModule.{functions_of, globals_of};
ghost use Rattle.wasm_ast.specs.Locals.{total};
ghost use Rattle.wasm_ast.specs.Position.{IsInstrAt, behind, remaining};
ghost use Rattle.guest_state.specs.Steps.{over_arguments, over_instruction};
ghost use Rattle.guest_state.specs.Module.{body_of, own_function, type_of, further_locals, first_globals, param_count, result_count, first_value};

use super::entries::OpenFrame;
use std::alloc::{AllocError, Global};
use wasm_ast::{
    FuncType, GlobalVar, Import, ImportKind, Instr, LocalGroup, Module, Position, ValType,
};

/// How many of the imports are functions.
fn imported_functions(imports: &[Import]) -> usize
    ensures { result ≡ length (functions_of imports.now) }
{
    let mut count: usize = 0;
    for import in imports {
        if let ImportKind::Func(_) = import.kind {
            count += 1;
        }
    }
    count
}

/// How many of the imports are globals.
fn imported_globals(imports: &[Import]) -> usize
    ensures { result ≡ length (globals_of imports.now) }
{
    let mut count: usize = 0;
    for import in imports {
        if let ImportKind::Global { .. } = import.kind {
            count += 1;
        }
    }
    count
}

/// The number among the module's own functions of the function of that index.
pub fn own_function(module: &Module, function: u32) -> u32
    ensures { result ≡ own_function «module».now function }
{
    let imported = imported_functions(module.imports.as_slice());
    if imported > function as usize {
        return 0;
    }
    function - imported as u32
}

/// How many locals there are in groups.
#[inline(always)]
fn group_total(groups: &[LocalGroup]) -> usize
    requires { total groups.now < 2 ^ 32 }
    ensures { result ≡ total groups.now }
{
    let mut count: usize = 0;
    for group in groups {
        count += group.count as usize;
    }
    count
}

/// How many locals the module's own function of that number has beside its parameters.
#[inline(always)]
pub fn further_locals(module: &Module, function: u32) -> usize
    ensures value { result ≡ further_locals «module».now function }
    ensures fits { result < 2 ^ 32 }
{
    let Some(code) = module.codes.as_slice().get(function as usize) else {
        return 0;
    };
    group_total(code.locals.groups())
}

/// The type of the module's own function of that number.
#[inline(always)]
fn type_of(module: &Module, function: u32) -> Option<&FuncType>
    ensures { option_copied result ≡ type_of «module».now function }
{
    let of = module.functions.as_slice().get(function as usize)?;
    module.types.as_slice().get(*of as usize)
}

/// How many parameters it has.
#[inline(always)]
pub fn params(module: &Module, function: u32) -> usize
    ensures { result ≡ param_count (type_of «module».now function) }
{
    match type_of(module, function) {
        Some(of) => of.params.len(),
        None => 0,
    }
}

/// Whether it gives a value back.
#[inline(always)]
pub fn returns(module: &Module, function: u32) -> bool
    ensures { (if result then 1 else 0) ≡ result_count (type_of «module».now function) }
{
    match type_of(module, function) {
        Some(of) => !of.results.is_empty(),
        None => false,
    }
}

/// The first value of a global.
fn first_value(global: &GlobalVar) -> u64
    ensures { result ≡ first_value global.now }
{
    let value = global.init.constant_value();
    match global.of {
        ValType::I32 | ValType::F32 => value % 0x1_0000_0000,
        ValType::I64 | ValType::F64 => value,
    }
}

/// The first values of a module's globals. `AllocError` is want of memory and nothing else.
pub fn first_globals(alloc: Global, module: &Module) -> Result<Vec<u64>, AllocError>
    ensures { IfOk result (λ v. v.items ≡ first_globals «module».now) }
{
    let imported = imported_globals(module.imports.as_slice());
    let mut values = vec![in alloc; 0; imported]?;
    for global in module.globals.as_slice() {
        values.push(first_value(global))?;
    }
    Ok(values)
}

/// The instruction at which a frame stands, if it isn't at the end of a list.
fn instruction(module: &Module, frame: OpenFrame) -> Option<&Instr>
    ensures value { IsInstrAt (body_of «module».now frame.function) frame.place (option_copied result) }
    ensures room { IsSome result → frame.place.index + 1 < 2 ^ 64 }
{
    match module.codes.as_slice().get(frame.function as usize) {
        Some(code) => code.body.at(frame.place),
        None => None,
    }
}

/// How many operands stand above the arguments of an instruction.
fn over_instruction(instr: &Instr) -> usize
    ensures { result ≡ over_instruction instr.now }
{
    match instr {
        Instr::CallIndirect(_) => 1,
        _ => 0,
    }
}

/// How many operands stand above the arguments at the place of a frame.
pub fn over_arguments(module: &Module, frame: OpenFrame) -> usize
    ensures { result ≡ over_arguments (remaining (body_of «module».now frame.function) frame.place) }
{
    match instruction(module, frame) {
        Some(instr) => over_instruction(instr),
        None => 0,
    }
}

/// The place behind the next instruction of a frame, if there is one.
pub fn behind_instruction(module: &Module, frame: OpenFrame) -> Position
    ensures { remaining (body_of «module».now frame.function) result ≡ behind 1 (remaining (body_of «module».now frame.function) frame.place) }
{
    match instruction(module, frame) {
        Some(_) => frame.place.next(),
        None => frame.place,
    }
}
