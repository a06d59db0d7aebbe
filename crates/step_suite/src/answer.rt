//! What comes of a row.
ghost use Rattle.std.specs.Prelude.{◌≡◌, ◌≤◌, ◌<◌, ◌+◌, ◌∷◌, [], length, IfOk, OnOk, IfSome, option_to_list, unwrap_or, true};
ghost use Rattle.std.specs.Bool.{OnTrue};
ghost use Rattle.guest_state.specs.Fits.{Accepts, Fits, HaveTypes};
ghost use Rattle.guest_state.specs.Module.{own_function};
ghost use Rattle.guest_state.specs.Snapshot.{thread_of};
ghost use Rattle.wasm_steps.specs.Kept.{IsAnswer};
ghost use Rattle.wasm_steps.specs.Stepped.{Stepped};
ghost use Rattle.wasm_steps.specs.Step.{step};
ghost use Rattle.interp.specs.Stops.{stop_of};

use super::row::Row;
use super::text::{write_bytes, write_stopped};
use guest_state::Thread;
use interp::{Stop, Stopped, advance};
use linear_memory::Memory;
use std::alloc::{AllocError, Global};
use wasm_ast::{FuncType, Module, ValType};
use wasm_validate::Valid;

/// So many steps that no row takes more.
pub const WHOLE: u64 = 0x1_0000_0000;

/// Whether a number is a value of that type.
fn has_type(of: ValType, value: u64) -> bool
    ensures { OnTrue result (HaveTypes (of ∷ []) (value ∷ [])) }
{
    match of {
        ValType::I32 | ValType::F32 => value < 0x1_0000_0000,
        ValType::I64 | ValType::F64 => true,
    }
}

/// Whether numbers are values of these types.
fn have_types(types: &[ValType], values: &[u64]) -> bool
    ensures { OnTrue result (HaveTypes types.now values.now) }
{
    if types.len() != values.len() {
        return false;
    }
    for i in 0..types.len() {
        if !has_type(types[i], values[i]) {
            return false;
        }
    }
    true
}

/// Whether a value, or none, is what a function of that type gives.
fn is_result(of: &FuncType, value: Option<u64>) -> bool
    ensures { OnTrue result (HaveTypes of.now.results (option_to_list value)) }
{
    let results = of.results.as_slice();
    match value {
        Some(value) => have_types(results, &[value]),
        None => results.is_empty(),
    }
}

/// A memory as the module begins with, without data.
fn memory_of(alloc: Global, module: &Module) -> Result<Option<Memory>, AllocError> {
    let (min, max, shared) = match module.memories.as_slice().first() {
        Some(limits) => (limits.min, limits.max.unwrap_or(65_536), limits.shared),
        None => (0, 0, false),
    };
    if min > 256 {
        return Ok(None);
    }
    let memory = Memory::new(alloc, min, max, shared)?;
    Ok(Some(memory))
}

/// Whether a function, given by its index, is one of the module's own that takes these arguments.
fn accepts(valid: &Valid, function: u32, arguments: &[u64]) -> bool
    ensures { OnTrue result (Accepts valid.now (own_function valid.now function) arguments.now) }
{
    let imported = valid.imported_functions();
    if (function as usize) < imported {
        return false;
    }
    let module = valid.module();
    let own = function as usize - imported;
    if module.codes.as_slice().get(own).is_none() {
        return false;
    }
    let Some(of) = module.functions.as_slice().get(own) else {
        return false;
    };
    match module.types.as_slice().get(*of as usize) {
        Some(of) => have_types(of.params.as_slice(), arguments),
        None => false,
    }
}

/// A thread that begins a function, given by its index, if the module has such a one of its own.
fn started(
    alloc: Global,
    valid: &Valid,
    function: u32,
    arguments: &[u64],
) -> Result<Option<Thread>, AllocError>
    ensures { IfOk result (λ thread. IfSome thread (λ t. Fits valid.now (thread_of valid.now t))) }
{
    let module = valid.module();
    if !accepts(valid, function, arguments)
        || !Thread::can_start(module, function, arguments.len())
    {
        return Ok(None);
    }
    let thread = Thread::start(alloc, module, function, arguments, true)?;
    Ok(Some(thread))
}

/// The thread with which a row begins.
fn begun(alloc: Global, valid: &Valid, row: &Row) -> Result<Option<Thread>, AllocError>
    ensures { IfOk result (λ thread. IfSome thread (λ t. Fits valid.now (thread_of valid.now t))) }
{
    let mut started = started(alloc, valid, row.function, row.arguments.as_slice())?;
    if let Some(thread) = &mut started {
        if row.marked {
            thread.mark_full();
        }
    }
    Ok(started)
}

/// Runs a thread in slices of so many steps until something stands.
fn until_stop(
    valid: &Valid,
    memory: &mut Memory,
    thread: &mut Thread,
    slice: u64,
) -> Result<Stopped, AllocError>
    requires { Fits valid.now (thread_of valid.now thread.old) }
    ensures { OnOk result (Fits valid.now (thread_of valid.now thread.new)) }
{
    let mut ran: u64 = 0;
    for _ in 0..u64::MAX {
        let stopped = advance(valid, memory, thread, slice)?;
        ran = ran.saturating_add(stopped.ran);
        match stopped.stop {
            Stop::Spent if stopped.ran == slice => {}
            stop => return Ok(Stopped { ran, stop }),
        }
    }
    Ok(Stopped {
        ran,
        stop: Stop::Spent,
    })
}

/// How many arguments what stands takes, if that value may answer it.
fn answered(valid: &Valid, stop: Stop, value: Option<u64>) -> Option<usize>
    ensures { IfSome result (λ count. (stepped : Stepped) → stop ≡ unwrap_or (stop_of stepped) Stop.Spent → IsAnswer valid.now stepped count value) }
{
    match stop {
        Stop::Call { import } => {
            let of = valid.function_type(import)?;
            if is_result(of, value) {
                Some(of.params.len())
            } else {
                None
            }
        }
        Stop::Wait { .. } => match value {
            Some(value) if value < 0x1_0000_0000 => Some(3),
            _ => None,
        },
        Stop::Notify { .. } => match value {
            Some(value) if value < 0x1_0000_0000 => Some(2),
            _ => None,
        },
        _ => None,
    }
}

/// Whether a value, or none, finds room among so many values once so many of them are taken.
fn finds_room(values: usize, count: usize, value: Option<u64>) -> bool
    requires { values ≤ 65536 }
    ensures { OnTrue result (values + length (option_to_list value) ≤ 65536 + count) }
{
    value.is_none() || count > 0 || values < 65_536
}

/// Answers what stands, and says whether that value may answer it.
fn answer(
    valid: &Valid,
    memory: &Memory,
    thread: &mut Thread,
    stop: Stop,
    value: Option<u64>,
) -> bool
    requires fits { Fits valid.now (thread_of valid.now thread.old) }
    requires stands { stop ≡ unwrap_or (stop_of (step valid.now memory.now (thread_of valid.now thread.old))) Stop.Spent }
    ensures { Fits valid.now (thread_of valid.now thread.new) }
{
    let _pages = memory.size();
    let Some(count) = answered(valid, stop, value) else {
        return false;
    };
    let module = valid.module();
    if thread.is_finished() || !thread.has_arguments(module, count) {
        return false;
    }
    if !finds_room(thread.value_count(), count, value) {
        return false;
    }
    thread.answer(module, count, value);
    true
}

/// Runs on to what stands next, and writes how many steps that took and what it is.
fn write_next(
    text: &mut String,
    valid: &Valid,
    memory: &mut Memory,
    thread: &mut Thread,
    slice: u64,
) -> Result<Stop, AllocError>
    requires { Fits valid.now (thread_of valid.now thread.old) }
    ensures { OnOk result (Fits valid.now (thread_of valid.now thread.new)) }
{
    let stopped = until_stop(valid, memory, thread, slice)?;
    write_stopped(text, valid, thread, stopped)?;
    Ok(stopped.stop)
}

/// Answers what stands and runs on to what stands next, which it writes behind the rest; `None` where that value may not
/// answer it.
fn write_answered(
    text: &mut String,
    valid: &Valid,
    memory: &mut Memory,
    thread: &mut Thread,
    slice: u64,
    value: Option<u64>,
) -> Result<Option<Stop>, AllocError>
    requires { Fits valid.now (thread_of valid.now thread.old) }
    ensures { OnOk result (Fits valid.now (thread_of valid.now thread.new)) }
{
    let stopped = advance(valid, memory, thread, 0)?;
    if !answer(valid, memory, thread, stopped.stop, value) {
        return Ok(None);
    }
    text.push_str("; ")?;
    let stop = write_next(text, valid, memory, thread, slice)?;
    Ok(Some(stop))
}

/// Whether a thread that stands at something runs on, or stands at something else, when it is asked again.
fn moves(
    valid: &Valid,
    memory: &mut Memory,
    thread: &mut Thread,
    stop: Stop,
) -> Result<bool, AllocError>
    requires { Fits valid.now (thread_of valid.now thread.old) }
{
    let same = Stopped { ran: 0, stop };
    Ok(advance(valid, memory, thread, 0)? != same || advance(valid, memory, thread, 2)? != same)
}

/// Writes at what a thread stands, each time until all is answered; whether each answer fits.
fn write_run(
    text: &mut String,
    valid: &Valid,
    memory: &mut Memory,
    thread: &mut Thread,
    slice: u64,
    answers: &[Option<u64>],
) -> Result<bool, AllocError>
    requires { Fits valid.now (thread_of valid.now thread.old) }
{
    let mut stop = write_next(text, valid, memory, thread, slice)?;
    for value in answers {
        match write_answered(text, valid, memory, thread, slice, *value)? {
            Some(next) => stop = next,
            None => return Ok(false),
        }
    }
    if moves(valid, memory, thread, stop)? {
        text.push_str("; moves")?;
    }
    Ok(true)
}

/// Writes what comes of a row whose thread is about to run; whether each answer fits.
fn write_row(
    alloc: Global,
    text: &mut String,
    valid: &Valid,
    memory: &mut Memory,
    thread: &mut Thread,
    row: &Row,
    slice: u64,
) -> Result<bool, AllocError>
    requires { Fits valid.now (thread_of valid.now thread.old) }
{
    if !write_run(text, valid, memory, thread, slice, row.answers.as_slice())? {
        return Ok(false);
    }
    if let Some((at, length)) = row.shown {
        write_bytes(alloc, text, memory, at, length)?;
    }
    Ok(true)
}

/// The same as a text.
fn text_of(
    alloc: Global,
    valid: &Valid,
    memory: &mut Memory,
    thread: &mut Thread,
    row: &Row,
    slice: u64,
) -> Result<Option<String>, AllocError>
    requires { Fits valid.now (thread_of valid.now thread.old) }
{
    let mut text = String::new(alloc);
    let fits = write_row(alloc, &mut text, valid, memory, thread, row, slice)?;
    Ok(if fits { Some(text) } else { None })
}

/// What comes of a row over that memory.
fn answer_over(
    alloc: Global,
    valid: &Valid,
    memory: &mut Memory,
    row: &Row,
    slice: u64,
) -> Result<Option<String>, AllocError> {
    match begun(alloc, valid, row)? {
        Some(mut thread) => text_of(alloc, valid, memory, &mut thread, row, slice),
        None => Ok(None),
    }
}

/// What comes of a row whose thread runs in slices of so many steps, or `None` where the module has no such function or
/// memory, or where an answer doesn't fit.
pub fn answer_of(
    alloc: Global,
    valid: &Valid,
    row: &Row,
    slice: u64,
) -> Result<Option<String>, AllocError> {
    match memory_of(alloc, valid.module())? {
        Some(mut memory) => answer_over(alloc, valid, &mut memory, row, slice),
        None => Ok(None),
    }
}
