//! What a row's thread stands at and what its memory has, as text.

use guest_state::Thread;
use interp::{Stop, Stopped};
use linear_memory::{Memory, RangeFault};
use std::alloc::{AllocError, Global};
use std::fmt::Write;
use wasm_validate::Valid;

fn write_number(text: &mut String, number: u64) -> Result<(), AllocError> {
    write!(text, "{number}")
}

fn write_hexadecimal(text: &mut String, number: u64) -> Result<(), AllocError> {
    write!(text, "{number:x}")
}

/// Writes the arguments of the call at which a thread stands.
fn write_arguments(
    text: &mut String,
    valid: &Valid,
    thread: &Thread,
    count: usize,
) -> Result<(), AllocError> {
    if thread.is_finished() || !thread.has_arguments(valid.module(), count) {
        return text.push_str("none");
    }
    let mut between = "";
    for argument in thread.arguments(valid.module(), count) {
        text.push_str(between)?;
        write_hexadecimal(text, *argument)?;
        between = " ";
    }
    Ok(())
}

/// How many arguments an imported function takes.
fn argument_count(valid: &Valid, import: u32) -> usize {
    match valid.function_type(import) {
        Some(of) => of.params.len(),
        None => 0,
    }
}

fn write_call(
    text: &mut String,
    valid: &Valid,
    thread: &Thread,
    import: u32,
) -> Result<(), AllocError> {
    text.push_str("call ")?;
    write_number(text, u64::from(import))?;
    text.push_str(" (")?;
    write_arguments(text, valid, thread, argument_count(valid, import))?;
    text.push_str(")")
}

fn write_wait(text: &mut String, width: u8, at: u32) -> Result<(), AllocError> {
    text.push_str("wait ")?;
    write_number(text, u64::from(width))?;
    text.push_str(" at ")?;
    write_hexadecimal(text, u64::from(at))
}

fn write_notify(text: &mut String, at: u32) -> Result<(), AllocError> {
    text.push_str("notify at ")?;
    write_hexadecimal(text, u64::from(at))
}

/// Writes what stands, with the arguments of a call.
fn write_stop(
    text: &mut String,
    valid: &Valid,
    thread: &Thread,
    stop: Stop,
) -> Result<(), AllocError> {
    match stop {
        Stop::Call { import } => write_call(text, valid, thread, import),
        Stop::Wait { width, at } => write_wait(text, width, at),
        Stop::Notify { at } => write_notify(text, at),
        Stop::Trap(cause) => write!(text, "trap {cause:?}"),
        Stop::Finished => text.push_str("finished"),
        Stop::Spent => text.push_str("spent"),
    }
}

/// Writes how many steps ran and what stands then.
pub fn write_stopped(
    text: &mut String,
    valid: &Valid,
    thread: &Thread,
    stopped: Stopped,
) -> Result<(), AllocError> {
    write_number(text, stopped.ran)?;
    text.push_str(" ")?;
    write_stop(text, valid, thread, stopped.stop)
}

/// Writes what a memory has at an address.
pub fn write_bytes(
    alloc: Global,
    text: &mut String,
    memory: &Memory,
    at: u32,
    length: u32,
) -> Result<(), AllocError> {
    text.push_str("; ")?;
    match memory.bytes(alloc, at, length) {
        Ok(bytes) => {
            let digits = hex::encode(alloc, bytes.as_slice())?;
            text.push_str(digits.as_str())
        }
        Err(RangeFault::Outside) => text.push_str("outside"),
        Err(RangeFault::Memory) => Err(AllocError),
    }
}
