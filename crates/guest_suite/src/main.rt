//! The suite of the guest tools: each text is assembled, written and typed, and a line says how many bytes its module has. The
//! lengths that are expected are those of the modules that `wat2wasm` of wabt makes of the texts.
#![tactic(auto)]

use anyhow::Result;
use guest_kit::source;
use std::alloc::{AllocError, Global};
use wasm_encode::encode;
use wasm_validate::{ValidateFault, validate};
use wat_asm::{AsmFault, assemble};

/// The tools, and a name that none has.
const NAMES: [&str; 6] = ["cat", "echo", "upper", "wc", "yes_n", "tool"];

/// The most bytes of a text.
const TEXT_LIMIT: usize = 4_194_304;

/// What comes of a name.
#[derive(Clone, Copy, Debug)]
enum Found {
    NoTool,
    TooLong,
    Faulty(u32),
    Invalid,
    /// The module is valid, and has so many bytes.
    Valid(usize),
    Memory,
}

fn of_text(alloc: Global, text: &[u8]) -> Result<Found, AllocError> {
    if text.len() > TEXT_LIMIT {
        return Ok(Found::TooLong);
    }
    let module = match assemble(alloc, text) {
        Ok(module) => module,
        Err(AsmFault::Text { line, .. }) => return Ok(Found::Faulty(line)),
        Err(AsmFault::Memory) => return Ok(Found::Memory),
    };
    let len = encode(alloc, &module)?.as_slice().len();
    match validate(alloc, module) {
        Ok(_) => Ok(Found::Valid(len)),
        Err(ValidateFault::Invalid) => Ok(Found::Invalid),
        Err(ValidateFault::Memory) => Ok(Found::Memory),
    }
}

fn of_name(alloc: Global, name: &str) -> Result<Found, AllocError> {
    match source(name) {
        Some(text) => of_text(alloc, text.as_bytes()),
        None => Ok(Found::NoTool),
    }
}

fn main(rt: HostRuntime) -> Result<()> {
    for name in NAMES {
        match of_name(rt.alloc(), name)? {
            Found::NoTool => println!(rt; "{name}: no tool")?,
            Found::TooLong => println!(rt; "{name}: too long")?,
            Found::Faulty(line) => println!(rt; "{name}: a fault in line {line}")?,
            Found::Invalid => println!(rt; "{name}: not valid")?,
            Found::Valid(len) => println!(rt; "{name}: valid, {len} bytes")?,
            Found::Memory => println!(rt; "{name}: out of memory")?,
        }
    }
    Ok(())
}
