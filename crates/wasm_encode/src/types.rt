// Types: WebAssembly Core 1.0, section 5.3.
ghost use Rattle.std.specs.Prelude.{◌≡◌, ◌++◌, OnOk};
ghost use Rattle.wasm_ast.specs.SpelledTypes.{valtype_byte};
ghost use Rattle.wasm_ast.specs.CanonInstr.{block_type_byte};
ghost use Rattle.wasm_ast.specs.Canon.{canon_val_type, canon_func_type, canon_memory, canon_table, canon_global_type};

use crate::vectors::{Write, write_byte, write_pair, write_tagged, write_u32, write_vector};
use std::alloc::{AllocError, Global};
use wasm_ast::{FuncType, Limits, ValType};

/// The byte of a value type (5.3.1).
pub(crate) fn val_type_byte(of: ValType) -> u8
    ensures { result ≡ valtype_byte of }
{
    match of {
        ValType::I32 => 0x7F,
        ValType::I64 => 0x7E,
        ValType::F32 => 0x7D,
        ValType::F64 => 0x7C,
    }
}

/// The byte of a block type (5.3.2).
pub(crate) fn block_type_byte(of: Option<ValType>) -> u8
    ensures { result ≡ block_type_byte of }
{
    match of {
        None => 0x40,
        Some(of) => val_type_byte(of),
    }
}

impl Write for ValType {
    ghost written = { canon_val_type };

    fn write(&self, _alloc: Global, out: &mut Vec<u8>) -> Result<(), AllocError> {
        write_byte(out, val_type_byte(*self))
    }
}

impl Write for FuncType {
    ghost written = { canon_func_type };

    fn write(&self, alloc: Global, out: &mut Vec<u8>) -> Result<(), AllocError> {
        write_byte(out, 0x60)?;
        write_vector(alloc, out, self.params.as_slice())?;
        write_vector(alloc, out, self.results.as_slice())
    }
}

/// Appends the limits of a memory (5.3.4).
pub(crate) fn write_memory(out: &mut Vec<u8>, limits: Limits) -> Result<(), AllocError>
    ensures { OnOk result (out.new.items ≡ out.old.items ++ canon_memory limits) }
{
    let shared = if limits.shared { 0x02 } else { 0x00 };
    match limits.max {
        None => write_tagged(out, shared, limits.min),
        Some(max) => {
            write_tagged(out, shared + 1, limits.min)?;
            write_u32(out, max)
        }
    }
}

/// Appends the type of a table (5.3.6).
pub(crate) fn write_table(out: &mut Vec<u8>, limits: Limits) -> Result<(), AllocError>
    ensures { OnOk result (out.new.items ≡ out.old.items ++ canon_table limits) }
{
    write_byte(out, 0x70)?;
    write_memory(out, limits)
}

impl Write for Limits {
    ghost written = { canon_memory };

    fn write(&self, _alloc: Global, out: &mut Vec<u8>) -> Result<(), AllocError> {
        write_memory(out, *self)
    }
}

/// Appends the type of a global (5.3.7).
pub(crate) fn write_global_type(
    out: &mut Vec<u8>,
    of: ValType,
    mutable: bool,
) -> Result<(), AllocError>
    ensures { OnOk result (out.new.items ≡ out.old.items ++ canon_global_type of mutable) }
{
    let flag = if mutable { 0x01 } else { 0x00 };
    write_pair(out, val_type_byte(of), flag)
}
