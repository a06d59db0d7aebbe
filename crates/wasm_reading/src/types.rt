// Types: WebAssembly Core 1.0, section 5.3.
ghost use Rattle.std.specs.Prelude.{◌≡◌, Option};
ghost use Rattle.wasm_reading.specs.ReadAnswers.{Gives};
ghost use Rattle.wasm_reading.specs.ReadValues.{u32_at};
ghost use Rattle.wasm_reading.specs.ReadTypes.{valtype_of, valtype_at, blocktype_of, blocktype_at, functype_at, bounded_at, memory_at, unshared_at, table_at, flag_of, flag_at, globaltype_at};

use crate::fault::ReadFault;
use crate::values::{Read, next, number, vector};
use byte_cursor::Cursor;
use std::alloc::Global;
use wasm_ast::{FuncType, Limits, ValType};

impl Read for u32 {
    ghost read_at = { u32_at };

    fn read(_alloc: Global, cursor: &mut Cursor<'_>) -> Result<u32, ReadFault> {
        number(cursor)
    }
}

/// The value type of a byte.
fn valtype_of(byte: u8) -> Option<ValType>
    ensures { result ≡ valtype_of byte }
{
    match byte {
        0x7F => Some(ValType::I32),
        0x7E => Some(ValType::I64),
        0x7D => Some(ValType::F32),
        0x7C => Some(ValType::F64),
        _ => None,
    }
}

/// A value type (5.3.1).
pub(crate) fn valtype(cursor: &mut Cursor<'_>) -> Result<ValType, ReadFault>
    ensures { Gives (λ x. x) result cursor.new (valtype_at cursor.old) }
{
    valtype_of(next(cursor)?).ok_or(ReadFault::Malformed)
}

impl Read for ValType {
    ghost read_at = { valtype_at };

    fn read(_alloc: Global, cursor: &mut Cursor<'_>) -> Result<ValType, ReadFault> {
        valtype(cursor)
    }
}

/// The block type of a byte.
fn blocktype_of(byte: u8) -> Option<Option<ValType>>
    ensures { result ≡ blocktype_of byte }
{
    match byte {
        0x40 => Some(None),
        _ => Some(Some(valtype_of(byte)?)),
    }
}

/// A block type (5.3.2).
pub(crate) fn blocktype(cursor: &mut Cursor<'_>) -> Result<Option<ValType>, ReadFault>
    ensures { Gives (λ x. x) result cursor.new (blocktype_at cursor.old) }
{
    blocktype_of(next(cursor)?).ok_or(ReadFault::Malformed)
}

impl Read for FuncType {
    ghost read_at = { functype_at };

    fn read(alloc: Global, cursor: &mut Cursor<'_>) -> Result<FuncType, ReadFault> {
        if next(cursor)? != 0x60 {
            return Err(ReadFault::Malformed);
        }
        let params = vector(alloc, cursor)?;
        let results = vector(alloc, cursor)?;
        Ok(FuncType { params, results })
    }
}

/// A greatest size behind a least one.
fn bounded(cursor: &mut Cursor<'_>, shared: bool) -> Result<Limits, ReadFault>
    ensures { Gives (λ x. x) result cursor.new (bounded_at shared cursor.old) }
{
    let min = number(cursor)?;
    let max = Some(number(cursor)?);
    Ok(Limits { min, max, shared })
}

/// Limits that aren't shared, behind their flag (5.3.4).
fn unshared(cursor: &mut Cursor<'_>, flag: u8) -> Result<Limits, ReadFault>
    ensures { Gives (λ x. x) result cursor.new (unshared_at flag cursor.old) }
{
    match flag {
        0x00 => Ok(Limits {
            min: number(cursor)?,
            max: None,
            shared: false,
        }),
        0x01 => bounded(cursor, false),
        _ => Err(ReadFault::Malformed),
    }
}

/// The limits of a memory (5.3.5).
pub(crate) fn memory(cursor: &mut Cursor<'_>) -> Result<Limits, ReadFault>
    ensures { Gives (λ x. x) result cursor.new (memory_at cursor.old) }
{
    match next(cursor)? {
        0x03 => bounded(cursor, true),
        flag => unshared(cursor, flag),
    }
}

/// A table's element type and limits (5.3.6).
pub(crate) fn table(cursor: &mut Cursor<'_>) -> Result<Limits, ReadFault>
    ensures { Gives (λ x. x) result cursor.new (table_at cursor.old) }
{
    if next(cursor)? != 0x70 {
        return Err(ReadFault::Malformed);
    }
    let flag = next(cursor)?;
    unshared(cursor, flag)
}

/// Whether a global can be set (`mut`, 5.3.7).
fn flag(cursor: &mut Cursor<'_>) -> Result<bool, ReadFault>
    ensures { Gives (λ x. x) result cursor.new (flag_at cursor.old) }
{
    match next(cursor)? {
        0x00 => Ok(false),
        0x01 => Ok(true),
        _ => Err(ReadFault::Malformed),
    }
}

/// The type of a global (5.3.7), and whether it can be set.
pub(crate) fn globaltype(cursor: &mut Cursor<'_>) -> Result<(ValType, bool), ReadFault>
    ensures { Gives (λ x. x) result cursor.new (globaltype_at cursor.old) }
{
    Ok((valtype(cursor)?, flag(cursor)?))
}
