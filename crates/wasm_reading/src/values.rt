// Numbers, bytes, names and vectors: WebAssembly Core 1.0, sections 5.1 and 5.2.
ghost use Rattle.std.specs.Prelude.{◌≡◌, ℕ, List, ◌∷◌, [], Option};
ghost use Rattle.std.specs.Str.{is_utf8};
ghost use Rattle.wasm_reading.specs.ReadAnswers.{Gives};
ghost use Rattle.wasm_reading.specs.ReadValues.{next_at, u32_at, i32_at, i64_at, span_at, bytes_at, name_at, each_at, vec_at};

use crate::fault::ReadFault;
use byte_cursor::Cursor;
use std::alloc::Global;
use std::str;
use wasm_ast::Items;
use wx_types::Bytes;

/// What is read from the front of a cursor.
pub(crate) trait Read: Drop {
    /// What reading gives.
    ghost read_at: { List ℕ → Option (Self × List ℕ) };

    /// Reads one.
    fn read(alloc: Global, cursor: &mut Cursor<'_>) -> Result<Self, ReadFault>
        ensures { Gives (λ x. x) result cursor.new (read_at cursor.old) };
}

/// A byte.
pub(crate) fn next(cursor: &mut Cursor<'_>) -> Result<u8, ReadFault>
    ensures { Gives (λ x. x) result cursor.new (next_at cursor.old) }
{
    Ok(cursor.byte()?)
}

/// An unsigned number of 32 bits (`u32`, 5.2.2).
#[tactic(auto, unfolding(crate::specs::ReadValues::u32_at))]
pub(crate) fn number(cursor: &mut Cursor<'_>) -> Result<u32, ReadFault>
    ensures { Gives (λ x. x) result cursor.new (u32_at cursor.old) }
{
    Ok(cursor.u32_leb()?)
}

/// A signed number of 32 bits (`i32`, 5.2.2).
#[tactic(auto, unfolding(crate::specs::ReadValues::i32_at))]
pub(crate) fn signed_32(cursor: &mut Cursor<'_>) -> Result<i32, ReadFault>
    ensures { Gives (λ x. x) result cursor.new (i32_at cursor.old) }
{
    Ok(cursor.i32_leb()?)
}

/// A signed number of 64 bits (`i64`, 5.2.2).
#[tactic(auto, unfolding(crate::specs::ReadValues::i64_at))]
pub(crate) fn signed_64(cursor: &mut Cursor<'_>) -> Result<i64, ReadFault>
    ensures { Gives (λ x. x) result cursor.new (i64_at cursor.old) }
{
    Ok(cursor.i64_leb()?)
}

/// So many bytes.
pub(crate) fn span<'a>(cursor: &mut Cursor<'a>, n: u32) -> Result<&'a [u8], ReadFault>
    ensures { Gives (λ x. x.now) result cursor.new (span_at n cursor.old) }
{
    Ok(cursor.take(n as usize)?)
}

/// How many bytes, and so many (`vec(byte)`, 5.1.3).
pub(crate) fn bytes<'a>(cursor: &mut Cursor<'a>) -> Result<&'a [u8], ReadFault>
    ensures { Gives (λ x. x.now) result cursor.new (bytes_at cursor.old) }
{
    let n = number(cursor)?;
    span(cursor, n)
}

/// Whether the bytes are UTF-8.
fn is_name(bytes: &[u8]) -> bool
    ensures { result ≡ is_utf8 bytes.now }
{
    match str::from_utf8(bytes) {
        Ok(_) => true,
        Err(_) => false,
    }
}

/// A name (5.2.4).
pub(crate) fn name<'a>(cursor: &mut Cursor<'a>) -> Result<&'a [u8], ReadFault>
    ensures { Gives (λ x. x.now) result cursor.new (name_at cursor.old) }
{
    let name = bytes(cursor)?;
    if !is_name(name) {
        return Err(ReadFault::Malformed);
    }
    Ok(name)
}

/// So many items. Memory is taken only for items that were read.
fn items<T: Read>(alloc: Global, cursor: &mut Cursor<'_>, n: u32) -> Result<Vec<T>, ReadFault>
    ensures { Gives (λ x. x.items) result cursor.new (each_at T.read_at n cursor.old) }
{
    let mut items = Vec::new(alloc);
    for _ in 0..n {
        items.push(T::read(alloc, cursor)?)?;
    }
    Ok(items)
}

/// A vector (5.1.3).
pub(crate) fn vector<T: Read>(alloc: Global, cursor: &mut Cursor<'_>) -> Result<Items<T>, ReadFault>
    ensures { Gives (λ x. x) result cursor.new (vec_at T.read_at cursor.old) }
{
    let n = number(cursor)?;
    Ok(Items::from_vec(items(alloc, cursor, n)?))
}
