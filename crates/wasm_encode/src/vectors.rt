// Vectors and byte sequences: WebAssembly Core 1.0, section 5.1.3.
ghost use Rattle.std.specs.Prelude.{◌≡◌, ◌++◌, ◌∷◌, [], List, ℕ, OnOk};
ghost use Rattle.wasm_ast.specs.Shortest.{shortest_unsigned, canon_vec};
ghost use Rattle.wasm_ast.specs.Canon.{canon_bytes};

use crate::numbers::write_unsigned;
use std::alloc::{AllocError, Global};

/// What has a shortest form in the binary format.
pub(crate) trait Write {
    /// That form.
    ghost written: { Self → List ℕ };

    /// Appends it. `AllocError` is want of memory and nothing else; nothing is said of `out` then.
    fn write(&self, alloc: Global, out: &mut Vec<u8>) -> Result<(), AllocError>
        ensures { OnOk result (out.new.items ≡ out.old.items ++ written self.now) };
}

impl Write for u32 {
    ghost written = { shortest_unsigned };

    fn write(&self, _alloc: Global, out: &mut Vec<u8>) -> Result<(), AllocError> {
        write_u32(out, *self)
    }
}

/// Appends an unsigned number of 32 bits (`u32`, 5.2.2).
pub(crate) fn write_u32(out: &mut Vec<u8>, number: u32) -> Result<(), AllocError>
    ensures { OnOk result (out.new.items ≡ out.old.items ++ shortest_unsigned number) }
{
    write_unsigned(out, u64::from(number))
}

/// Appends a byte.
pub(crate) fn write_byte(out: &mut Vec<u8>, byte: u8) -> Result<(), AllocError>
    ensures { OnOk result (out.new.items ≡ out.old.items ++ byte ∷ []) }
{
    out.push(byte)?;
    Ok(())
}

/// Appends two bytes.
pub(crate) fn write_pair(out: &mut Vec<u8>, first: u8, second: u8) -> Result<(), AllocError>
    ensures { OnOk result (out.new.items ≡ out.old.items ++ first ∷ second ∷ []) }
{
    write_byte(out, first)?;
    write_byte(out, second)
}

/// Appends a byte and then an unsigned number of 32 bits.
pub(crate) fn write_tagged(out: &mut Vec<u8>, tag: u8, number: u32) -> Result<(), AllocError>
    ensures { OnOk result (out.new.items ≡ out.old.items ++ tag ∷ shortest_unsigned number) }
{
    write_byte(out, tag)?;
    write_u32(out, number)
}

/// Appends how many items there are, and each.
pub(crate) fn write_vector<T: Write>(
    alloc: Global,
    out: &mut Vec<u8>,
    items: &[T],
) -> Result<(), AllocError>
    ensures { OnOk result (out.new.items ≡ out.old.items ++ canon_vec T.written items.now) }
{
    write_unsigned(out, items.len() as u64)?;
    for item in items {
        item.write(alloc, out)?;
    }
    Ok(())
}

/// Appends how many bytes there are, and the bytes.
pub(crate) fn write_bytes(out: &mut Vec<u8>, bytes: &[u8]) -> Result<(), AllocError>
    ensures { OnOk result (out.new.items ≡ out.old.items ++ canon_bytes bytes.now) }
{
    write_unsigned(out, bytes.len() as u64)?;
    out.extend_from_slice(bytes)?;
    Ok(())
}
