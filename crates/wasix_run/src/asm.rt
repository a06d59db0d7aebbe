// The module of a text, in the binary format.
ghost use Rattle.std.specs.Prelude.{◌≡◌, ◌≤◌, ◌<◌, ℕ, List, length, IfErr, OnOk, Some};
ghost use Rattle.wx_types.specs.Files.{Files};
ghost use Rattle.wat_asm.specs.Assembled.{assembled};
ghost use Rattle.wasix_run.specs.Judging.{assembled_verdict, asm_verdict};
ghost use Rattle.wasix_run.specs.Loading.{Counts, WritesAs};

use crate::file_fault::{FileFault, read};
use std::alloc::Global;
use wasm_encode::encode;
use wat_asm::{AsmFault, assemble};
use wx_types::{Bytes, Shelf};

/// A text has at most so many bytes.
pub const TEXT_LIMIT: u64 = 4_194_304;

// the bytes of the module of a text
fn bytes_of_text(alloc: Global, text: &[u8]) -> Result<Bytes, FileFault>
    requires { length text.now ≤ TEXT_LIMIT }
    ensures counts { IfErr result (λ fault. (count now : ℕ) → now ≡ count → Counts fault count now) }
    ensures told { (out : List ℕ) → WritesAs out (assembled_verdict out (assembled text.now)) result }
{
    match assemble(alloc, text) {
        Ok(module) => match encode(alloc, &module) {
            Ok(bytes) => Ok(bytes),
            Err(_) => Err(FileFault::Memory),
        },
        Err(AsmFault::Text { line, kind }) => Err(FileFault::Text { line, kind }),
        Err(AsmFault::Memory) => Err(FileFault::Memory),
    }
}

/// The bytes of the module of the text of this name. The refusals are tested in the order of the text's read and
/// length, and what is wrong with it.
pub fn module_bytes<H: Shelf>(alloc: Global, shelf: &mut H, text: &str) -> Result<Bytes, FileFault>
    ensures told { (files : Files) (out : List ℕ) → H.held shelf.old ≡ Some files → WritesAs out (asm_verdict files text.now out) result }
    ensures kept { H.held shelf.new ≡ H.held shelf.old }
    ensures never_falls { H.faults shelf.old ≤ H.faults shelf.new }
    ensures no_fault { OnOk result (H.faults shelf.new ≡ H.faults shelf.old) }
    ensures fault { IfErr result (λ fault. Counts fault (H.faults shelf.old) (H.faults shelf.new)) }
{
    match read(alloc, shelf, text, TEXT_LIMIT) {
        Ok(bytes) => bytes_of_text(alloc, bytes.as_slice()),
        Err(fault) => Err(fault),
    }
}
