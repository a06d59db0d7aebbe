// The entries of sections: WebAssembly Core 1.0, section 5.5.
ghost use Rattle.std.specs.Prelude.{◌≡◌, ◌++◌, OnOk};
ghost use Rattle.wasm_ast.specs.Canon.{canon_import_kind, canon_import, canon_global, canon_export_kind, canon_export, canon_element, canon_segment, canon_group, canon_func, canon_code};

use crate::bodies::write_expr;
use crate::types::{val_type_byte, write_global_type, write_memory, write_table};
use crate::vectors::{Write, write_byte, write_bytes, write_tagged, write_u32, write_vector};
use std::alloc::{AllocError, Global};
use wasm_ast::{
    Code, Element, Export, ExportKind, GlobalVar, Import, ImportKind, LocalGroup, Segment,
};

/// Appends what an import is (5.5.5).
fn write_import_kind(out: &mut Vec<u8>, kind: ImportKind) -> Result<(), AllocError>
    ensures { OnOk result (out.new.items ≡ out.old.items ++ canon_import_kind kind) }
{
    match kind {
        ImportKind::Func(of) => write_tagged(out, 0x00, of),
        ImportKind::Table(limits) => {
            write_byte(out, 0x01)?;
            write_table(out, limits)
        }
        ImportKind::Memory(limits) => {
            write_byte(out, 0x02)?;
            write_memory(out, limits)
        }
        ImportKind::Global { of, mutable } => {
            write_byte(out, 0x03)?;
            write_global_type(out, of, mutable)
        }
    }
}

impl Write for Import {
    ghost written = { canon_import };

    fn write(&self, _alloc: Global, out: &mut Vec<u8>) -> Result<(), AllocError> {
        write_bytes(out, self.module.as_slice())?;
        write_bytes(out, self.name.as_slice())?;
        write_import_kind(out, self.kind)
    }
}

impl Write for GlobalVar {
    ghost written = { canon_global };

    fn write(&self, alloc: Global, out: &mut Vec<u8>) -> Result<(), AllocError> {
        write_global_type(out, self.of, self.mutable)?;
        write_expr(alloc, out, &self.init)
    }
}

/// Appends what an export names (5.5.10).
fn write_export_kind(out: &mut Vec<u8>, kind: ExportKind) -> Result<(), AllocError>
    ensures { OnOk result (out.new.items ≡ out.old.items ++ canon_export_kind kind) }
{
    match kind {
        ExportKind::Func(index) => write_tagged(out, 0x00, index),
        ExportKind::Table(index) => write_tagged(out, 0x01, index),
        ExportKind::Memory(index) => write_tagged(out, 0x02, index),
        ExportKind::Global(index) => write_tagged(out, 0x03, index),
    }
}

impl Write for Export {
    ghost written = { canon_export };

    fn write(&self, _alloc: Global, out: &mut Vec<u8>) -> Result<(), AllocError> {
        write_bytes(out, self.name.as_slice())?;
        write_export_kind(out, self.kind)
    }
}

impl Write for Element {
    ghost written = { canon_element };

    fn write(&self, alloc: Global, out: &mut Vec<u8>) -> Result<(), AllocError> {
        write_u32(out, self.table)?;
        write_expr(alloc, out, &self.offset)?;
        write_vector(alloc, out, self.functions.as_slice())
    }
}

impl Write for Segment {
    ghost written = { canon_segment };

    fn write(&self, alloc: Global, out: &mut Vec<u8>) -> Result<(), AllocError> {
        write_u32(out, self.memory)?;
        write_expr(alloc, out, &self.offset)?;
        write_bytes(out, self.bytes.as_slice())
    }
}

impl Write for LocalGroup {
    ghost written = { canon_group };

    fn write(&self, _alloc: Global, out: &mut Vec<u8>) -> Result<(), AllocError> {
        write_u32(out, self.count)?;
        write_byte(out, val_type_byte(self.of))
    }
}

/// Appends the locals and the instructions of a function (5.5.13), without their size.
fn write_func(alloc: Global, out: &mut Vec<u8>, code: &Code) -> Result<(), AllocError>
    ensures { OnOk result (out.new.items ≡ out.old.items ++ canon_func code.now) }
{
    write_vector(alloc, out, code.locals.groups())?;
    write_expr(alloc, out, &code.body)
}

impl Write for Code {
    ghost written = { canon_code };

    fn write(&self, alloc: Global, out: &mut Vec<u8>) -> Result<(), AllocError> {
        let mut func = Vec::new(alloc);
        write_func(alloc, &mut func, self)?;
        write_bytes(out, func.as_slice())
    }
}
