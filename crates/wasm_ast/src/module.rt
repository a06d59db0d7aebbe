// Modules: WebAssembly Core 1.0, section 2.5.
ghost use Rattle.std.specs.Prelude.{◌≡◌, IfOk};

use super::body::Body;
use super::items::{Copied, Items};
use super::locals::Locals;
use super::types::{FuncType, Limits, ValType};
use std::alloc::{AllocError, Global};
use wx_types::Bytes;

/// What an import is (2.5.11).
#[derive(Clone, Copy)]
pub enum ImportKind {
    /// A function of the type of that index.
    Func(u32),
    /// A table of at least these limits.
    Table(Limits),
    /// A memory of at least these limits.
    Memory(Limits),
    /// A global of that type.
    Global { of: ValType, mutable: bool },
}

/// An import (2.5.11).
#[derive(Drop)]
pub struct Import {
    /// The name of the module that it comes from, in UTF-8.
    pub module: Bytes,
    /// Its name there, in UTF-8.
    pub name: Bytes,
    /// What it is.
    pub kind: ImportKind,
}

/// A global of the module's own (2.5.6).
#[derive(Drop)]
pub struct GlobalVar {
    /// The type of its value.
    pub of: ValType,
    /// Whether it can be set.
    pub mutable: bool,
    /// The constant expression that gives its first value.
    pub init: Body,
}

/// What an export names, by its index (2.5.10).
#[derive(Clone, Copy)]
pub enum ExportKind {
    Func(u32),
    Table(u32),
    Memory(u32),
    Global(u32),
}

/// An export (2.5.10).
#[derive(Drop)]
pub struct Export {
    /// Its name, in UTF-8.
    pub name: Bytes,
    /// What it names.
    pub kind: ExportKind,
}

/// An element segment (2.5.7): the functions that a table holds from an offset on.
#[derive(Drop)]
pub struct Element {
    /// The index of the table.
    pub table: u32,
    /// The constant expression that gives the offset.
    pub offset: Body,
    /// The indices of the functions.
    pub functions: Items<u32>,
}

/// A data segment (2.5.8): the bytes that a memory holds from an offset on.
#[derive(Drop)]
pub struct Segment {
    /// The index of the memory.
    pub memory: u32,
    /// The constant expression that gives the offset.
    pub offset: Body,
    /// The bytes.
    pub bytes: Bytes,
}

/// A function's locals, beside its parameters, and its instructions (2.5.3).
#[derive(Drop)]
pub struct Code {
    /// The locals.
    pub locals: Locals,
    /// The instructions.
    pub body: Body,
}

/// A module (2.5). Imports come before the module's own functions, tables, memories and globals in
/// the counting of each kind.
#[derive(Drop)]
pub struct Module {
    /// The types of functions.
    pub types: Items<FuncType>,
    /// What it imports.
    pub imports: Items<Import>,
    /// The index of the type of each function of its own.
    pub functions: Items<u32>,
    /// The tables of its own.
    pub tables: Items<Limits>,
    /// The memories of its own.
    pub memories: Items<Limits>,
    /// The globals of its own.
    pub globals: Items<GlobalVar>,
    /// What it exports.
    pub exports: Items<Export>,
    /// The index of the function that is run at instantiation, if any.
    pub start: Option<u32>,
    /// The element segments.
    pub elements: Items<Element>,
    /// The locals and instructions of each function of its own.
    pub codes: Items<Code>,
    /// The data segments.
    pub segments: Items<Segment>,
}

impl Module {
    /// An equal module. `AllocError` is want of memory and nothing else.
    pub fn copy(&self, alloc: Global) -> Result<Module, AllocError>
        ensures { IfOk result (λ m. m ≡ self.now) }
    {
        Ok(Module {
            types: self.types.copy(alloc)?,
            imports: self.imports.copy(alloc)?,
            functions: self.functions.copy(alloc)?,
            tables: self.tables.copy(alloc)?,
            memories: self.memories.copy(alloc)?,
            globals: self.globals.copy(alloc)?,
            exports: self.exports.copy(alloc)?,
            start: self.start,
            elements: self.elements.copy(alloc)?,
            codes: self.codes.copy(alloc)?,
            segments: self.segments.copy(alloc)?,
        })
    }
}

impl Copied for u32 {
    fn copied(&self, _alloc: Global) -> Result<u32, AllocError> {
        Ok(*self)
    }
}

impl Copied for ValType {
    fn copied(&self, _alloc: Global) -> Result<ValType, AllocError> {
        Ok(*self)
    }
}

impl Copied for Limits {
    fn copied(&self, _alloc: Global) -> Result<Limits, AllocError> {
        Ok(*self)
    }
}

impl Copied for FuncType {
    fn copied(&self, alloc: Global) -> Result<FuncType, AllocError> {
        Ok(FuncType {
            params: self.params.copy(alloc)?,
            results: self.results.copy(alloc)?,
        })
    }
}

impl Copied for Import {
    fn copied(&self, alloc: Global) -> Result<Import, AllocError> {
        Ok(Import {
            module: self.module.copy(alloc)?,
            name: self.name.copy(alloc)?,
            kind: self.kind,
        })
    }
}

impl Copied for GlobalVar {
    fn copied(&self, alloc: Global) -> Result<GlobalVar, AllocError> {
        Ok(GlobalVar {
            of: self.of,
            mutable: self.mutable,
            init: self.init.copy(alloc)?,
        })
    }
}

impl Copied for Export {
    fn copied(&self, alloc: Global) -> Result<Export, AllocError> {
        Ok(Export {
            name: self.name.copy(alloc)?,
            kind: self.kind,
        })
    }
}

impl Copied for Element {
    fn copied(&self, alloc: Global) -> Result<Element, AllocError> {
        Ok(Element {
            table: self.table,
            offset: self.offset.copy(alloc)?,
            functions: self.functions.copy(alloc)?,
        })
    }
}

impl Copied for Segment {
    fn copied(&self, alloc: Global) -> Result<Segment, AllocError> {
        Ok(Segment {
            memory: self.memory,
            offset: self.offset.copy(alloc)?,
            bytes: self.bytes.copy(alloc)?,
        })
    }
}

impl Copied for Code {
    fn copied(&self, alloc: Global) -> Result<Code, AllocError> {
        Ok(Code {
            locals: self.locals.copy(alloc)?,
            body: self.body.copy(alloc)?,
        })
    }
}
