// What fields say, with the identifiers as they stand in the text: WebAssembly Core 1.0, sections 6.4 to 6.6.
ghost use Rattle.std.specs.Prelude.{◌≡◌};
ghost use Rattle.wat_syntax.specs.declared.parsed.Refusal.TheVariants.{Memory};

use super::simple::Simple;
use std::alloc::{AllocError, AllocFailed};
use wasm_ast::{Limits, ValType};
use wx_types::Bytes;

/// Why something isn't read.
#[derive(Clone, Copy)]
pub enum Refusal {
    /// It has none of the forms.
    Form,
    /// Want of memory.
    Memory,
}

impl From<AllocError> for Refusal {
    ghost from_gives = { λ _ refusal. refusal ≡ Memory };

    fn from(_e: AllocError) -> Refusal {
        Refusal::Memory
    }
}

impl<T: Drop> From<AllocFailed<T>> for Refusal {
    ghost from_gives = { λ _ refusal. refusal ≡ Memory };

    fn from(_e: AllocFailed<T>) -> Refusal {
        Refusal::Memory
    }
}

/// An index: a number, or an identifier that is bound to it (6.3.5).
#[derive(Clone, Copy)]
pub enum Reference<'a> {
    Number(u32),
    /// With its `$`.
    Named(&'a [u8]),
}

/// A parameter or a local (6.4.3, 6.6.5).
#[derive(Clone, Copy)]
pub struct Variable<'a> {
    /// Its identifier, if it has one.
    pub name: Option<&'a [u8]>,
    pub of: ValType,
}

/// The use of a type: `(type x)`, inline parameters and a result, or both (6.6.3).
#[derive(Drop)]
pub struct TypeUse<'a> {
    pub named: Option<Reference<'a>>,
    pub params: Vec<Variable<'a>>,
    /// The type of the result, if there is one.
    pub of: Option<ValType>,
}

/// What an export names (6.6.8).
#[derive(Clone, Copy)]
pub enum Exported<'a> {
    Function(Reference<'a>),
    Table(Reference<'a>),
    Memory(Reference<'a>),
    Global(Reference<'a>),
}

/// A field for a type (6.6.2).
#[derive(Drop)]
pub struct TypeField<'a> {
    pub name: Option<&'a [u8]>,
    /// Its parameters and its result.
    pub of: TypeUse<'a>,
}

/// An import of a function or a memory (6.6.4).
#[derive(Drop)]
pub enum ImportOf<'a> {
    Function(Option<&'a [u8]>, TypeUse<'a>),
    Memory(Option<&'a [u8]>, Limits),
}

/// A field for an import (6.6.4).
#[derive(Drop)]
pub struct ImportField<'a> {
    pub from: Bytes,
    pub field: Bytes,
    pub of: ImportOf<'a>,
}

/// A field for a table (6.6.6).
#[derive(Clone, Copy)]
pub struct TableField<'a> {
    pub name: Option<&'a [u8]>,
    pub of: Limits,
}

/// A field for a memory (6.6.7).
#[derive(Drop)]
pub struct MemoryField<'a> {
    pub name: Option<&'a [u8]>,
    pub exports: Vec<Bytes>,
    pub of: Limits,
}

/// A field for a global (6.6.8).
#[derive(Drop)]
pub struct GlobalField<'a> {
    pub name: Option<&'a [u8]>,
    pub of: ValType,
    pub mutable: bool,
    /// The constant instruction that gives its first value.
    pub value: Simple,
}

/// A field for an export (6.6.9).
#[derive(Drop)]
pub struct ExportField<'a> {
    pub name: Bytes,
    pub of: Exported<'a>,
}

/// A field for an element segment (6.6.11).
#[derive(Drop)]
pub struct ElementField<'a> {
    pub offset: Simple,
    pub functions: Vec<Reference<'a>>,
}

/// A field for a data segment (6.6.12).
#[derive(Drop)]
pub struct DataField {
    pub offset: Simple,
    pub bytes: Bytes,
}
