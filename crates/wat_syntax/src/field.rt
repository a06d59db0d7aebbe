// What a field says, and in which line: WebAssembly Core 1.0, section 6.6.

use super::parsed::{
    DataField, ElementField, ExportField, GlobalField, ImportField, MemoryField, Reference,
    TableField, TypeField,
};
use super::steps::FunctionField;

/// A field of a module.
#[derive(Drop)]
pub enum Field<'a> {
    Type(TypeField<'a>),
    Import(ImportField<'a>),
    Function(FunctionField<'a>),
    Table(TableField<'a>),
    Memory(MemoryField<'a>),
    Global(GlobalField<'a>),
    Export(ExportField<'a>),
    /// The function with which a run starts (6.6.10).
    Start(Reference<'a>),
    Element(ElementField<'a>),
    Data(DataField),
}

/// A field, with the number of the line of its parenthesis.
#[derive(Drop)]
pub struct FieldInLine<'a> {
    pub line: u32,
    pub field: Field<'a>,
}
