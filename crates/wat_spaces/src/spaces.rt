// The identifiers that fields bind: WebAssembly Core 1.0, sections 6.3.5 and 6.6.1.
ghost use Rattle.std.specs.Prelude.{◌≡◌, [], ◌∷◌, ◌++◌, IfOk};
ghost use Rattle.wat_spaces.specs.KeptSpaces.{no_names, import_with, spaces_with, import_rebinds, kept_rebinds, spaces_of_kept};

use super::names::Names;
use std::alloc::{AllocError, Global};
use wat_syntax::{Field, FieldInLine, ImportOf};

/// The identifiers of each space.
#[derive(Drop)]
pub struct Spaces<'a> {
    pub types: Names<'a>,
    pub functions: Names<'a>,
    pub tables: Names<'a>,
    pub memories: Names<'a>,
    pub globals: Names<'a>,
}

impl<'a> Spaces<'a> {
    /// None yet. No memory is taken.
    pub fn new(alloc: Global) -> Spaces<'a>
        ensures { result ≡ no_names }
    {
        Spaces {
            types: Names::new(alloc),
            functions: Names::new(alloc),
            tables: Names::new(alloc),
            memories: Names::new(alloc),
            globals: Names::new(alloc),
        }
    }

    /// Whether a field binds a name that is bound in its space.
    pub fn rebinds(&self, field: &Field<'_>) -> bool
        ensures { result ≡ kept_rebinds self.now field.now }
    {
        match field {
            Field::Type(field) => self.types.is_taken(field.name),
            Field::Import(field) => match field.of {
                ImportOf::Function(name, _) => self.functions.is_taken(name),
                ImportOf::Memory(name, _) => self.memories.is_taken(name),
            },
            Field::Function(field) => self.functions.is_taken(field.name),
            Field::Table(field) => self.tables.is_taken(field.name),
            Field::Memory(field) => self.memories.is_taken(field.name),
            Field::Global(field) => self.globals.is_taken(field.name),
            _ => false,
        }
    }

    /// With the identifier of an import behind them.
    fn with_import(self, alloc: Global, of: &ImportOf<'a>) -> Result<Spaces<'a>, AllocError>
        ensures { IfOk result (λ spaces. spaces ≡ import_with self.entry of.now) }
    {
        match of {
            ImportOf::Function(name, _) => {
                let functions = self.functions.with(alloc, *name)?;
                Ok(Spaces { functions, ..self })
            }
            ImportOf::Memory(name, _) => {
                let memories = self.memories.with(alloc, *name)?;
                Ok(Spaces { memories, ..self })
            }
        }
    }

    /// With the identifier of a field behind them, if it has one.
    pub fn with(self, alloc: Global, field: &Field<'a>) -> Result<Spaces<'a>, AllocError>
        ensures { IfOk result (λ spaces. spaces ≡ spaces_with self.entry field.now) }
    {
        match field {
            Field::Type(field) => {
                let types = self.types.with(alloc, field.name)?;
                Ok(Spaces { types, ..self })
            }
            Field::Import(field) => self.with_import(alloc, &field.of),
            Field::Function(field) => {
                let functions = self.functions.with(alloc, field.name)?;
                Ok(Spaces { functions, ..self })
            }
            Field::Table(field) => {
                let tables = self.tables.with(alloc, field.name)?;
                Ok(Spaces { tables, ..self })
            }
            Field::Memory(field) => {
                let memories = self.memories.with(alloc, field.name)?;
                Ok(Spaces { memories, ..self })
            }
            Field::Global(field) => {
                let globals = self.globals.with(alloc, field.name)?;
                Ok(Spaces { globals, ..self })
            }
            _ => Ok(self),
        }
    }
}

/// The identifiers of all fields.
pub fn spaces_of<'a>(alloc: Global, fields: &[FieldInLine<'a>]) -> Result<Spaces<'a>, AllocError>
    ensures { IfOk result (λ spaces. spaces ≡ spaces_of_kept no_names fields.now) }
{
    let mut spaces = Spaces::new(alloc);
    for field in fields {
        spaces = spaces.with(alloc, &field.field)?;
    }
    Ok(spaces)
}
