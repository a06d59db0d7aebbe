// The module of fields: WebAssembly Core 1.0, section 6.6.1.
ghost use Rattle.std.specs.Prelude.{◌≡◌, List};
ghost use Rattle.wat_syntax.specs.Parsed.{Field, InLine};
ghost use Rattle.wat_meaning.specs.Meaning.{nothing};
ghost use Rattle.wat_asm.specs.Assembled.{module_of_fields};
ghost use Rattle.wat_syntax.specs.SeenFields.{SeesFields};
ghost use Rattle.wat_spaces.specs.KeptSpaces.{no_names};
ghost use Rattle.wat_asm.specs.Taken.{all_taken, module_kept};
ghost use Rattle.wat_asm.specs.Answers.{Answers};

use super::fault::{AsmFault, AsmKind};
use super::take::take;
use std::alloc::Global;
use wasm_ast::{Items, Module};
use wat_spaces::{Bindings, Spaces, Unmeant, spaces_of, types_of};
use wat_syntax::FieldInLine;

/// A module of nothing.
fn nothing(alloc: Global) -> Module
    ensures { result ≡ nothing }
{
    Module {
        types: Items::new(alloc),
        imports: Items::new(alloc),
        functions: Items::new(alloc),
        tables: Items::new(alloc),
        memories: Items::new(alloc),
        globals: Items::new(alloc),
        exports: Items::new(alloc),
        start: None,
        elements: Items::new(alloc),
        codes: Items::new(alloc),
        segments: Items::new(alloc),
    }
}

/// The parts of a module that fields give, without its types; or the line of the first field with a fault of names.
fn parts_of<'a>(
    alloc: Global,
    bindings: &Bindings<'a>,
    fields: &[FieldInLine<'a>],
) -> Result<Module, AsmFault>
    ensures { Answers (all_taken bindings.now no_names fields.now nothing) result }
{
    let mut before = Spaces::new(alloc);
    let mut module = nothing(alloc);
    for field in fields {
        if before.rebinds(&field.field) {
            return Err(AsmFault::Text {
                line: field.line,
                kind: AsmKind::Name,
            });
        }
        match take(alloc, bindings, &before, &field.field, &mut module) {
            Ok(()) => {}
            Err(Unmeant::Name) => {
                return Err(AsmFault::Text {
                    line: field.line,
                    kind: AsmKind::Name,
                });
            }
            Err(Unmeant::Memory) => return Err(AsmFault::Memory),
        }
        before = before.with(alloc, &field.field)?;
    }
    Ok(module)
}

/// The module of fields as the code keeps them.
fn module_kept(alloc: Global, fields: &[FieldInLine<'_>]) -> Result<Module, AsmFault>
    ensures { Answers (module_kept fields.now) result }
{
    let of = types_of(alloc, fields)?;
    let names = spaces_of(alloc, fields)?;
    let bindings = Bindings { of, names };
    let mut module = parts_of(alloc, &bindings, fields)?;
    let Bindings { of, .. } = bindings;
    module.types = of.into_types();
    Ok(module)
}

/// The module of fields, or the line of the first that binds an identifier anew, or uses one that is bound nowhere, or whose use of
/// a type means none.
pub(crate) fn module_of_fields(
    alloc: Global,
    fields: &[FieldInLine<'_>],
) -> Result<Module, AsmFault>
    ensures { (said : List (InLine Field)) → SeesFields fields.now said → Answers (module_of_fields said) result }
{
    module_kept(alloc, fields)
}
