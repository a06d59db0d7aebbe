// The module of a text: WebAssembly Core 1.0, chapter 6.
ghost use Rattle.std.specs.Prelude.{◌≡◌, ◌≤◌, ℕ, length, List, Some, Result, Err};
ghost use Rattle.wat_fields.specs.Items.{Items, items_of};
ghost use Rattle.wat_fields.specs.Remaining.{remaining};
ghost use Rattle.wat_syntax.specs.Parsed.{Field, InLine};
ghost use Rattle.wat_forms.specs.Fields.{groups_of};
ghost use Rattle.wat_forms.specs.ReadFields.{ReadsFields};
ghost use Rattle.wat_asm.specs.Assembled.{if_formed, module_of_groups, module_of_items};
ghost use Rattle.wat_syntax.specs.Seen.{at_place};
ghost use Rattle.wat_asm.specs.Answers.{Answers, Assembles};

use super::fault::{AsmFault, AsmKind};
use super::module::module_of_fields;
use std::alloc::Global;
use wasm_ast::Module;
use wat_fields::{Fields, FieldsFault, Place};
use wat_forms::{FormFault, are_groups, fields_of, module_inside};
use wat_tokens::{TokenFault, Tokens};

/// What is wrong with a text whose groups aren't fields.
fn formless(fault: FormFault) -> AsmFault
    ensures { (fields : Result (List (InLine Field)) ℕ) → ReadsFields (Err fault) fields → Answers (if_formed fields) (Err result) }
{
    match fault {
        FormFault::Form { line } => AsmFault::Text {
            line,
            kind: AsmKind::Syntax,
        },
        FormFault::Memory => AsmFault::Memory,
    }
}

/// The module of groups that say fields.
fn module_of_groups(alloc: Global, fields: &Fields<'_>, at: Place) -> Result<Module, AsmFault>
    ensures { (groups : List (InLine Items)) → groups_of (at_place fields.now at) ≡ Some groups → Answers (module_of_groups (Some groups)) result }
{
    match fields_of(fields, alloc, at) {
        Ok(read) => module_of_fields(alloc, read.as_slice()),
        Err(fault) => Err(formless(fault)),
    }
}

/// The module of items.
fn module_of_items(alloc: Global, fields: &Fields<'_>) -> Result<Module, AsmFault>
    ensures { Answers (module_of_items (Some (remaining fields.now 0))) result }
{
    match module_inside(fields, Place::start()) {
        Some(inside) => {
            if are_groups(fields, inside) {
                module_of_groups(alloc, fields, inside)
            } else {
                Err(AsmFault::Text {
                    line: 1,
                    kind: AsmKind::Syntax,
                })
            }
        }
        None => Err(AsmFault::Text {
            line: 1,
            kind: AsmKind::Syntax,
        }),
    }
}

/// The module of tokens.
fn module_of_tokens(alloc: Global, tokens: Tokens<'_>) -> Result<Module, AsmFault>
    ensures { Answers (module_of_items (items_of tokens.entry)) result }
{
    match Fields::part(alloc, tokens) {
        Ok(fields) => module_of_items(alloc, &fields),
        Err(FieldsFault::Unbalanced) => Err(AsmFault::Text {
            line: 1,
            kind: AsmKind::Syntax,
        }),
        Err(FieldsFault::Memory) => Err(AsmFault::Memory),
    }
}

/// The module of a text of at most 4,194,304 bytes. A text has at most one module. `Text` comes exactly where it has none, with
/// the kind of the first fault that applies, in the order of `AsmKind`, and its line; lines end with the byte 0A and count from 1.
/// `Memory` is want of memory. What is assembled need not be valid.
pub fn assemble(alloc: Global, text: &[u8]) -> Result<Module, AsmFault>
    requires { length text.now ≤ 4194304 }
    ensures { Assembles text.now result }
{
    match Tokens::read(alloc, text) {
        Ok(tokens) => module_of_tokens(alloc, tokens),
        Err(TokenFault::Wrong(line)) => Err(AsmFault::Text {
            line,
            kind: AsmKind::Token,
        }),
        Err(TokenFault::Memory) => Err(AsmFault::Memory),
    }
}
