// The fields of a module, in the order of the text: WebAssembly Core 1.0, section 6.6.1.
ghost use Rattle.std.specs.Prelude.{◌≡◌, List, [], Some};
ghost use Rattle.wat_fields.specs.Items.{Items};
ghost use Rattle.wat_syntax.specs.Parsed as form;
ghost use Rattle.wat_forms.specs.FieldForms.{field_of};
ghost use Rattle.wat_syntax.specs.Parsed.{InLine};
ghost use Rattle.wat_forms.specs.Fields.{is_import, is_own, is_start, groups_of, fields_of};
ghost use Rattle.wat_syntax.specs.Seen.{at_place};
ghost use Rattle.wat_syntax.specs.SeenFields.{SeesField, ReadsField};
ghost use Rattle.wat_forms.specs.ReadFields.{ReadsInLine, ReadsFields, stands_wrong, behind, placed};

use super::fault::FormFault;
use super::field_forms::field_of;
use std::alloc::Global;
use wat_fields::{Fields, Item, Place};
use wat_syntax::{Field, FieldInLine, Refusal};

/// Which fields stand in front of a place, as far as the next one depends on it.
#[derive(Clone, Copy)]
pub(crate) struct Before {
    /// A function, a table, a memory or a global of the module's own.
    pub(crate) own: bool,
    /// A `start`.
    pub(crate) start: bool,
}

/// Whether a field is an import.
fn is_import(field: &Field<'_>) -> bool
    ensures { (said : form.Field) → SeesField field.now said → result ≡ is_import said }
{
    match field {
        Field::Import(_) => true,
        _ => false,
    }
}

/// Whether a field is a function, a table, a memory or a global of the module's own.
fn is_own(field: &Field<'_>) -> bool
    ensures { (said : form.Field) → SeesField field.now said → result ≡ is_own said }
{
    match field {
        Field::Function(_) => true,
        Field::Table(_) => true,
        Field::Memory(_) => true,
        Field::Global(_) => true,
        _ => false,
    }
}

/// Whether a field names the function with which a run starts.
fn is_start(field: &Field<'_>) -> bool
    ensures { (said : form.Field) → SeesField field.now said → result ≡ is_start said }
{
    match field {
        Field::Start(_) => true,
        _ => false,
    }
}

impl Before {
    /// Whether a field may not stand behind these.
    fn is_wrong(self, field: &Field<'_>) -> bool
        ensures { (said : form.Field) → SeesField field.now said → result ≡ stands_wrong self said }
    {
        is_import(field) && self.own || is_start(field) && self.start
    }

    /// These and a field.
    fn and(self, field: &Field<'_>) -> Before
        ensures { (said : form.Field) → SeesField field.now said → result ≡ behind self said }
    {
        Before {
            own: is_own(field) || self.own,
            start: is_start(field) || self.start,
        }
    }
}

/// What a field says that stands behind others.
fn placed_field<'a>(
    fields: &Fields<'a>,
    alloc: Global,
    inside: Place,
    before: Before,
) -> Result<Field<'a>, Refusal>
    ensures { ReadsField result (placed before (field_of (at_place fields.now inside))) }
{
    let field = field_of(fields, alloc, inside)?;
    if before.is_wrong(&field) {
        Err(Refusal::Form)
    } else {
        Ok(field)
    }
}

/// The field of a group, which stands behind others in this line. `Form` comes exactly where it has no form or may not stand there.
fn field_in_line<'a>(
    fields: &Fields<'a>,
    alloc: Global,
    line: u32,
    inside: Place,
    before: Before,
) -> Result<FieldInLine<'a>, FormFault>
    ensures { ReadsInLine line result (placed before (field_of (at_place fields.now inside))) }
{
    match placed_field(fields, alloc, inside, before) {
        Ok(field) => Ok(FieldInLine { line, field }),
        Err(Refusal::Form) => Err(FormFault::Form { line }),
        Err(Refusal::Memory) => Err(FormFault::Memory),
    }
}

/// The fields that groups say. A `Form` names the line of the first that has no form or stands where it may not.
pub fn fields_of<'a>(
    fields: &Fields<'a>,
    alloc: Global,
    at: Place,
) -> Result<Vec<FieldInLine<'a>>, FormFault>
    ensures { (groups : List (InLine Items)) → groups_of (at_place fields.now at) ≡ Some groups → ReadsFields result (fields_of [] groups) }
{
    let mut read = Vec::new(alloc);
    let mut before = Before {
        own: false,
        start: false,
    };
    let mut at = at;
    while let Some(met) = fields.item(at) {
        // groups alone stand here
        let Item::Group(line, inside) = met.item else {
            return Err(FormFault::Form { line: 1 });
        };
        match field_in_line(fields, alloc, line, inside, before) {
            Ok(one) => {
                before = before.and(&one.field);
                match read.push(one) {
                    Ok(()) => {}
                    Err(_) => return Err(FormFault::Memory),
                }
            }
            Err(fault) => return Err(fault),
        }
        at = met.behind;
    }
    Ok(read)
}
