// Variables, exports and uses of types in front of other items: WebAssembly Core 1.0, sections 6.4 and 6.6.
ghost use Rattle.std.specs.Prelude.{◌≡◌};
ghost use Rattle.wat_syntax.specs.Immediates.{types_of, variables_of, variables_front, exports_front, use_front};
ghost use Rattle.wat_syntax.specs.Seen.{at_place, seen_variables, seen_front, seen_use, Reads, Adds};

use super::fronts::{group_of, named_at, one_name, result_at};
use super::groups::one_type;
use super::parsed::{Refusal, TypeUse, Variable};
use super::words::type_of;
use std::alloc::Global;
use wat_fields::{Fields, Item, Place};
use wat_words::is_identifier;
use wx_types::Bytes;

/// `t*` behind other variables.
fn add_types<'a>(
    fields: &Fields<'_>,
    at: Place,
    variables: &mut Vec<Variable<'a>>,
) -> Result<(), Refusal>
    ensures { Adds (seen_variables variables.old.items) (seen_variables variables.new.items) result (types_of (at_place fields.now at)) }
{
    let mut at = at;
    while let Some(met) = fields.item(at) {
        match met.item {
            Item::Word(word) => match type_of(word) {
                Some(of) => variables.push(Variable { name: None, of })?,
                None => return Err(Refusal::Form),
            },
            Item::Text(_) => return Err(Refusal::Form),
            Item::Group(_, _) => return Err(Refusal::Form),
        }
        at = met.behind;
    }
    Ok(())
}

/// `t*`, or `$id t`, behind other variables (6.4.3).
fn add_variables<'a>(
    fields: &Fields<'a>,
    at: Place,
    variables: &mut Vec<Variable<'a>>,
) -> Result<(), Refusal>
    ensures { Adds (seen_variables variables.old.items) (seen_variables variables.new.items) result (variables_of (at_place fields.now at)) }
{
    if let Some(met) = fields.item(at) {
        if let Item::Word(word) = met.item {
            if is_identifier(word) {
                match one_type(fields, met.behind) {
                    Some(of) => {
                        variables.push(Variable {
                            name: Some(word),
                            of,
                        })?;
                        return Ok(());
                    }
                    None => return Err(Refusal::Form),
                }
            }
        }
    }
    add_types(fields, at, variables)
}

/// `(param ..)*` or `(local ..)*`, by their keyword, and the place behind them.
pub fn variables_at<'a>(
    fields: &Fields<'a>,
    alloc: Global,
    of: &[u8],
    at: Place,
) -> Result<(Vec<Variable<'a>>, Place), Refusal>
    ensures { Reads (seen_front (λ vs. seen_variables vs.items) fields.now) result (variables_front of.now (at_place fields.now at)) }
{
    let mut variables = Vec::new(alloc);
    let mut at = at;
    while let Some((inside, behind)) = group_of(fields, at, of) {
        add_variables(fields, inside, &mut variables)?;
        at = behind;
    }
    Ok((variables, at))
}

/// `(export "n")*`, and the place behind them.
pub fn exports_at(
    fields: &Fields<'_>,
    alloc: Global,
    at: Place,
) -> Result<(Vec<Bytes>, Place), Refusal>
    ensures { Reads (seen_front (λ names. names.items) fields.now) result (exports_front (at_place fields.now at)) }
{
    let mut exports = Vec::new(alloc);
    let mut at = at;
    while let Some((inside, behind)) = group_of(fields, at, b"export".as_slice()) {
        exports.push(one_name(fields, alloc, inside)?)?;
        at = behind;
    }
    Ok((exports, at))
}

/// The use of a type, and the place behind it (6.6.3).
pub fn use_at<'a>(
    fields: &Fields<'a>,
    alloc: Global,
    at: Place,
) -> Result<(TypeUse<'a>, Place), Refusal>
    ensures { Reads (seen_front seen_use fields.now) result (use_front (at_place fields.now at)) }
{
    let (named, at) = named_at(fields, at)?;
    let (params, at) = variables_at(fields, alloc, b"param".as_slice(), at)?;
    let (of, at) = result_at(fields, at)?;
    Ok((TypeUse { named, params, of }, at))
}
