// The group of a module: WebAssembly Core 1.0, section 6.6.1.
ghost use Rattle.std.specs.Prelude.{◌≡◌};
ghost use Rattle.std.specs.Option.{is_some, option_map};
ghost use Rattle.wat_forms.specs.Fields.{module_inside, groups_of};
ghost use Rattle.wat_syntax.specs.Seen.{at_place};

use wat_fields::{Fields, Item, Place};
use wat_syntax::{identifier_at, is_end, keyed_at};

/// The place behind `module $id?` where one such group is all that stands at a place.
pub fn module_inside(fields: &Fields<'_>, at: Place) -> Option<Place>
    ensures { option_map (at_place fields.now) result ≡ module_inside (at_place fields.now at) }
{
    match keyed_at(fields, at) {
        Some(group) => {
            if group.keyword != b"module".as_slice() || !is_end(fields, group.behind) {
                return None;
            }
            let (_, inside) = identifier_at(fields, group.inside);
            Some(inside)
        }
        None => None,
    }
}

/// Whether groups alone stand at a place.
pub fn are_groups(fields: &Fields<'_>, at: Place) -> bool
    ensures { result ≡ is_some (groups_of (at_place fields.now at)) }
{
    let mut at = at;
    while let Some(met) = fields.item(at) {
        match met.item {
            Item::Word(_) => return false,
            Item::Text(_) => return false,
            Item::Group(_, _) => {}
        }
        at = met.behind;
    }
    true
}
