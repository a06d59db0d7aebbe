// Laws of fields.
ghost use Rattle.std.specs.Prelude.{◌≡◌, ◌↔◌, List, Some};
ghost use Rattle.wat_tokens.specs.Tokens.{Token};
ghost use Rattle.wat_fields.specs.Items.{Items, flat, items_of};

/// Tokens are items exactly where these are written with the tokens. So tokens are at most one list of items, and items are
/// written in one way.
pub fn items_are_written_so()
    ensures { (tokens : List Token) (items : Items) → (items_of tokens ≡ Some items) ↔ (flat items ≡ tokens) }
{}
