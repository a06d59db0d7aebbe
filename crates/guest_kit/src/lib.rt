//! The guest tools, as texts of WebAssembly's text format. docs/GUEST_TOOLS.md says what each does.
#![tactic(auto)]

ghost use Rattle.std.specs.Prelude.{◌≢◌, MatchOption};
ghost use Rattle.guest_kit.specs.declared.tool.Tool.{Tool};
ghost use Rattle.guest_kit.specs.Tools.{name_of, IsTextOf};

mod cat;
mod echo;
mod tool;
mod upper;
mod wc;
mod yes_n;

use tool::tool_named;

/// The text of the tool of a name, or `None` where no tool has that name. The names are `cat`, `echo`, `upper`, `wc` and
/// `yes_n`.
pub fn source(name: &str) -> Option<&'static str>
    ensures { MatchOption result ((tool : Tool) → name_of tool ≢ name.now) (λ text. IsTextOf text.now name.now) }
{
    match tool_named(name) {
        Some(tool) => Some(tool.text()),
        None => None,
    }
}
