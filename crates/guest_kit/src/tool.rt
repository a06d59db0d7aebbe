// The tools, with their names and texts.
ghost use Rattle.std.specs.Prelude.{◌≡◌, ◌≢◌, MatchOption};
ghost use Rattle.guest_kit.specs.declared.tool.Tool.{Tool};
ghost use Rattle.guest_kit.specs.Tools.{name_of, text_of};

use super::cat::CAT;
use super::echo::ECHO;
use super::upper::UPPER;
use super::wc::WC;
use super::yes_n::YES_N;

/// A guest tool. docs/GUEST_TOOLS.md says what each does.
#[derive(Clone, Copy)]
pub(crate) enum Tool {
    Cat,
    Echo,
    Upper,
    Wc,
    YesN,
}

/// The tool of a name.
pub(crate) fn tool_named(name: &str) -> Option<Tool>
    ensures { MatchOption result ((tool : Tool) → name_of tool ≢ name.now) (λ tool. name_of tool ≡ name.now) }
{
    match name {
        "cat" => Some(Tool::Cat),
        "echo" => Some(Tool::Echo),
        "upper" => Some(Tool::Upper),
        "wc" => Some(Tool::Wc),
        "yes_n" => Some(Tool::YesN),
        _ => None,
    }
}

impl Tool {
    /// The tool's text.
    pub(crate) fn text(self) -> &'static str
        ensures { result.now ≡ text_of self }
    {
        match self {
            Tool::Cat => CAT,
            Tool::Echo => ECHO,
            Tool::Upper => UPPER,
            Tool::Wc => WC,
            Tool::YesN => YES_N,
        }
    }
}
