// The words of a command line, read by hand.
ghost use Rattle.std.specs.Prelude.{◌≡◌, map, string_bytes};
ghost use Rattle.std.specs.Option.{option_map};
ghost use Rattle.wasix_run.specs.Line.{line};
ghost use Rattle.wasix_run.specs.Commands.{seen};

/// What the words ask for.
#[derive(Clone, Copy, Debug)]
pub enum Command<'a> {
    /// `one FILE`: the program in this file is run.
    One(&'a str),
    /// `pack LIST OUT`: the image of the list in the first file is written under the second name.
    Pack(&'a str, &'a str),
    /// `asm TEXT OUT`: the module of the text in the first file is written under the second name.
    Asm(&'a str, &'a str),
}

/// The command that the words are; `None` where they are none.
pub fn command_of(words: &[String]) -> Option<Command<'_>>
    ensures { option_map seen result ≡ line (map string_bytes words.now) }
{
    match words {
        [word, file] if word.as_str() == "one" => Some(Command::One(file.as_str())),
        [word, list, out] if word.as_str() == "pack" => {
            Some(Command::Pack(list.as_str(), out.as_str()))
        }
        [word, text, out] if word.as_str() == "asm" => {
            Some(Command::Asm(text.as_str(), out.as_str()))
        }
        _ => None,
    }
}
