// The first words of command lines.
ghost use Rattle.std.specs.Prelude.{◌≡◌, map, string_bytes};
ghost use Rattle.scuttle_cli.specs.Requests.{command_in, command_named};

/// A command, by its name.
#[derive(Clone, Copy, Debug, PartialEq, Eq)]
pub enum CommandName {
    Front,
    Solve,
    Check,
    Upgrade,
    Elaborate,
    Trim,
    Models,
    CheckModels,
    Gen,
    Trial,
}

/// The command that the first word names; `None` where there is none of that name.
pub fn command_in(words: &[String]) -> Option<CommandName>
    ensures { result ≡ command_in (map string_bytes words.now) }
{
    match words.first() {
        Some(word) => command_named(word.as_str()),
        None => None,
    }
}

// The command of this name.
fn command_named(word: &str) -> Option<CommandName>
    ensures { result ≡ command_named word.now }
{
    match word {
        "front" => Some(CommandName::Front),
        "solve" => Some(CommandName::Solve),
        "check" => Some(CommandName::Check),
        "upgrade" => Some(CommandName::Upgrade),
        "elaborate" => Some(CommandName::Elaborate),
        "trim" => Some(CommandName::Trim),
        "models" => Some(CommandName::Models),
        "check-models" => Some(CommandName::CheckModels),
        "gen" => Some(CommandName::Gen),
        "trial" => Some(CommandName::Trial),
        _ => None,
    }
}
