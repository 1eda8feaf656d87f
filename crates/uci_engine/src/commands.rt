//! Which command a line gives.

/// A command that is known.
#[derive(Clone, Copy, PartialEq, Eq)]
pub(crate) enum Command {
    Uci,
    IsReady,
    SetOption,
    NewGame,
    Position,
    Go,
    Stop,
    PonderHit,
    Quit,
    Board,
    /// None of them.
    Unknown,
}

/// The words that name commands.
static NAMES: [(&str, Command); 10] = [
    ("uci", Command::Uci),
    ("isready", Command::IsReady),
    ("setoption", Command::SetOption),
    ("ucinewgame", Command::NewGame),
    ("position", Command::Position),
    ("go", Command::Go),
    ("stop", Command::Stop),
    ("ponderhit", Command::PonderHit),
    ("quit", Command::Quit),
    ("d", Command::Board),
];

/// The command that a word names.
fn command_of(word: &str) -> Command {
    for (name, command) in &NAMES {
        if word == *name {
            return *command;
        }
    }
    Command::Unknown
}

/// The first word that names a command, before which any may stand, and the words behind it.
pub(crate) fn command_in<'m, 'a>(words: &'m [&'a str]) -> (Command, &'m [&'a str]) {
    let mut rest = words;
    while let [word, more @ ..] = rest {
        rest = more;
        let command = command_of(word);
        if command != Command::Unknown {
            return (command, rest);
        }
    }
    (Command::Unknown, rest)
}
