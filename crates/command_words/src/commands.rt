//! The commands, each with its arguments.

ghost use Rattle.std.specs.Prelude.{◌≡◌};
ghost use Rattle.command_words.specs.Commands.{app_named, subcommand_app};

use crate::arguments::Argument;
use crate::flags::Flag;
use crate::help::{
    ABOUT, ABOUT_EXPLAIN, ABOUT_IMPORT, ABOUT_LOOK, ABOUT_LOOK_LINES, ABOUT_MOVES,
    ABOUT_MOVES_LINES, ABOUT_PERFT, ABOUT_PERFT_LINES, ABOUT_PLAY, ABOUT_REPLAY, ABOUT_SERVE,
    ABOUT_SHEET, ABOUT_SOLVE, ABOUT_TREE, ABOUT_UCI, ABOUT_VERIFY, AFTER_EXPLAIN, AFTER_HELP,
    AFTER_IMPORT, AFTER_LOOK, AFTER_LOOK_LINES, AFTER_MOVES, AFTER_MOVES_LINES, AFTER_PERFT,
    AFTER_PERFT_LINES, AFTER_PLAY, AFTER_REPLAY, AFTER_SERVE, AFTER_SHEET, AFTER_SOLVE, AFTER_TREE,
    AFTER_UCI, AFTER_VERIFY,
};

/// The names of the commands.
#[derive(Clone, Copy)]
pub(crate) enum Name {
    Solve,
    Verify,
    Tree,
    Import,
    Serve,
    Replay,
    Uci,
    Look,
    Play,
    Moves,
    Perft,
    Explain,
    LookLines,
    MovesLines,
    PerftLines,
    Sheet,
}

/// The commands in the order in which help lists them.
pub(crate) static ORDER: [Name; 16] = [
    Name::Solve,
    Name::Verify,
    Name::Tree,
    Name::Import,
    Name::Serve,
    Name::Replay,
    Name::Uci,
    Name::Look,
    Name::Play,
    Name::Moves,
    Name::Perft,
    Name::Explain,
    Name::LookLines,
    Name::MovesLines,
    Name::PerftLines,
    Name::Sheet,
];

/// What `clap` is told of a command.
#[derive(Clone, Copy)]
pub(crate) struct Subcommand {
    pub(crate) name: &'static str,
    pub(crate) about: &'static str,
    pub(crate) after_help: &'static str,
    pub(crate) arguments: &'static [Argument],
}

static SOLVE: Subcommand = Subcommand {
    name: "solve",
    about: ABOUT_SOLVE,
    after_help: AFTER_SOLVE,
    arguments: &[
        Argument::Bound,
        Argument::Memo,
        Argument::Memory,
        Argument::Limit,
        Argument::SolveWorkers,
        Argument::Flag(Flag::Json),
        Argument::From,
        Argument::Flag(Flag::Progress),
        Argument::Flag(Flag::Record),
        Argument::Flag(Flag::RecordFen),
        Argument::File,
    ],
};

static VERIFY: Subcommand = Subcommand {
    name: "verify",
    about: ABOUT_VERIFY,
    after_help: AFTER_VERIFY,
    arguments: &[
        Argument::VerifyBound,
        Argument::Memo,
        Argument::Memory,
        Argument::Limit,
        Argument::VerifyWorkers,
        Argument::Flag(Flag::Import),
        Argument::ImportLetters,
        Argument::FenLetters,
        Argument::Flag(Flag::Header),
        Argument::Flag(Flag::Json),
        Argument::From,
        Argument::Flag(Flag::Progress),
        Argument::Flag(Flag::Record),
        Argument::Flag(Flag::RecordFen),
        Argument::File,
    ],
};

static TREE: Subcommand = Subcommand {
    name: "tree",
    about: ABOUT_TREE,
    after_help: AFTER_TREE,
    arguments: &[
        Argument::Bound,
        Argument::Shown,
        Argument::Flag(Flag::Defences),
        Argument::Flag(Flag::SetPlay),
        Argument::Flag(Flag::Tries),
        Argument::Flag(Flag::Column),
        Argument::Flag(Flag::TreeFigurines),
        Argument::Letters,
        Argument::MostLines,
        Argument::Limit,
        Argument::TreeWorkers,
        Argument::Flag(Flag::Json),
        Argument::From,
        Argument::Flag(Flag::Progress),
        Argument::Flag(Flag::Record),
        Argument::Flag(Flag::RecordFen),
        Argument::File,
    ],
};

static IMPORT: Subcommand = Subcommand {
    name: "import",
    about: ABOUT_IMPORT,
    after_help: AFTER_IMPORT,
    arguments: &[
        Argument::Flag(Flag::Keep),
        Argument::ImportBound,
        Argument::ImportLetters,
        Argument::FenLetters,
        Argument::File,
    ],
};

static SERVE: Subcommand = Subcommand {
    name: "serve",
    about: ABOUT_SERVE,
    after_help: AFTER_SERVE,
    arguments: &[
        Argument::Workers,
        Argument::Bound,
        Argument::Memos,
        Argument::Memory,
        Argument::Flag(Flag::Progress),
        Argument::File,
    ],
};

static REPLAY: Subcommand = Subcommand {
    name: "replay",
    about: ABOUT_REPLAY,
    after_help: AFTER_REPLAY,
    arguments: &[Argument::Script],
};

static UCI: Subcommand = Subcommand {
    name: "uci",
    about: ABOUT_UCI,
    after_help: AFTER_UCI,
    arguments: &[],
};

static LOOK: Subcommand = Subcommand {
    name: "look",
    about: ABOUT_LOOK,
    after_help: AFTER_LOOK,
    arguments: &[
        Argument::Flag(Flag::Board),
        Argument::Flag(Flag::Flip),
        Argument::Flag(Flag::Svg),
        Argument::Fen,
    ],
};

static PLAY: Subcommand = Subcommand {
    name: "play",
    about: ABOUT_PLAY,
    after_help: AFTER_PLAY,
    arguments: &[Argument::Fen, Argument::Move],
};

static MOVES: Subcommand = Subcommand {
    name: "moves",
    about: ABOUT_MOVES,
    after_help: AFTER_MOVES,
    arguments: &[
        Argument::Flag(Flag::Coordinates),
        Argument::Flag(Flag::Fens),
        Argument::Flag(Flag::MovesJson),
        Argument::Fen,
    ],
};

static PERFT: Subcommand = Subcommand {
    name: "perft",
    about: ABOUT_PERFT,
    after_help: AFTER_PERFT,
    arguments: &[Argument::Flag(Flag::Divide), Argument::Fen, Argument::Depth],
};

static EXPLAIN: Subcommand = Subcommand {
    name: "explain",
    about: ABOUT_EXPLAIN,
    after_help: AFTER_EXPLAIN,
    arguments: &[Argument::Word],
};

static LOOK_LINES: Subcommand = Subcommand {
    name: "look --lines",
    about: ABOUT_LOOK_LINES,
    after_help: AFTER_LOOK_LINES,
    arguments: &[
        Argument::Flag(Flag::Board),
        Argument::Flag(Flag::Flip),
        Argument::Positions,
    ],
};

static MOVES_LINES: Subcommand = Subcommand {
    name: "moves --lines",
    about: ABOUT_MOVES_LINES,
    after_help: AFTER_MOVES_LINES,
    arguments: &[Argument::Positions],
};

static PERFT_LINES: Subcommand = Subcommand {
    name: "perft --lines",
    about: ABOUT_PERFT_LINES,
    after_help: AFTER_PERFT_LINES,
    arguments: &[Argument::Depth, Argument::Positions],
};

static SHEET: Subcommand = Subcommand {
    name: "sheet",
    about: ABOUT_SHEET,
    after_help: AFTER_SHEET,
    arguments: &[
        Argument::Flag(Flag::Solutions),
        Argument::Flag(Flag::Figurines),
        Argument::Letters,
        Argument::Title,
        Argument::Bound,
        Argument::Memo,
        Argument::Memory,
        Argument::File,
    ],
};

/// The program itself.
pub(crate) static PROGRAM: Subcommand = Subcommand {
    name: "matedesk",
    about: ABOUT,
    after_help: AFTER_HELP,
    arguments: &[],
};

/// What `clap` is told of a command.
#[tactic(auto, unfolding(crate::proofs::Tables::commands_on_literals))]
pub(crate) fn subcommand_of(name: Name) -> &'static Subcommand
    ensures { subcommand_app result.now ≡ app_named name }
{
    match name {
        Name::Solve => &SOLVE,
        Name::Verify => &VERIFY,
        Name::Tree => &TREE,
        Name::Import => &IMPORT,
        Name::Serve => &SERVE,
        Name::Replay => &REPLAY,
        Name::Uci => &UCI,
        Name::Look => &LOOK,
        Name::Play => &PLAY,
        Name::Moves => &MOVES,
        Name::Perft => &PERFT,
        Name::Explain => &EXPLAIN,
        Name::LookLines => &LOOK_LINES,
        Name::MovesLines => &MOVES_LINES,
        Name::PerftLines => &PERFT_LINES,
        Name::Sheet => &SHEET,
    }
}
