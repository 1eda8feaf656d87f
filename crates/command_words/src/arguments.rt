//! The arguments of the commands.

ghost use Rattle.std.specs.Prelude.{◌≡◌};
ghost use Rattle.command_words.specs.Arguments.{argument_rule, row_rule};

use crate::flags::{Flag, flag_row};
use crate::help::{
    ABOUT_BOUND, ABOUT_DEPTH, ABOUT_FEN, ABOUT_FEN_LETTERS, ABOUT_FILE, ABOUT_FROM,
    ABOUT_IMPORT_BOUND, ABOUT_IMPORT_LETTERS, ABOUT_LETTERS, ABOUT_LIMIT, ABOUT_MEMO, ABOUT_MEMORY,
    ABOUT_MEMOS, ABOUT_MOST_LINES, ABOUT_MOVE, ABOUT_POSITIONS, ABOUT_RECORD_WORKERS, ABOUT_SCRIPT,
    ABOUT_SHOWN, ABOUT_SOLVE_WORKERS, ABOUT_TITLE, ABOUT_VERIFY_BOUND, ABOUT_WORD, ABOUT_WORKERS,
};
use crate::rows::{Form, OPTIONAL, Row};

/// The arguments of the commands.
#[derive(Clone, Copy)]
pub(crate) enum Argument {
    Fen,
    Script,
    Depth,
    Move,
    Word,
    File,
    Positions,
    Bound,
    ImportBound,
    VerifyBound,
    Letters,
    ImportLetters,
    FenLetters,
    Workers,
    SolveWorkers,
    VerifyWorkers,
    TreeWorkers,
    Memo,
    Memos,
    Memory,
    From,
    Limit,
    Shown,
    MostLines,
    Title,
    Flag(Flag),
}

/// One that has to be given.
const WANTED: Row = Row {
    required: true,
    ..OPTIONAL
};

static FEN: Row = Row {
    id: "FEN",
    help: ABOUT_FEN,
    ..WANTED
};

static SCRIPT: Row = Row {
    id: "SCRIPT",
    help: ABOUT_SCRIPT,
    ..WANTED
};

/// The number of moves of `perft`, 0 to 6.
static DEPTH: Row = Row {
    id: "DEPTH",
    form: Form::Number(0, 6),
    help: ABOUT_DEPTH,
    ..WANTED
};

/// No word, or one or more.
const WORDS: Row = Row {
    form: Form::Words(0),
    ..OPTIONAL
};

static MOVE: Row = Row {
    id: "MOVE",
    help: ABOUT_MOVE,
    ..WORDS
};

static WORD: Row = Row {
    id: "WORD",
    help: ABOUT_WORD,
    ..WORDS
};

/// The names of files, one or more.
const FILES: Row = Row {
    id: "FILE",
    form: Form::Words(1),
    ..WANTED
};

static FILE: Row = Row {
    help: ABOUT_FILE,
    ..FILES
};

static POSITIONS: Row = Row {
    help: ABOUT_POSITIONS,
    ..FILES
};

/// The numbers of `--bound`.
const BOUNDS: Form = Form::NumberOption(1, 15);

/// The bound of problems that don't say theirs.
static BOUND: Row = Row {
    id: "B",
    long: "bound",
    form: BOUNDS,
    defaults: &["3"],
    help: ABOUT_BOUND,
    ..OPTIONAL
};

/// The same, which need not be given.
const OPEN_BOUND: Row = Row {
    id: "B",
    long: "bound",
    form: BOUNDS,
    ..OPTIONAL
};

/// The bound of problems that say none, where they are imported.
static IMPORT_BOUND: Row = Row {
    help: ABOUT_IMPORT_BOUND,
    ..OPEN_BOUND
};

/// The same of `verify`, where records as they stand are asked within 3 moves.
static VERIFY_BOUND: Row = Row {
    help: ABOUT_VERIFY_BOUND,
    ..OPEN_BOUND
};

/// The letters of men, which need not be given.
const OPEN_LETTERS: Row = Row {
    id: "L",
    long: "letters",
    form: Form::TextOption,
    help: ABOUT_LETTERS,
    ..OPTIONAL
};

/// The letters of men, where solutions are told.
static LETTERS: Row = Row {
    defaults: &["en"],
    ..OPEN_LETTERS
};

/// The letters of men in moves, where problems are imported.
static IMPORT_LETTERS: Row = Row {
    help: ABOUT_IMPORT_LETTERS,
    ..OPEN_LETTERS
};

/// Those in placements.
static FEN_LETTERS: Row = Row {
    id: "P",
    long: "fen-letters",
    form: Form::TextOption,
    help: ABOUT_FEN_LETTERS,
    ..OPTIONAL
};

/// A number of workers, 1 to 16.
const COUNT: Row = Row {
    id: "N",
    long: "workers",
    form: Form::NumberOption(1, 16),
    ..OPTIONAL
};

/// The number of workers of `serve`.
static WORKERS: Row = Row {
    required: true,
    help: ABOUT_WORKERS,
    ..COUNT
};

/// The same of commands that have one where none is given.
const OPEN_COUNT: Row = Row {
    defaults: &["1"],
    ..COUNT
};

static SOLVE_WORKERS: Row = Row {
    help: ABOUT_SOLVE_WORKERS,
    ..OPEN_COUNT
};

static VERIFY_WORKERS: Row = Row {
    help: ABOUT_RECORD_WORKERS,
    ..OPEN_COUNT
};

/// Of `tree`, whose N is a number of lines.
static TREE_WORKERS: Row = Row {
    id: "W",
    help: ABOUT_RECORD_WORKERS,
    ..OPEN_COUNT
};

/// A number of entries of a memo, 1 to 65,536.
const ENTRIES: Row = Row {
    id: "M",
    long: "memo",
    form: Form::NumberOption(1, 65_536),
    ..OPTIONAL
};

static MEMO: Row = Row {
    help: ABOUT_MEMO,
    ..ENTRIES
};

/// The memo of each worker of `serve`.
static MEMOS: Row = Row {
    help: ABOUT_MEMOS,
    ..ENTRIES
};

/// How much memory memos take in place of so many entries, which `request` reads.
static MEMORY: Row = Row {
    id: "SIZE",
    long: "memory",
    form: Form::TextOption,
    help: ABOUT_MEMORY,
    ..OPTIONAL
};

/// The number of the line that is the first to be answered, 1 to 1,000,000,000.
static FROM: Row = Row {
    id: "K",
    long: "from",
    form: Form::NumberOption(1, 1_000_000_000),
    defaults: &["1"],
    help: ABOUT_FROM,
    ..OPTIONAL
};

/// How many seconds a record may take, 1 to 86,400.
static LIMIT: Row = Row {
    id: "S",
    long: "limit",
    form: Form::NumberOption(1, 86_400),
    help: ABOUT_LIMIT,
    ..OPTIONAL
};

/// How many of the attacker's moves are shown of a tree, 1 to 15.
static SHOWN: Row = Row {
    id: "D",
    long: "moves",
    form: Form::NumberOption(1, 15),
    help: ABOUT_SHOWN,
    ..OPTIONAL
};

/// How many lines of a tree there are at most, 1 to 1,000,000.
static MOST_LINES: Row = Row {
    id: "N",
    long: "lines",
    form: Form::NumberOption(1, 1_000_000),
    help: ABOUT_MOST_LINES,
    ..OPTIONAL
};

static TITLE: Row = Row {
    id: "T",
    long: "title",
    form: Form::TextOption,
    defaults: &["Chess problems"],
    help: ABOUT_TITLE,
    ..OPTIONAL
};

/// What `clap` is told of an argument.
#[tactic(auto, unfolding(crate::proofs::Tables::rows_on_literals))]
pub(crate) fn row_of(argument: Argument) -> &'static Row
    ensures { row_rule result.now ≡ argument_rule argument }
{
    match argument {
        Argument::Fen => &FEN,
        Argument::Script => &SCRIPT,
        Argument::Depth => &DEPTH,
        Argument::Move => &MOVE,
        Argument::Word => &WORD,
        Argument::File => &FILE,
        Argument::Positions => &POSITIONS,
        Argument::Bound => &BOUND,
        Argument::ImportBound => &IMPORT_BOUND,
        Argument::VerifyBound => &VERIFY_BOUND,
        Argument::Letters => &LETTERS,
        Argument::ImportLetters => &IMPORT_LETTERS,
        Argument::FenLetters => &FEN_LETTERS,
        Argument::Workers => &WORKERS,
        Argument::SolveWorkers => &SOLVE_WORKERS,
        Argument::VerifyWorkers => &VERIFY_WORKERS,
        Argument::TreeWorkers => &TREE_WORKERS,
        Argument::Memo => &MEMO,
        Argument::Memos => &MEMOS,
        Argument::Memory => &MEMORY,
        Argument::From => &FROM,
        Argument::Limit => &LIMIT,
        Argument::Shown => &SHOWN,
        Argument::MostLines => &MOST_LINES,
        Argument::Title => &TITLE,
        Argument::Flag(flag) => flag_row(flag),
    }
}
