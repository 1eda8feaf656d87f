//! The flags of the commands: options without a value, each named by its id.

ghost use Rattle.std.specs.Prelude.{◌≡◌};
ghost use Rattle.command_words.specs.Arguments.{row_rule};
ghost use Rattle.command_words.specs.Flags.{rule_of_flag};

use crate::help::{
    ABOUT_BOARD, ABOUT_COLUMN, ABOUT_COORDINATES, ABOUT_DEFENCES, ABOUT_DIVIDE, ABOUT_FENS,
    ABOUT_FIGURINES, ABOUT_FLIP, ABOUT_HEADER, ABOUT_IMPORTED, ABOUT_JSON, ABOUT_KEEP,
    ABOUT_MOVES_JSON, ABOUT_PROGRESS, ABOUT_RECORD, ABOUT_RECORD_FEN, ABOUT_SET_PLAY,
    ABOUT_SOLUTIONS, ABOUT_SVG, ABOUT_TREE_FIGURINES, ABOUT_TRIES,
};
use crate::rows::{Form, OPTIONAL, Row};

/// The flags of the commands.
#[derive(Clone, Copy)]
pub(crate) enum Flag {
    Progress,
    Record,
    RecordFen,
    Defences,
    SetPlay,
    Tries,
    Column,
    TreeFigurines,
    Solutions,
    Figurines,
    Header,
    Import,
    Json,
    MovesJson,
    Keep,
    Board,
    Flip,
    Svg,
    Coordinates,
    Fens,
    Divide,
}

const FLAG: Row = Row {
    form: Form::Flag,
    ..OPTIONAL
};

static PROGRESS: Row = Row {
    id: "progress",
    help: ABOUT_PROGRESS,
    ..FLAG
};

static RECORD: Row = Row {
    id: "record",
    help: ABOUT_RECORD,
    ..FLAG
};

/// The same of a record that is no more than a FEN.
static RECORD_FEN: Row = Row {
    id: "fen",
    help: ABOUT_RECORD_FEN,
    ..FLAG
};

static DEFENCES: Row = Row {
    id: "defences",
    help: ABOUT_DEFENCES,
    ..FLAG
};

static SET_PLAY: Row = Row {
    id: "set-play",
    help: ABOUT_SET_PLAY,
    ..FLAG
};

static TRIES: Row = Row {
    id: "tries",
    help: ABOUT_TRIES,
    ..FLAG
};

static COLUMN: Row = Row {
    id: "column",
    help: ABOUT_COLUMN,
    ..FLAG
};

static TREE_FIGURINES: Row = Row {
    id: "figurines",
    help: ABOUT_TREE_FIGURINES,
    ..FLAG
};

static SOLUTIONS: Row = Row {
    id: "solutions",
    help: ABOUT_SOLUTIONS,
    ..FLAG
};

static FIGURINES: Row = Row {
    id: "figurines",
    help: ABOUT_FIGURINES,
    ..FLAG
};

static HEADER: Row = Row {
    id: "header",
    help: ABOUT_HEADER,
    ..FLAG
};

static IMPORT: Row = Row {
    id: "import",
    help: ABOUT_IMPORTED,
    ..FLAG
};

/// JSON in place of lines or rows.
static JSON: Row = Row {
    id: "json",
    help: ABOUT_JSON,
    ..FLAG
};

/// JSON in place of lines of moves.
static MOVES_JSON: Row = Row {
    id: "json",
    help: ABOUT_MOVES_JSON,
    ..FLAG
};

static KEEP: Row = Row {
    id: "keep",
    help: ABOUT_KEEP,
    ..FLAG
};

static BOARD: Row = Row {
    id: "board",
    help: ABOUT_BOARD,
    ..FLAG
};

static FLIP: Row = Row {
    id: "flip",
    help: ABOUT_FLIP,
    ..FLAG
};

static SVG: Row = Row {
    id: "svg",
    help: ABOUT_SVG,
    ..FLAG
};

static COORDINATES: Row = Row {
    id: "coordinates",
    help: ABOUT_COORDINATES,
    ..FLAG
};

static FENS: Row = Row {
    id: "fen",
    help: ABOUT_FENS,
    ..FLAG
};

static DIVIDE: Row = Row {
    id: "divide",
    help: ABOUT_DIVIDE,
    ..FLAG
};

/// What `clap` is told of a flag.
#[tactic(auto, unfolding(crate::proofs::Tables::rows_on_literals))]
pub(crate) fn flag_row(flag: Flag) -> &'static Row
    ensures { row_rule result.now ≡ rule_of_flag flag }
{
    match flag {
        Flag::Progress => &PROGRESS,
        Flag::Record => &RECORD,
        Flag::RecordFen => &RECORD_FEN,
        Flag::Defences => &DEFENCES,
        Flag::SetPlay => &SET_PLAY,
        Flag::Tries => &TRIES,
        Flag::Column => &COLUMN,
        Flag::TreeFigurines => &TREE_FIGURINES,
        Flag::Solutions => &SOLUTIONS,
        Flag::Figurines => &FIGURINES,
        Flag::Header => &HEADER,
        Flag::Import => &IMPORT,
        Flag::Json => &JSON,
        Flag::MovesJson => &MOVES_JSON,
        Flag::Keep => &KEEP,
        Flag::Board => &BOARD,
        Flag::Flip => &FLIP,
        Flag::Svg => &SVG,
        Flag::Coordinates => &COORDINATES,
        Flag::Fens => &FENS,
        Flag::Divide => &DIVIDE,
    }
}
