//! Options that don't go together, and what is said of words that ask for nothing.

use crate::matched_values::{has_letters, is_given, large_number_in, number_in, text_in};
use crate::texts::is_same;
use clap::ArgMatches;

/// What may be found among the arguments of a command.
#[derive(Clone, Copy)]
enum Found {
    /// A flag.
    Flag(&'static str),
    /// That no board is drawn.
    NoBoard,
    /// That no solutions are told.
    NoSolutions,
    /// Letters of men.
    Letters,
    /// That no problems are imported.
    NoImport,
    /// More than one worker, by the id of their number.
    Several(&'static str),
    /// A limit of time.
    Limit,
    /// A memo by its entries.
    Entries,
    /// Memos by their memory.
    Memory,
}

/// What doesn't go together in a command, or in any that has both, and what is said then.
#[derive(Clone, Copy)]
struct Conflict(&'static str, Found, Found, &'static str);

/// The command that stands for any.
const ANY: &str = "";

const JSON: Found = Found::Flag("json");

const IMPORT: Found = Found::Flag("import");

const FLIP: Found = Found::Flag("flip");

/// All that don't go together. The first that is found is said.
static CONFLICTS: [Conflict; 16] = [
    Conflict(
        "look",
        Found::Flag("svg"),
        Found::Flag("board"),
        "look --svg goes without --board",
    ),
    Conflict(
        "look",
        FLIP,
        Found::NoBoard,
        "--flip goes with --board or --svg",
    ),
    Conflict(
        "look --lines",
        FLIP,
        Found::NoBoard,
        "look --lines --flip goes with --board",
    ),
    Conflict(
        "moves",
        JSON,
        Found::Flag("coordinates"),
        "moves --json goes without --coordinates",
    ),
    Conflict(
        "moves",
        JSON,
        Found::Flag("fen"),
        "moves --json goes without --fen",
    ),
    Conflict(
        "verify",
        Found::Letters,
        Found::NoImport,
        "verify --letters and --fen-letters go with --import",
    ),
    Conflict(
        "verify",
        JSON,
        Found::Flag("header"),
        "verify --json goes without --header",
    ),
    Conflict(
        "verify",
        JSON,
        IMPORT,
        "verify --json goes without --import",
    ),
    Conflict(
        "verify",
        JSON,
        Found::Several("N"),
        "verify --json goes with --workers 1 alone",
    ),
    Conflict(
        "verify",
        IMPORT,
        Found::Limit,
        "verify --import goes without --limit",
    ),
    Conflict(
        "verify",
        IMPORT,
        Found::Several("N"),
        "verify --import goes with --workers 1 alone",
    ),
    Conflict(
        "tree",
        JSON,
        Found::Limit,
        "tree --json goes without --limit",
    ),
    Conflict(
        "tree",
        JSON,
        Found::Several("W"),
        "tree --json goes with --workers 1 alone",
    ),
    Conflict(
        "tree",
        Found::Limit,
        Found::Several("W"),
        "tree --limit goes with --workers 1 alone",
    ),
    Conflict(
        "sheet",
        Found::Flag("figurines"),
        Found::NoSolutions,
        "sheet --figurines goes with --solutions",
    ),
    Conflict(
        ANY,
        Found::Memory,
        Found::Entries,
        "--memory goes without --memo",
    ),
];

/// What is said where nothing in the table is found: what is left is a size that memos can't have.
const NO_MEMORY_SIZE: &str = "--memory takes 1K to 32G, a number and K, M or G, as 512M";

/// Whether this is found.
fn is_found(matches: &ArgMatches, found: Found) -> bool {
    match found {
        Found::Flag(id) => is_given(matches, id),
        Found::NoBoard => !is_given(matches, "board") && !is_given(matches, "svg"),
        Found::Letters => has_letters(matches),
        Found::NoImport => !is_given(matches, "import"),
        Found::NoSolutions => !is_given(matches, "solutions"),
        Found::Several(id) => number_in(matches, id) > 1,
        Found::Limit => large_number_in(matches, "S") > 0,
        Found::Entries => large_number_in(matches, "M") > 0,
        Found::Memory => text_in(matches, "SIZE").is_some(),
    }
}

/// What is said, where this conflict is found in this command.
fn said_of(name: &str, matches: &ArgMatches, conflict: &Conflict) -> Option<&'static str> {
    let Conflict(command, one, other, said) = *conflict;
    if !is_same(command, ANY) && !is_same(command, name) {
        return None;
    }
    if is_found(matches, one) && is_found(matches, other) {
        Some(said)
    } else {
        None
    }
}

/// What is said of the matches of a whole command line that ask for nothing.
pub fn no_request(matches: &ArgMatches) -> &'static str {
    let Some((name, inner)) = matches.subcommand() else {
        return NO_MEMORY_SIZE;
    };
    for conflict in CONFLICTS.iter() {
        if let Some(said) = said_of(name, inner, conflict) {
            return said;
        }
    }
    NO_MEMORY_SIZE
}

/// A command over lines, an option of the same command over a FEN which that hasn't, and what is said then.
#[derive(Clone, Copy)]
struct GoesAlone(&'static str, &'static str, &'static str);

/// All such options. `clap` knows none of them in a command over lines.
static GO_ALONE: [GoesAlone; 5] = [
    GoesAlone("look --lines", "--svg", "look --svg goes without --lines"),
    GoesAlone(
        "moves --lines",
        "--json",
        "moves --json goes without --lines",
    ),
    GoesAlone(
        "moves --lines",
        "--coordinates",
        "moves --coordinates goes without --lines",
    ),
    GoesAlone("moves --lines", "--fen", "moves --fen goes without --lines"),
    GoesAlone(
        "perft --lines",
        "--divide",
        "perft --divide goes without --lines",
    ),
];

/// What is said of words, as `clap` is to read them, of which it doesn't know one, where that is an option which goes without `--lines`.
pub fn goes_without_lines(texts: &[&str]) -> Option<&'static str> {
    let [_, name, rest @ ..] = texts else {
        return None;
    };
    for alone in GO_ALONE.iter() {
        let GoesAlone(command, option, said) = *alone;
        if is_same(name, command) && rest.iter().any(|word| is_same(word, option)) {
            return Some(said);
        }
    }
    None
}
