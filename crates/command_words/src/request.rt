//! What the words of a command line ask for.

use crate::limits::{Depth, LineNumber, MemoSize, Workers};
use chess_board::Colour;
use chess_problems::Bound;

/// How the moves are written that `moves` lists, each on a line of its own.
#[derive(Clone, Copy, Debug, PartialEq, Eq)]
pub enum MoveForm {
    /// In SAN.
    San,
    /// By its coordinates.
    Coordinates,
    /// In SAN, with the FEN after it.
    SanFen,
    /// In SAN and by its coordinates, with the FEN after it.
    SanCoordinatesFen,
}

/// What is shown of the position on each line of files.
#[derive(Clone, Copy)]
pub enum LineView {
    /// Its FEN in canonical form, and whether the side to move is in check.
    Look,
    /// The same, with the board as it is seen from a side.
    Board(Colour),
    /// Its legal moves in SAN on one line, or how the game has ended.
    Moves,
    /// The number of lines of so many legal moves.
    Perft(Depth),
}

/// What is shown of a tree, and how much.
#[derive(Clone, Copy, Debug, PartialEq, Eq)]
pub struct TreeForm {
    /// How many of the attacker's moves, where a number is given.
    pub moves: Option<u8>,
    /// Whether of the defences those alone are shown that parry the threat.
    pub defences: bool,
    /// Whether set play is shown.
    pub set_play: bool,
    /// Whether tries are shown.
    pub tries: bool,
    /// Whether the tree stands on one line.
    pub column: bool,
    /// Whether pieces are figurines, in place of letters.
    pub figurines: bool,
    /// How many lines at most, where a number is given.
    pub lines: Option<u32>,
}

/// Files by their names, of the first of which the lines before one of such a number are passed over.
#[derive(Clone, Copy)]
pub struct Files<'m, 'a> {
    pub names: &'m [&'a str],
    pub from: LineNumber,
}

/// What `solve` is asked for: by how many workers, the bound of records that say none, the size of a memo, and the files.
#[derive(Clone, Copy)]
pub struct SolveAsked<'m, 'a> {
    pub workers: Workers,
    pub bound: Bound,
    pub memo: MemoSize,
    pub files: Files<'m, 'a>,
}

/// What `verify` is asked for: the same, and whether a first row names the fields.
#[derive(Clone, Copy)]
pub struct VerifyAsked<'m, 'a> {
    pub workers: Workers,
    pub bound: Bound,
    pub memo: MemoSize,
    pub header: bool,
    pub files: Files<'m, 'a>,
}

/// What `verify --import` is asked for. Where a bound is given, it is for problems that say none, which are else refused. Words give the letters
/// of men in moves and in placements.
#[derive(Clone, Copy)]
pub struct ImportedAsked<'m, 'a> {
    pub bound: Option<Bound>,
    pub memo: MemoSize,
    pub header: bool,
    pub letters: &'a str,
    pub placements: &'a str,
    pub files: Files<'m, 'a>,
}

/// What `tree` is asked for: by how many workers, the bound of records that say none, the form of a tree, a word that gives the letters of
/// men, and the files.
#[derive(Clone, Copy)]
pub struct TreeAsked<'m, 'a> {
    pub workers: Workers,
    pub bound: Bound,
    pub form: TreeForm,
    pub letters: &'a str,
    pub files: Files<'m, 'a>,
}

/// What `import` is asked for: whether what was changed is told in the records, the bound of problems that say none, where one is given, words
/// that give the letters of men in moves and in placements, and the files.
#[derive(Clone, Copy)]
pub struct ImportAsked<'m, 'a> {
    pub keep: bool,
    pub bound: Option<Bound>,
    pub letters: &'a str,
    pub placements: &'a str,
    pub names: &'m [&'a str],
}

/// What `serve` is asked for: how many workers, the bound of records that say none, the size of each one's memo, and the files.
#[derive(Clone, Copy)]
pub struct ServeAsked<'m, 'a> {
    pub workers: Workers,
    pub bound: Bound,
    pub memo: MemoSize,
    pub names: &'m [&'a str],
}

/// What a page has beside its diagrams.
#[derive(Clone, Copy, Debug, PartialEq, Eq)]
pub struct SheetForm {
    /// Whether the problems are solved.
    pub solutions: bool,
    /// Whether pieces are figurines in the solutions, in place of letters.
    pub figurines: bool,
}

/// What `sheet` is asked for: the bound of records that say none, the size of the memo over which solutions are found, what stands beside the
/// diagrams, a word that gives the letters of men in solutions, the title, and the files.
#[derive(Clone, Copy)]
pub struct SheetAsked<'m, 'a> {
    pub bound: Bound,
    pub memo: MemoSize,
    pub form: SheetForm,
    pub letters: &'a str,
    pub title: &'a str,
    pub names: &'m [&'a str],
}

/// A command with its arguments.
#[derive(Clone, Copy)]
pub enum Request<'m, 'a> {
    /// Show a FEN in canonical form, and whether the side to move is in check.
    Look(&'a str),
    /// The same, with the board as it is seen from a side.
    Board(&'a str, Colour),
    /// Draw the board of a FEN, as it is seen from a side, as an image.
    Svg(&'a str, Colour),
    /// Make moves one after the other from a FEN, where any are given, and show the position reached.
    Play(&'a str, Option<&'m [&'a str]>),
    /// List the legal moves of a FEN in such a form, or say how the game has ended.
    Moves(MoveForm, &'a str),
    /// List the legal moves of a FEN in JSON, or how the game has ended.
    MovesJson(&'a str),
    /// Count the lines of so many legal moves from a FEN.
    Perft(&'a str, Depth),
    /// The same, for each first move too.
    Divide(&'a str, Depth),
    /// Show this of the position on each line of files, in order.
    Lines(LineView, &'m [&'a str]),
    /// Answer the records of files, in order, by one worker.
    Solve(SolveAsked<'m, 'a>),
    /// The same in JSON.
    SolveJson(SolveAsked<'m, 'a>),
    /// Answer them, each record by several workers.
    SolveOn(SolveAsked<'m, 'a>),
    /// The same in JSON.
    SolveJsonOn(SolveAsked<'m, 'a>),
    /// Answer them, where each record may take so many seconds, 1 to 86,400.
    Limited(u32, SolveAsked<'m, 'a>),
    /// The same in JSON.
    LimitedJson(u32, SolveAsked<'m, 'a>),
    /// Hold the records of files, in order, against their own claims, by one worker.
    Verify(VerifyAsked<'m, 'a>),
    /// The same by several.
    VerifyOn(VerifyAsked<'m, 'a>),
    /// As `Verify`, in JSON, which has no first row.
    VerifyJson(VerifyAsked<'m, 'a>),
    /// As `Verify`, of problems as they are imported.
    VerifyImported(ImportedAsked<'m, 'a>),
    /// As `Verify`, where each record may take so many seconds, and so many workers solve it.
    VerifyLimited(u32, VerifyAsked<'m, 'a>),
    /// The same in JSON, by one worker.
    VerifyLimitedJson(u32, VerifyAsked<'m, 'a>),
    /// Tell the trees of the records of files, in order, by one worker.
    Tree(TreeAsked<'m, 'a>),
    /// The same by several.
    TreeOn(TreeAsked<'m, 'a>),
    /// As `Tree`, where the search for the mate of each record may take so many seconds.
    TreeLimited(u32, TreeAsked<'m, 'a>),
    /// As `Tree`, in JSON.
    TreeJson(TreeAsked<'m, 'a>),
    /// Make a page of the records of files, in order.
    Sheet(SheetAsked<'m, 'a>),
    /// Make records of the problems of files, in order.
    Import(ImportAsked<'m, 'a>),
    /// Answer the records of files by so many workers, all files at once.
    Serve(ServeAsked<'m, 'a>),
    /// Run the script of a file at a desk.
    Replay(&'a str),
    /// Explain the faults that these words name, or list them all where none are given.
    Explain(Option<&'m [&'a str]>),
    /// Answer a board's questions, as an engine.
    Uci,
}
