//! The words of Popeye's input. A first part of a word, of four letters or more, stands for it.

ghost use Rattle.std.specs.Prelude.{◌≡◌, Some, codes};
ghost use Rattle.problem_import.specs.PopeyeProblems.{colour_named, command_of as command_of_word, ends_line as does_end_line, is_begin as does_begin};
ghost use Rattle.problem_import.specs.PopeyeProblems.{is_end_word as is_word_of_end, is_remark_word as is_word_of_remark};
ghost use Rattle.problem_import.specs.PopeyeProblems.{is_text_word as is_word_of_text, stands_for as does_stand_for};

use chess_board::Colour;

/// What Popeye is told to do.
#[derive(Clone, Copy)]
pub(crate) enum Command {
    Begin,
    Text,
    Remark,
    Stipulation,
    Forsyth,
    Pieces,
    Options,
    Conditions,
    End,
}

/// Whether a word stands for a name, in small letters or large.
#[tactic(auto, unfolding(crate::specs::PopeyeProblems::stands_for))]
fn stands_for(word: &[u8], name: &str) -> bool
    ensures { result ≡ does_stand_for word.now name.now }
{
    let name = name.as_bytes();
    let length = word.len();
    length >= 4 && length <= name.len() && word.eq_ignore_ascii_case(name.split_at(length).0)
}

/// Whether a word stands for one of the names.
fn stands_for_one(word: &[u8], names: &[&str]) -> bool {
    for name in names {
        if stands_for(word, name) {
            return true;
        }
    }
    false
}

/// Whether a word stands before a name.
fn is_text_word(word: &[u8]) -> bool
    ensures { result ≡ is_word_of_text word.now }
{
    stands_for(word, "Author") || stands_for(word, "Origin") || stands_for(word, "Title")
}

/// Whether a word stands before a remark.
fn is_remark_word(word: &[u8]) -> bool
    ensures { result ≡ is_word_of_remark word.now }
{
    stands_for(word, "Remark") || stands_for(word, "Award")
}

/// Whether a word ends a problem.
fn is_end_word(word: &[u8]) -> bool
    ensures { result ≡ is_word_of_end word.now }
{
    stands_for(word, "EndProblem") || stands_for(word, "NextProblem")
}

/// The command that a word stands for.
#[tactic(auto, unfolding(crate::specs::PopeyeProblems::command_of))]
pub(crate) fn command_of(word: &[u8]) -> Option<Command>
    ensures { result ≡ command_of_word word.now }
{
    if stands_for(word, "BeginProblem") {
        Some(Command::Begin)
    } else if is_text_word(word) {
        Some(Command::Text)
    } else if is_remark_word(word) {
        Some(Command::Remark)
    } else if stands_for(word, "Stipulation") {
        Some(Command::Stipulation)
    } else if stands_for(word, "Forsyth") {
        Some(Command::Forsyth)
    } else if stands_for(word, "Pieces") {
        Some(Command::Pieces)
    } else if stands_for(word, "Option") {
        Some(Command::Options)
    } else if stands_for(word, "Condition") {
        Some(Command::Conditions)
    } else if is_end_word(word) {
        Some(Command::End)
    } else {
        None
    }
}

/// Whether a word begins a problem.
pub(crate) fn is_begin(word: &[u8]) -> bool
    ensures { result ≡ does_begin (command_of_word word.now) }
{
    matches!(command_of(word), Some(Command::Begin))
}

/// Whether what stands behind a command on its line says nothing: a name, a remark, and what follows a problem's end.
pub(crate) fn ends_line(command: Command) -> bool
    ensures { result ≡ does_end_line (Some command) }
{
    matches!(command, Command::Text | Command::Remark | Command::End)
}

/// Whether a word begins the next problem, too.
pub(crate) fn begins_next(word: &[u8]) -> bool
    ensures { result ≡ does_stand_for word.now (codes "NextProblem") }
{
    stands_for(word, "NextProblem")
}

/// Whether a word is an option that changes only how a problem is solved or what is shown.
pub(crate) fn is_harmless_option(word: &[u8]) -> bool {
    stands_for_one(
        word,
        &[
            "Variation",
            "SetPlay",
            "Threat",
            "Defence",
            "MaxSolutions",
            "MaxTime",
            "MaxFlights",
            "MaxThreats",
            "MoveNumbers",
            "NoBoard",
            "NoThreat",
            "NoShortVariations",
            "NonTrivial",
            "Intelligent",
        ],
    ) || word.eq_ignore_ascii_case(b"Try")
}

/// The colour that a word stands for.
pub(crate) fn colour_of(word: &[u8]) -> Option<Colour>
    ensures { result ≡ colour_named word.now }
{
    if stands_for(word, "White") {
        Some(Colour::White)
    } else if stands_for(word, "Black") {
        Some(Colour::Black)
    } else {
        None
    }
}
