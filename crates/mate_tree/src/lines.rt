//! The parts of a tree's lines, and where lines stand.

ghost use Rattle.std.specs.Prelude.{◌≡◌, ◌++◌, decimal, true};
ghost use Rattle.chess_board.specs.Legality.{is_legal};
ghost use Rattle.chess_notation.specs.SanText.{san_text};
ghost use Rattle.chess_problems.specs.Outcomes.{AreLegal};
ghost use Rattle.mate_tree.specs.Lines.{attack_text, attack_words, defence_text, dual_text, length_text, spaces};
ghost use Rattle.mate_tree.specs.inside.Writers.{AddsText};

use crate::writers::TreeWriter;
use chess_board::{Move, Position};
use chess_moves::legal_listed;
use chess_notation::san;
use itoa::Buffer;
use std::io::Write;

/// Where in a tree a line stands.
#[derive(Clone, Copy)]
pub(crate) struct Level {
    /// The number of the attacker's move, from 1.
    pub number: u16,
    /// How many moves the attacker has left.
    pub left: u8,
    /// How many of its next moves are shown.
    pub shown: u8,
}

/// Adds so many spaces.
pub(crate) fn push_spaces<O: Write>(writer: &mut TreeWriter<'_, O>, count: usize)
    ensures { AddsText O.contents writer.old writer.new (spaces count) }
{
    for done in 0..count {
        writer.push(b" ");
    }
}

/// Adds a move behind its number and these dots.
fn push_move<O: Write>(
    writer: &mut TreeWriter<'_, O>,
    position: &Position,
    m: Move,
    number: u16,
    dots: &[u8],
)
    requires { is_legal position.now m ≡ true }
    ensures { AddsText O.contents writer.old writer.new (decimal number ++ dots.now ++ san_text position.now m) }
{
    let mut digits = Buffer::new();
    writer.push(digits.format(number).as_bytes());
    writer.push(dots);
    writer.push(san(writer.rays, position, m).as_str().as_bytes());
}

/// Adds an attacker's move behind its number.
pub(crate) fn push_attack<O: Write>(
    writer: &mut TreeWriter<'_, O>,
    position: &Position,
    m: Move,
    number: u16,
)
    requires { is_legal position.now m ≡ true }
    ensures { AddsText O.contents writer.old writer.new (attack_text number position.now m) }
{
    push_move(writer, position, m, number, b".");
}

/// Adds a defender's move behind its number.
pub(crate) fn push_defence<O: Write>(
    writer: &mut TreeWriter<'_, O>,
    position: &Position,
    m: Move,
    number: u16,
)
    requires { is_legal position.now m ≡ true }
    ensures { AddsText O.contents writer.old writer.new (defence_text number position.now m) }
{
    push_move(writer, position, m, number, b"...");
}

/// Adds an attacker's moves of one number, each behind a space.
pub(crate) fn push_attacks<O: Write>(
    writer: &mut TreeWriter<'_, O>,
    position: &Position,
    moves: &[Move],
    number: u16,
)
    requires { AreLegal position.now moves.now }
    ensures { AddsText O.contents writer.old writer.new (attack_words number position.now moves.now) }
{
    // That a move of the list is legal is the clause of `legal_listed`.
    legal_listed();
    for index in 0..moves.len() {
        writer.push(b" ");
        push_attack(writer, position, moves[index], number);
    }
}

/// Adds within how many moves a move mates, where it doesn't mate itself and no move below it is shown.
pub(crate) fn push_length<O: Write>(writer: &mut TreeWriter<'_, O>, shown: u8, n: u8)
    ensures { AddsText O.contents writer.old writer.new (length_text shown n) }
{
    if shown != 0 || n <= 1 {
        return;
    }
    let mut digits = Buffer::new();
    writer.push(b" #");
    writer.push(digits.format(n).as_bytes());
}

/// Adds that the attacker has more than one move to go on, where it has.
pub(crate) fn push_dual<O: Write>(writer: &mut TreeWriter<'_, O>, dual: bool)
    ensures { AddsText O.contents writer.old writer.new (dual_text dual) }
{
    if dual {
        writer.push(b" dual");
    }
}
