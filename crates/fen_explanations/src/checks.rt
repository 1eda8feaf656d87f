//! Who attacks the king of the side that isn't to move: asked of men that make no sound position.

ghost use Rattle.std.specs.Prelude.{◌≡◌, ◌++◌, ◌+◌, ◌<◌, ◌≤◌, IfOk, is_some, not, ◌&&◌, ◌||◌, ◌==◌};
ghost use Rattle.chess_board.specs.Attacks.{attacks_as as does_attack_as, attacks_from as does_attack_from, is_amid as amid, is_between as between};
ghost use Rattle.chess_board.specs.Attacks.{is_bishop_line as bishop_line, is_between_on_diagonal, is_between_on_file, is_between_on_rank};
ghost use Rattle.chess_board.specs.Attacks.{is_clear as clear, on_one_diagonal, is_forward as forward, is_rook_line as rook_line};
ghost use Rattle.chess_board.specs.Men.{is_man as is_such_man};
ghost use Rattle.chess_board.specs.declared.men.Kind.TheVariants as kind;
ghost use Rattle.chess_board.specs.Positions.{man_at as man_on_square};
ghost use Rattle.chess_board.specs.Squares.{gap as gap_of};
ghost use Rattle.fen_explanations.specs.Sentences.{each_below};
ghost use Rattle.fen_explanations.specs.Checks.{attacker_told, attackers_told, checks_told, is_open as open_between, man_name as name_of_man};

use crate::sentences::{kind_name, push_if};
use chess_board::{Colour, Kind, Man, Square};
use std::alloc::AllocError;

/// The man on a square.
fn man_at(men: &[Option<Man>], square: Square) -> Option<Man>
    ensures { result ≡ man_on_square men.now square }
{
    match men.get(square.index()) {
        Some(man) => *man,
        None => None,
    }
}

fn gap(a: u8, b: u8) -> u8
    ensures { result ≡ gap_of a b }
{
    a.abs_diff(b)
}

fn is_amid(a: u8, b: u8, x: u8) -> bool
    ensures { result ≡ amid a b x }
{
    a < x && x < b || b < x && x < a
}

fn is_on_rank(a: Square, b: Square, s: Square) -> bool
    ensures { result ≡ is_between_on_rank a b s }
{
    a.rank() == b.rank() && a.rank() == s.rank() && is_amid(a.file(), b.file(), s.file())
}

fn is_on_file(a: Square, b: Square, s: Square) -> bool
    ensures { result ≡ is_between_on_file a b s }
{
    a.file() == b.file() && a.file() == s.file() && is_amid(a.rank(), b.rank(), s.rank())
}

fn is_diagonal(a: Square, b: Square) -> bool
    ensures { result ≡ on_one_diagonal a b }
{
    gap(a.file(), b.file()) == gap(a.rank(), b.rank())
}

fn is_on_diagonal(a: Square, b: Square, s: Square) -> bool
    ensures { result ≡ is_between_on_diagonal a b s }
{
    is_diagonal(a, b)
        && is_diagonal(a, s)
        && is_diagonal(s, b)
        && is_amid(a.file(), b.file(), s.file())
        && is_amid(a.rank(), b.rank(), s.rank())
}

/// Whether a square lies strictly between two others.
fn is_between(a: Square, b: Square, s: Square) -> bool
    ensures { result ≡ between a b s }
{
    is_on_rank(a, b, s) || is_on_file(a, b, s) || is_on_diagonal(a, b, s)
}

/// Whether a square is no hindrance between two others.
fn is_open(men: &[Option<Man>], a: Square, b: Square, s: Square) -> bool
    ensures { result ≡ open_between men.now a b s }
{
    !is_between(a, b, s) || man_at(men, s).is_none()
}

/// Whether no man stands strictly between two squares.
#[tactic(auto, unfolding(chess_board::specs::Squares::all_below))]
fn is_clear(men: &[Option<Man>], a: Square, b: Square) -> bool
    ensures { result ≡ clear men.now a b }
{
    let mut clear = true;
    for number in 0..64 {
        let open = is_open(men, a, b, Square::numbered(number));
        clear &= open;
    }
    clear
}

fn is_rook_line(a: Square, b: Square) -> bool
    ensures { result ≡ rook_line a b }
{
    a != b && (a.rank() == b.rank() || a.file() == b.file())
}

fn is_bishop_line(a: Square, b: Square) -> bool
    ensures { result ≡ bishop_line a b }
{
    a != b && is_diagonal(a, b)
}

/// Whether b is a rank in front of a, as the colour's pawns go.
fn is_forward(colour: Colour, a: Square, b: Square) -> bool
    ensures { result ≡ forward colour 1 a b }
{
    match colour {
        Colour::White => b.rank() == a.rank() + 1,
        Colour::Black => a.rank() == b.rank() + 1,
    }
}

fn is_knight_leap(files: u8, ranks: u8) -> bool
    ensures { result ≡ (((files == 1) && (ranks == 2)) || ((files == 2) && (ranks == 1))) }
{
    files == 1 && ranks == 2 || files == 2 && ranks == 1
}

/// Whether a man on a attacks b.
fn attacks_as(men: &[Option<Man>], man: Man, a: Square, b: Square) -> bool
    ensures { result ≡ does_attack_as men.now man.colour man.kind a b }
{
    let files = gap(a.file(), b.file());
    let ranks = gap(a.rank(), b.rank());
    match man.kind {
        Kind::Pawn => files == 1 && is_forward(man.colour, a, b),
        Kind::Knight => is_knight_leap(files, ranks),
        Kind::Bishop => is_bishop_line(a, b) && is_clear(men, a, b),
        Kind::Rook => is_rook_line(a, b) && is_clear(men, a, b),
        Kind::Queen => (is_bishop_line(a, b) || is_rook_line(a, b)) && is_clear(men, a, b),
        Kind::King => a != b && files <= 1 && ranks <= 1,
    }
}

/// Whether a man of the colour on a attacks b.
fn attacks_from(men: &[Option<Man>], by: Colour, a: Square, b: Square) -> bool
    ensures { result ≡ does_attack_from men.now by a b }
{
    match man_at(men, a) {
        Some(man) => man.colour == by && attacks_as(men, man, a, b),
        None => false,
    }
}

fn man_name(man: &Option<Man>) -> &'static [u8]
    ensures { result.now ≡ name_of_man man.now }
{
    match man {
        Some(man) => kind_name(man.kind),
        None => b"",
    }
}

/// Tells where a man of the colour on a square attacks a king.
#[tactic(auto, unfolding(crate::specs::Checks::attacker_told))]
fn push_attacker(
    text: &mut Vec<u8>,
    men: &[Option<Man>],
    by: Colour,
    king: Square,
    square: Square,
) -> Result<(), AllocError>
    ensures { IfOk result (λ _. text.new.items ≡ text.old.items ++ attacker_told men.now by king square) }
{
    let man = man_at(men, square);
    push_if(
        text,
        attacks_from(men, by, square, king),
        &[
            b"the king on ",
            &[king.file_letter(), king.rank_digit()],
            b" is attacked by the ",
            man_name(&man),
            b" on ",
            &[square.file_letter(), square.rank_digit()],
            b", and its side isn't to move",
        ],
    )
}

/// Tells of each man of the colour that attacks a king.
#[tactic(auto, unfolding(crate::specs::Sentences::each_below))]
fn push_each_attacker(
    text: &mut Vec<u8>,
    men: &[Option<Man>],
    by: Colour,
    king: Square,
) -> Result<(), AllocError>
    ensures { IfOk result (λ _. text.new.items ≡ text.old.items ++ each_below 64 (λ square. attacker_told men.now by king square)) }
{
    for number in 0..64 {
        push_attacker(text, men, by, king, Square::numbered(number))?;
    }
    Ok(())
}

fn is_king(man: &Option<Man>, colour: Colour) -> bool
    ensures { result ≡ is_such_man colour kind.King man.now }
{
    match man {
        Some(man) => man.colour == colour && man.kind == Kind::King,
        None => false,
    }
}

/// Tells of all that attack a king of the colour, where one stands on the square.
#[tactic(auto, unfolding(crate::specs::Checks::attackers_told))]
fn push_attackers(
    text: &mut Vec<u8>,
    men: &[Option<Man>],
    colour: Colour,
    king: Square,
) -> Result<(), AllocError>
    ensures { IfOk result (λ _. text.new.items ≡ text.old.items ++ attackers_told men.now colour king) }
{
    let man = man_at(men, king);
    if is_king(&man, colour) {
        return push_each_attacker(text, men, colour.other(), king);
    }
    Ok(())
}

/// Tells of all that attack a king of the colour.
#[tactic(auto, unfolding(crate::specs::Checks::checks_told, crate::specs::Sentences::each_below))]
pub(crate) fn push_checks(
    text: &mut Vec<u8>,
    men: &[Option<Man>],
    colour: Colour,
) -> Result<(), AllocError>
    ensures { IfOk result (λ _. text.new.items ≡ text.old.items ++ checks_told men.now colour) }
{
    for number in 0..64 {
        push_attackers(text, men, colour, Square::numbered(number))?;
    }
    Ok(())
}
