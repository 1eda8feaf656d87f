//! What a word says of a move, and whether a move fits it.

ghost use Rattle.std.specs.Prelude.{◌≡◌};
ghost use Rattle.move_words.specs.Patterns.{captures as does_capture, fits as does_fit, fits_going as does_fit_going, fits_man as does_fit_man};
ghost use Rattle.move_words.specs.Patterns.{fits_capture as does_fit_capture, going_of as going_of_parts, is_kind_said as is_kind_of};
ghost use Rattle.move_words.specs.Patterns.{is_told_by_rank as is_told_by_its_rank, is_towards as is_towards_wing, man_said as man_said_by};
ghost use Rattle.move_words.specs.Patterns.{may_capture as may_be_capture, pattern_of as pattern_of_word};

use crate::languages::Letters;
use crate::letters::Sign;
use crate::parts::{Parts, castling_wing, parts_of};
use crate::places::Place;
use chess_board::{Kind, Man, Move, Position, Wing, is_castling, is_en_passant};

/// What is said of a man's move.
#[derive(Clone, Copy)]
pub struct Going {
    /// Which man, or any.
    pub man: Option<Kind>,
    pub from: Place,
    /// Whether it captures; if not said so, it may, but a pawn only where its file is said.
    pub captures: bool,
    pub to: Place,
    /// What the pawn becomes, or anything.
    pub promotion: Option<Kind>,
}

/// What a word says of a move.
#[derive(Clone, Copy)]
pub enum Pattern {
    Castling(Wing),
    Going(Going),
}

/// The man that is meant: a pawn, where no letter is there and not both squares are.
fn man_said(man: Option<Kind>, from: Place) -> Option<Kind>
    ensures { result ≡ man_said_by man from }
{
    match man {
        Some(kind) => Some(kind),
        None if from.is_square() => None,
        None => Some(Kind::Pawn),
    }
}

/// Whether a man without a letter is told by its rank alone, as no pawn is.
fn is_told_by_rank(man: Option<Kind>, from: Place) -> bool
    ensures { result ≡ is_told_by_its_rank man from }
{
    man.is_none() && from.rank.is_some() && from.file.is_none()
}

/// What the parts of a word say: the second place is the target, or the first where nothing stands behind it.
fn going_of(parts: Parts) -> Option<Going>
    ensures { result ≡ going_of_parts parts }
{
    if !parts.is_ended || is_told_by_rank(parts.man, parts.first) {
        return None;
    }
    let captures = matches!(parts.sign, Some(Sign::Captures));
    if parts.second.is_square() {
        return Some(Going {
            man: man_said(parts.man, parts.first),
            from: parts.first,
            captures,
            to: parts.second,
            promotion: parts.promotion,
        });
    }
    if parts.second.is_nowhere() && parts.sign.is_none() && parts.first.is_square() {
        return Some(Going {
            man: man_said(parts.man, Place::NOWHERE),
            from: Place::NOWHERE,
            captures,
            to: parts.first,
            promotion: parts.promotion,
        });
    }
    None
}

/// What a word says of a move, or nothing that can be understood.
#[tactic(auto, unfolding(crate::specs::Patterns::pattern_of))]
pub(crate) fn pattern_of(letters: &Letters, word: &[u8]) -> Option<Pattern>
    ensures { result ≡ pattern_of_word letters.now word.now }
{
    if let Some(wing) = castling_wing(word) {
        return Some(Pattern::Castling(wing));
    }
    match going_of(parts_of(letters, word)) {
        Some(going) => Some(Pattern::Going(going)),
        None => None,
    }
}

/// Whether the kind is what is said, if something is.
fn is_kind_said(said: Option<Kind>, kind: Kind) -> bool
    ensures { result ≡ is_kind_of said kind }
{
    match said {
        Some(said) => said == kind,
        None => true,
    }
}

/// Whether a man's move captures: a man on its target, or a pawn en passant.
fn captures(position: &Position, man: Man, m: Move) -> bool
    ensures { result ≡ does_capture position.now man m }
{
    position.man(m.target).is_some() || is_en_passant(position, man, m)
}

/// Whether a man of this kind may capture: a pawn's capture is said, by its sign or by the file that the pawn comes from (FIDE Laws of
/// Chess, appendix C).
fn may_capture(going: &Going, kind: Kind) -> bool
    ensures { result ≡ may_be_capture going.now kind }
{
    going.captures || going.from.file.is_some() || kind != Kind::Pawn
}

/// Whether what is said of a capture is true of such a man's move, which captures or doesn't.
fn fits_capture(going: &Going, kind: Kind, is_capture: bool) -> bool
    ensures { result ≡ does_fit_capture going.now kind is_capture }
{
    if is_capture {
        may_capture(going, kind)
    } else {
        !going.captures
    }
}

/// Whether what is said is true of a man's move.
fn fits_going(position: &Position, going: &Going, man: Man, m: Move) -> bool
    ensures { result ≡ does_fit_going position.now going.now man m }
{
    if !(is_kind_said(going.man, man.kind) && going.from.is_at(m.origin)) {
        return false;
    }
    if !going.to.is_at(m.target) || !fits_capture(going, man.kind, captures(position, man, m)) {
        return false;
    }
    match going.promotion {
        Some(kind) => m.promotion == Some(kind),
        None => true,
    }
}

/// Whether a move goes towards a wing.
fn is_towards(wing: Wing, m: Move) -> bool
    ensures { result ≡ is_towards_wing wing m }
{
    match wing {
        Wing::KingSide => m.origin.index() < m.target.index(),
        Wing::QueenSide => m.target.index() < m.origin.index(),
    }
}

/// Whether all that a word says is true of a man's move.
fn fits_man(position: &Position, pattern: &Pattern, man: Man, m: Move) -> bool
    ensures { result ≡ does_fit_man position.now pattern.now man m }
{
    match pattern {
        Pattern::Castling(wing) => is_castling(man, m) && is_towards(*wing, m),
        Pattern::Going(going) => fits_going(position, going, man, m),
    }
}

/// Whether all that a word says is true of a move.
#[tactic(auto, unfolding(crate::specs::Patterns::fits))]
pub(crate) fn fits(position: &Position, pattern: &Pattern, m: Move) -> bool
    ensures { result ≡ does_fit position.now pattern.now m }
{
    match position.man(m.origin) {
        Some(man) => fits_man(position, pattern, man, m),
        None => false,
    }
}
