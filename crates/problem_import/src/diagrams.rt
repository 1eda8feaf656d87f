//! A board that is filled by Popeye's words.

ghost use Rattle.std.specs.Prelude.{◌≡◌, ◌<◌, ◌==◌, ◌∷◌, ℕ, length, IfOk, IfSome, IfNone, IsTrue, Some, None, false, true, if◌then◌else◌};
ghost use Rattle.chess_board.specs.Men.{has_right_of, is_man};
ghost use Rattle.chess_board.specs.Positions.{man_at};
ghost use Rattle.chess_board.specs.declared.men.Colour.{Colour as ColourValue};
ghost use Rattle.chess_board.specs.declared.men.Wing.{Wing as WingValue};
ghost use Rattle.problem_import.specs.PopeyeProblems.{are_squares_on, is_men as are_men, is_square, kind_of as kind_of_letter};
ghost use Rattle.problem_import.specs.PopeyeProblems.{man_of_letter as man_named, man_among, man_placed, man_said, or_man, square_at as square_of_place};
ghost use Rattle.problem_import.specs.PopeyeProblems.{square_of as square_of_text};
ghost use Rattle.problem_import.specs.SetUps.{is_right};
ghost use Rattle.problem_import.specs.inside.ReadProblems.{IsSet, IsSetAs};

use crate::import_faults::ImportFault;
use crate::operations::push_bound_operation;
use crate::texts::push_byte;
use chess_board::{
    Colour, FenFault, Kind, Man, Position, Square, Wing, king_home, read_fields, rook_home,
};
use chess_notation::{EpdFault, four_words};
use std::alloc::AllocError;

/// The men on the 64 squares, a1 first.
#[derive(Clone, Copy)]
pub(crate) struct Diagram {
    men: [Option<Man>; 64],
}

/// What is said of squares that are none, and of two men on one.
pub(crate) const BAD_PLACEMENT: ImportFault = ImportFault::Record(EpdFault::Fen(
    FenFault::BadPlacement,
));

/// The kind of a man by Popeye's letter: `S` is the knight.
fn kind_of(letter: u8) -> Option<Kind>
    ensures { result ≡ kind_of_letter letter }
{
    match letter.to_ascii_uppercase() {
        b'K' => Some(Kind::King),
        b'Q' => Some(Kind::Queen),
        b'R' => Some(Kind::Rook),
        b'B' => Some(Kind::Bishop),
        b'S' => Some(Kind::Knight),
        b'P' => Some(Kind::Pawn),
        _ => None,
    }
}

/// The square of a file's letter, small or large, and a rank's digit.
fn square_of(file: u8, rank: u8) -> Option<Square>
    ensures some { IfSome result (λ square. is_square file rank ≡ true) }
    ensures number { IfSome result (λ square. square ≡ square_of_text file rank) }
    ensures none { IfNone result (is_square file rank ≡ false) }
{
    let file = file.to_ascii_lowercase();
    if !(b'a'..=b'h').contains(&file) || !(b'1'..=b'8').contains(&rank) {
        return None;
    }
    Square::at(file - b'a', rank - b'1')
}

/// The first two bytes of a text, and what stands behind them.
fn cut_pair(text: &[u8]) -> Option<(u8, u8, &[u8])>
    ensures some { IfSome result (λ cut. text.now ≡ cut.0 ∷ cut.1 ∷ cut.2.now) }
    ensures none { IfNone result (length text.now < 2) }
{
    match text {
        [first, second, more @ ..] => Some((*first, *second, more)),
        _ => None,
    }
}

/// Whether a text is squares, one behind the other.
fn are_squares(text: &[u8]) -> bool
    ensures { result ≡ are_squares_on text.now }
{
    let mut rest = text;
    while let [file, rank, more @ ..] = rest {
        if square_of(*file, *rank).is_none() {
            return false;
        }
        rest = more;
    }
    rest.is_empty()
}

/// Whether a word says men on squares, such as `Sb5f4`.
pub(crate) fn is_men(word: &[u8]) -> bool
    ensures { result ≡ are_men word.now }
{
    match word {
        [letter, squares @ ..] => {
            !squares.is_empty() && kind_of(*letter).is_some() && are_squares(squares)
        }
        [] => false,
    }
}

/// The man of a letter of a placement: White's are large.
fn man_of_letter(letter: u8) -> Option<Man>
    ensures { result ≡ man_named letter }
{
    let kind = kind_of(letter)?;
    let colour = if letter.is_ascii_uppercase() {
        Colour::White
    } else {
        Colour::Black
    };
    Some(Man { colour, kind })
}

/// The square of a place of a placement, where a8 is the first.
fn square_at(place: usize) -> Square
    requires { place < 64 }
    ensures { result ≡ square_of_place place }
{
    Square::numbered((8 * (7 - place / 8) + place % 8) as u8)
}

/// Whether a man of the colour and the kind stands on a square.
fn is_at(position: &Position, square: Square, colour: Colour, kind: Kind) -> bool
    ensures { result ≡ is_man colour kind (man_at position.now.men square) }
{
    match position.man(square) {
        Some(man) => man.colour == colour && man.kind == kind,
        None => false,
    }
}

/// Whether there is a right to castle exactly where king and rook stand at home (Codex for Chess Composition, article 16).
fn has_right_at_home(position: &Position, colour: Colour, wing: Wing) -> bool
    ensures { IsTrue result → has_right_of position.now.rights colour wing ≡ is_right position.now.men colour wing }
{
    let is_home = is_at(position, king_home(colour), colour, Kind::King)
        && is_at(position, rook_home(colour, wing), colour, Kind::Rook);
    position.has_right(colour, wing) == is_home
}

/// Whether that is so of each.
fn has_rights_at_home(position: &Position) -> bool
    ensures { IsTrue result → (colour : ColourValue) (wing : WingValue)
        → has_right_of position.now.rights colour wing ≡ is_right position.now.men colour wing }
{
    has_right_at_home(position, Colour::White, Wing::KingSide)
        && has_right_at_home(position, Colour::White, Wing::QueenSide)
        && has_right_at_home(position, Colour::Black, Wing::KingSide)
        && has_right_at_home(position, Colour::Black, Wing::QueenSide)
}

/// Whether the same stands on two squares.
fn are_same(a: Option<Man>, b: Option<Man>) -> bool
    ensures { IsTrue result → a ≡ b }
{
    match (a, b) {
        (Some(a), Some(b)) => a.colour == b.colour && a.kind == b.kind,
        (None, None) => true,
        _ => false,
    }
}

/// Adds the digit for so many empty squares, or nothing for none.
fn push_empty(text: &mut Vec<u8>, count: u8) -> Result<(), AllocError> {
    if count == 0 {
        return Ok(());
    }
    push_byte(text, b'0'.saturating_add(count))
}

/// The letter of a man as FEN has it.
fn fen_letter(man: Man) -> u8 {
    match man.colour {
        Colour::White => man.kind.letter(),
        Colour::Black => man.kind.letter().to_ascii_lowercase(),
    }
}

impl Diagram {
    /// Without men.
    pub(crate) fn new() -> Diagram
        ensures { (square : ℕ) → square < 64 → man_at result.men square ≡ None }
    {
        Diagram { men: [None; 64] }
    }

    /// Puts a man on a square that is empty.
    fn put(&mut self, square: Square, man: Man) -> Result<(), ImportFault>
        ensures { IfOk result (λ _. (s : ℕ) → s < 64
            → man_at self.new.men s ≡ or_man (man_at self.old.men s) (if square == s then Some man else None)) }
    {
        let index = square.index();
        if self.men[index].is_some() {
            return Err(BAD_PLACEMENT);
        }
        self.men[index] = Some(man);
        Ok(())
    }

    /// Puts a man on each of such squares.
    #[tactic(auto, using(crate::proofs::ReadProblems::or_next))]
    fn put_each(&mut self, squares: &[u8], man: Man) -> Result<(), ImportFault>
        ensures { IfOk result (λ _. (s : ℕ) → s < 64
            → man_at self.new.men s ≡ or_man (man_at self.old.men s) (man_among squares.now (Some man) s)) }
    {
        let mut rest = squares;
        while let Some((file, rank, more)) = cut_pair(rest) {
            let Some(square) = square_of(file, rank) else {
                return Err(BAD_PLACEMENT);
            };
            self.put(square, man)?;
            rest = more;
        }
        Ok(())
    }

    /// Puts the men of a word such as `Sb5f4`.
    pub(crate) fn put_word(&mut self, word: &[u8], colour: Colour) -> Result<(), ImportFault>
        ensures men { IfOk result (λ _. are_men word.now ≡ true) }
        ensures put { IfOk result (λ _. (s : ℕ) → s < 64
            → man_at self.new.men s ≡ or_man (man_at self.old.men s) (man_said (Some colour) word.now s)) }
    {
        if !is_men(word) {
            return Err(ImportFault::FairyPiece);
        }
        let [letter, squares @ ..] = word else {
            return Err(ImportFault::FairyPiece);
        };
        let Some(kind) = kind_of(*letter) else {
            return Err(ImportFault::FairyPiece);
        };
        self.put_each(squares, Man { colour, kind })
    }

    /// Puts the men of a placement with `S` for the knight.
    pub(crate) fn put_forsyth(&mut self, word: &[u8]) -> Result<(), ImportFault>
        ensures { IfOk result (λ _. (s : ℕ) → s < 64
            → man_at self.new.men s ≡ or_man (man_at self.old.men s) (man_placed 0 word.now s)) }
    {
        let mut place = 0_usize;
        let mut rest = word;
        while let [byte, more @ ..] = rest {
            if *byte == b'/' {
                if place % 8 != 0 {
                    return Err(BAD_PLACEMENT);
                }
            } else if (b'1'..=b'8').contains(byte) {
                place += (*byte - b'0') as usize;
            } else {
                let Some(man) = man_of_letter(*byte) else {
                    return Err(ImportFault::FairyPiece);
                };
                if place >= 64 {
                    return Err(BAD_PLACEMENT);
                }
                self.put(square_at(place), man)?;
                place += 1;
            }
            if place > 64 {
                return Err(BAD_PLACEMENT);
            }
            rest = more;
        }
        if place == 64 {
            Ok(())
        } else {
            Err(BAD_PLACEMENT)
        }
    }

    /// Adds the placement as FEN writes it.
    fn push_placement(&self, text: &mut Vec<u8>) -> Result<(), AllocError> {
        let mut empty = 0_u8;
        for place in 0..64_usize {
            if place > 0 && place % 8 == 0 {
                push_empty(text, empty)?;
                empty = 0;
                text.push(b'/')?;
            }
            match self.men[square_at(place).index()] {
                Some(man) => {
                    push_empty(text, empty)?;
                    empty = 0;
                    text.push(fen_letter(man))?;
                }
                None => empty = empty.saturating_add(1),
            }
        }
        push_empty(text, empty)
    }

    /// Whether a man of a side stands on a square.
    fn has(&self, square: Square, colour: Colour, kind: Kind) -> bool {
        are_same(self.men[square.index()], Some(Man { colour, kind }))
    }

    /// Adds each castling right whose king and rook stand at home, or `-`.
    fn push_rights(&self, text: &mut Vec<u8>) -> Result<(), AllocError> {
        let mut has_none = true;
        for (colour, wing, letter) in [
            (Colour::White, Wing::KingSide, b'K'),
            (Colour::White, Wing::QueenSide, b'Q'),
            (Colour::Black, Wing::KingSide, b'k'),
            (Colour::Black, Wing::QueenSide, b'q'),
        ] {
            if self.has(king_home(colour), colour, Kind::King)
                && self.has(rook_home(colour, wing), colour, Kind::Rook)
            {
                text.push(letter)?;
                has_none = false;
            }
        }
        if has_none {
            text.push(b'-')?;
        }
        Ok(())
    }

    /// Adds a problem with these men, in which White moves and mates in so many moves.
    pub(crate) fn push_problem(&self, text: &mut Vec<u8>, moves: u8) -> Result<(), AllocError> {
        self.push_placement(text)?;
        text.extend_from_slice(b" w ")?;
        self.push_rights(text)?;
        text.extend_from_slice(b" -")?;
        push_bound_operation(text, moves)
    }

    /// Whether a position has exactly these men.
    fn has_men(&self, position: &Position) -> bool
        ensures { IsTrue result → (s : ℕ) → s < 64 → man_at position.now.men s ≡ man_at self.now.men s }
    {
        for number in 0..64 {
            if !self.is_alike_on(position, number) {
                return false;
            }
        }
        true
    }

    /// Whether a position has on a square what stands there.
    fn is_alike_on(&self, position: &Position, number: u8) -> bool
        requires { number < 64 }
        ensures { IsTrue result → man_at position.now.men number ≡ man_at self.now.men number }
    {
        let square = Square::numbered(number);
        are_same(position.man(square), self.men[square.index()])
    }

    /// Whether a position has these men, White moves in it, and castling is allowed where king and rook stand at home.
    #[tactic(auto, unfolding(crate::specs::inside::ReadProblems::IsSet))]
    fn is_set_in(&self, position: &Position) -> bool
        ensures { IsTrue result → IsSet self.now.men position.now }
    {
        self.has_men(position)
            && matches!(position.side(), Colour::White)
            && has_rights_at_home(position)
            && position.ep_target().is_none()
    }

    /// Whether a text says such a position, if it says one.
    pub(crate) fn is_said_by(&self, text: &[u8]) -> bool
        ensures { IsTrue result → IsSetAs self.now.men text.now }
    {
        let fields = four_words(text);
        match read_fields(
            fields.placement,
            fields.side,
            fields.castling,
            fields.target,
        ) {
            Ok(position) => self.is_set_in(&position),
            Err(_) => true,
        }
    }
}
