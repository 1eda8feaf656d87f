//! Check squares: from where a man of each kind attacks the king of the side that is not to move. They tell whether a move gives check,
//! unless it may open a line to that king, promotes, castles or captures en passant.

ghost use Rattle.std.specs.Prelude.{◌≡◌, ◌<◌, true, false, not, ◌||◌, Some};
ghost use Rattle.square_sets.specs.Members.{has};
ghost use Rattle.chess_board.specs.Legality.{is_legal};
ghost use Rattle.chess_board.specs.Moves.{Move as MoveValue};
ghost use Rattle.chess_board.specs.Positions.{man_at};
ghost use Rattle.chess_moves.specs.inside.CheckSquares.{AreCheckSquaresOf, squares_of as squares_for, is_special as is_special_move};
ghost use Rattle.chess_moves.specs.inside.LegalityInfo.{IsLegalityInfo};

use crate::castling_targets::castling_goals;
use crate::directions::Leap;
use crate::en_passant_targets::en_passant_square;
use crate::legality_info::LegalityInfo;
use crate::promotions::promotion_squares;
use crate::ray_tables::Rays;
use chess_board::{Kind, Man, Move, Position, is_castling, is_en_passant};

/// For each kind, the squares from which a man of the side to move attacks the king of the other side.
#[derive(Clone, Copy)]
pub(crate) struct CheckSquares {
    pub pawn: u64,
    pub knight: u64,
    pub bishop: u64,
    pub rook: u64,
    pub queen: u64,
    pub king: u64,
}

/// The check squares of a position.
pub(crate) fn check_squares_of(rays: &Rays, position: &Position) -> CheckSquares
    ensures { AreCheckSquaresOf result position.now }
{
    let side = position.side();
    let enemy = side.other();
    let king = position.king(enemy).index() as u8;
    let occupied = position.occupied();
    let bishop = rays.bishop_attacks(king, occupied);
    let rook = rays.rook_attacks(king, occupied);
    CheckSquares {
        pawn: rays.leap(king, Leap::capture_back(side)),
        knight: rays.leap(king, Leap::KnightLeap),
        bishop,
        rook,
        queen: bishop | rook,
        king: rays.leap(king, Leap::KingStep),
    }
}

/// The squares from which a man of a kind attacks the king, as the board stands.
pub(crate) fn squares_of(check_squares: &CheckSquares, kind: Kind) -> u64
    ensures { result ≡ squares_for check_squares.now kind }
{
    match kind {
        Kind::Pawn => check_squares.pawn,
        Kind::Knight => check_squares.knight,
        Kind::Bishop => check_squares.bishop,
        Kind::Rook => check_squares.rook,
        Kind::Queen => check_squares.queen,
        Kind::King => check_squares.king,
    }
}

/// Whether a man of a kind attacks the king from a square, as the board stands.
pub(crate) fn attacks_king(check_squares: &CheckSquares, kind: Kind, square: u8) -> bool
    requires { square < 64 }
    ensures { result ≡ has (squares_for check_squares.now kind) square }
{
    square_sets::contains(squares_of(check_squares, kind), square)
}

/// Whether a move does more than take its man from one square to another: it promotes, captures en passant, or castles.
fn is_special(position: &Position, man: Man, m: Move) -> bool
    ensures { result ≡ is_special_move position.now man m }
{
    m.promotion.is_some() || is_en_passant(position, man, m) || is_castling(man, m)
}

/// Whether the check squares tell if a move gives check. They do not where the man leaves a square from which a queen would attack
/// the king, since it may open a line, nor where the move is special.
pub(crate) fn is_told(position: &Position, check_squares: &CheckSquares, man: Man, m: Move) -> bool
    ensures { result ≡ not (has check_squares.now.queen m.origin || is_special_move position.now man m) }
{
    !square_sets::contains(check_squares.queen, m.origin.index() as u8)
        && !is_special(position, man, m)
}

/// The squares to which a man's special moves go; a king's that castles, whether or not it may.
#[inline(always)]
pub(crate) fn special_squares(info: &LegalityInfo, man: Man) -> u64
    requires info { IsLegalityInfo info.now }
    ensures { (m : MoveValue) → is_legal info.now.position.now m ≡ true → man_at info.now.position.now.men m.origin ≡ Some man
        → m.origin < 64 → m.target < 64 → has result m.target ≡ false → is_special_move info.now.position.now man m ≡ false }
{
    match man.kind {
        Kind::Pawn => promotion_squares(man) | en_passant_square(info.position),
        Kind::King => castling_goals(info),
        Kind::Knight | Kind::Bishop | Kind::Rook | Kind::Queen => 0,
    }
}
