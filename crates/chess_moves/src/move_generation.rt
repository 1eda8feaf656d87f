//! Move generation: the legal moves one after the other, none of which is looked for before it is asked for; the list of them; and
//! whether a move is one of them.

ghost use Rattle.std.specs.Prelude.{◌≡◌, ◌<◌, ◌≤◌, ◌∷◌, true, filter, length};
ghost use Rattle.std.specs.Iterator.{YieldsFirst, item_count};
ghost use Rattle.chess_board.specs.PseudoLegal.{suits};
ghost use Rattle.chess_board.specs.Legality.{is_legal as is_legal_in};
ghost use Rattle.chess_board.specs.Men.{is_of};
ghost use Rattle.chess_board.specs.Positions.{man_at};
ghost use Rattle.square_sets.specs.Members.{has};
ghost use Rattle.chess_moves.specs.inside.Listing.{moves_to, legal_moves};
ghost use Rattle.chess_moves.specs.inside.MoveGeneration.{next_promotion, man_moves};
ghost use Rattle.chess_moves.specs.inside.LegalityInfo.{IsLegalityInfo};

use crate::legal_targets::{is_target, targets_from};
use crate::legality_info::{LegalityInfo, bare_info_of, legality_info_of};
use crate::movers::{Mover, king_of, mover_on};
use crate::promotions::promotion_squares;
use crate::ray_tables::Rays;
use crate::side_men::{all_of, side_men_of};
use arrayvec::ArrayVec;
use chess_board::{Kind, Man, Move, Position, Square};
use square_sets::SquareScan;
use std::iter::FusedIterator;
use std::marker::Model;

/// The legal moves of a position that are still to come, in the order of moves. A contract sees the list of them.
#[derive(Drop)]
pub struct LegalMoves<'a> {
    info: LegalityInfo<'a>,
    /// The squares of the men that have not had their turn.
    origins: SquareScan,
    turn: ManMoves,
}

impl<'a> Model for LegalMoves<'a> {
    ghost use Rattle.std.specs.Prelude.{List};
    ghost use Rattle.chess_board.specs.Moves.{Move};

    ghost Value = { List Move };

    ghost use Rattle.chess_moves.specs.inside.MoveGeneration.{moves_left, IsUnderWay};

    ghost view = { moves_left };

    ghost invariant = { IsUnderWay };
}

/// The legal moves of a position, each once, by origin, then target, then promotion (none, knight, bishop, rook, queen).
pub fn legal_moves<'a>(rays: &'a Rays, position: &'a Position) -> LegalMoves<'a>
    ensures moves { result ≡ legal_moves position.now }
    ensures few { length result ≤ 1024 }
{
    let info = legality_info_of(rays, position);
    LegalMoves {
        info,
        origins: square_sets::squares(info.own),
        turn: ManMoves {
            mover: king_of(&info),
            targets: 0,
            promotion: Kind::Knight,
        },
    }
}

/// Of the legal moves those of the men on these squares, in the same order. The other men are not asked where they go.
pub fn legal_moves_of<'a>(rays: &'a Rays, position: &'a Position, men: u64) -> LegalMoves<'a>
    ensures { result ≡ filter (λ m. has men m.origin) (legal_moves position.now) }
{
    let info = legality_info_of(rays, position);
    LegalMoves {
        info,
        origins: square_sets::squares(info.own & men),
        turn: ManMoves {
            mover: king_of(&info),
            targets: 0,
            promotion: Kind::Knight,
        },
    }
}

impl<'a> Iterator for LegalMoves<'a> {
    type Item = Move;

    ghost next_gives = { YieldsFirst (λ left. left) };

    ghost remaining = { item_count (λ left. left) };

    #[inline(always)]
    fn next(&mut self) -> Option<Move> {
        while self.turn.targets == 0 {
            let origin = self.origins.next()?;
            self.turn = moves_of_man(&self.info, origin);
        }
        Some(self.turn.take())
    }
}

impl<'a> FusedIterator for LegalMoves<'a> {}

/// One man's legal moves that are still to come.
#[derive(Clone, Copy)]
pub(crate) struct ManMoves {
    pub targets: u64,
    pub mover: Mover,
    /// What the man becomes first on the lowest of its targets, if it is promoted there.
    pub promotion: Kind,
}

/// The legal moves of the man of the side to move on a square.
fn moves_of_man(info: &LegalityInfo, origin: u8) -> ManMoves
    requires on_board { origin < 64 }
    requires info { IsLegalityInfo info.now }
    requires own { is_of info.now.position.now.side (man_at info.now.position.now.men origin) ≡ true }
    ensures moves { man_moves result ≡ filter (is_legal_in info.now.position.now) (moves_to origin 64) }
    ensures on_board { result.mover.origin < 64 }
{
    let mover = mover_on(info.position, origin);
    ManMoves {
        mover,
        targets: targets_from(info, mover),
        promotion: Kind::Knight,
    }
}

impl ManMoves {
    /// Takes the first of the moves.
    #[inline(always)]
    pub(crate) fn take(&mut self) -> Move
        requires on_board { self.old.mover.origin < 64 }
        requires some { 0 < self.old.targets }
        ensures moves { man_moves self.old ≡ result ∷ man_moves self.new }
        ensures mover { self.new.mover ≡ self.old.mover }
    {
        let target = square_sets::lowest(self.targets);
        let others = square_sets::without_lowest(self.targets);
        let promotion = if square_sets::contains(promotion_squares(self.mover.man), target) {
            Some(self.promotion)
        } else {
            None
        };
        match next_promotion(promotion) {
            Some(kind) => self.promotion = kind,
            None => {
                self.targets = others;
                self.promotion = Kind::Knight;
            }
        }
        Move {
            origin: Square::numbered(self.mover.origin),
            target: Square::numbered(target),
            promotion,
        }
    }
}

/// The promotion that comes after this one, if it is one and not the last.
fn next_promotion(promotion: Option<Kind>) -> Option<Kind>
    ensures { result ≡ next_promotion promotion }
{
    match promotion {
        Some(Kind::Knight) => Some(Kind::Bishop),
        Some(Kind::Bishop) => Some(Kind::Rook),
        Some(Kind::Rook) => Some(Kind::Queen),
        _ => None,
    }
}

/// A list of moves of one position: a side has at most 16 men, and each of them at most 64 moves.
pub type MoveList = ArrayVec<Move, 1024>;

/// Whether a move is legal (FIDE Laws of Chess, article 3.10.1): its man may make it, and it does not leave its own king
/// attacked.
pub fn is_legal(rays: &Rays, position: &Position, m: Move) -> bool
    ensures { result ≡ is_legal_in position.now m }
{
    let origin = m.origin.index() as u8;
    let own = all_of(&side_men_of(position, position.side()));
    if !square_sets::contains(own, origin) {
        return false;
    }
    let mover = mover_on(position, origin);
    if !is_suited(mover.man, m) {
        return false;
    }
    let info = bare_info_of(rays, position);
    let target = m.target.index() as u8;
    is_target(&info, mover, target)
}

/// Whether a man is promoted as a move says: a pawn on its last rank is, and no other man (FIDE Laws of Chess, article 3.7).
fn is_suited(man: Man, m: Move) -> bool
    ensures { result ≡ suits man m.target m.promotion }
{
    let last = square_sets::contains(promotion_squares(man), m.target.index() as u8);
    match m.promotion {
        None => !last,
        Some(Kind::Pawn) | Some(Kind::King) => false,
        Some(_) => last,
    }
}

/// Exactly the legal moves, each once, by origin, then target, then promotion (none, knight, bishop, rook, queen). An empty
/// list means that the game has ended.
pub fn legal(rays: &Rays, position: &Position) -> MoveList
    ensures { result.items ≡ legal_moves position.now }
{
    let mut list = MoveList::new();
    for m in legal_moves(rays, position) {
        list.push(m);
    }
    list
}
