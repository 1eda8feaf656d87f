//! Guards of escapes: the squares to which the side to move has to go, if its move is to leave the other king no escape that is seen
//! before it. Of the moves to other squares none needs to be made to see that it leaves one.

ghost use Rattle.std.specs.Prelude.{◌≡◌, ℕ, ◌<◌, Bool, true, false};
ghost use Rattle.square_sets.specs.Members.{has};
ghost use Rattle.chess_board.specs.declared.men.Kind.TheVariants as kind;
ghost use Rattle.chess_board.specs.inside.KindTests.{is_king_kind, is_pawn_kind};
ghost use Rattle.chess_board.specs.Legality.{is_legal};
ghost use Rattle.chess_board.specs.MakeMove.{after_setup};
ghost use Rattle.chess_board.specs.Men.{other_side};
ghost use Rattle.chess_moves.specs.Escapes.{AreGuardsOf, Escape, IsGuardedFrom};
ghost use Rattle.chess_moves.specs.inside.EscapeGuards.{guards_of};
ghost use Rattle.chess_moves.specs.inside.EscapeSquares.{IsRefuge};
ghost use Rattle.chess_moves.specs.inside.Hits.{hits_as};

use crate::attacked_sets::leapt_to;
use crate::directions::Leap;
use crate::escapes::refuge;
use crate::flights::{lines_to, lines_to_all};
use crate::king_steps::steps_of_king;
use crate::mating_men::rank_before_last;
use crate::ray_tables::Rays;
use chess_board::{Colour, Kind, Move, Position, king_home, sound_after};

/// For each kind the squares to which its men go, if a move of theirs is to leave the other king none of its escapes.
#[derive(Clone, Copy)]
pub struct EscapeGuards {
    pub pawn: u64,
    pub knight: u64,
    pub bishop: u64,
    pub rook: u64,
    pub queen: u64,
    pub king: u64,
}

impl EscapeGuards {
    fn of(&self, kind: Kind) -> u64
        ensures { result ≡ guards_of self.now kind }
    {
        match kind {
            Kind::Pawn => self.pawn,
            Kind::Knight => self.knight,
            Kind::Bishop => self.bishop,
            Kind::Rook => self.rook,
            Kind::Queen => self.queen,
            Kind::King => self.king,
        }
    }
}

/// The guards of the escapes that the other king is seen to have where the side to move has not moved yet, as `king_escapes` sees them: all
/// squares where it is seen to have none.
pub fn guards_of_escapes(rays: &Rays, position: &Position) -> EscapeGuards
    ensures { AreGuardsOf result position.now }
{
    let mut guards = EscapeGuards {
        pawn: u64::MAX,
        knight: u64::MAX,
        bishop: u64::MAX,
        rook: u64::MAX,
        queen: u64::MAX,
        king: u64::MAX,
    };
    let Some(steps) = steps_of_king(rays, position, position.side().other()) else {
        return guards;
    };
    for square in square_sets::squares(steps.squares) {
        if let Some(squares) = refuge(rays, position, steps, square) {
            guards = with_refuge(rays, position, guards, squares, square);
        }
    }
    guards
}

/// Whether a legal move is seen to leave the other king an escape. `false` says nothing.
pub fn leaves_escape(position: &Position, guards: &EscapeGuards, m: Move) -> bool
    requires guards { AreGuardsOf guards.now position.now }
    requires legal { is_legal position.now m ≡ true }
    ensures { result ≡ true → Escape (after_setup position.now m) }
{
    match position.man(m.origin) {
        Some(man) => !square_sets::contains(guards.of(man.kind), m.target.index() as u8),
        None => false,
    }
}

/// The guards of these escapes and of that to a refuge.
fn with_refuge(
    rays: &Rays,
    position: &Position,
    guards: EscapeGuards,
    squares: u64,
    square: u8,
) -> EscapeGuards
    requires guards { AreGuardsOf guards position.now }
    requires refuge { IsRefuge squares position.now (other_side position.now.side) square }
    ensures { AreGuardsOf result position.now }
{
    let pawn = pawns_guards(rays, position, squares, square);
    let knight = guards_of_piece(rays, position, squares, square, Kind::Knight);
    let bishop = guards_of_piece(rays, position, squares, square, Kind::Bishop);
    let rook = guards_of_piece(rays, position, squares, square, Kind::Rook);
    let queen = guards_of_piece(rays, position, squares, square, Kind::Queen);
    let king = kings_guards(rays, position, squares, square);
    EscapeGuards {
        pawn: guards.pawn & pawn,
        knight: guards.knight & knight,
        bishop: guards.bishop & bishop,
        rook: guards.rook & rook,
        queen: guards.queen & queen,
        king: guards.king & king,
    }
}

/// The squares from which a piece but the king guards the escape to a refuge: there it attacks one of its squares, or stands on it.
#[inline(always)]
fn guards_of_piece(rays: &Rays, position: &Position, squares: u64, square: u8, kind: Kind) -> u64
    requires piece { (is_pawn_kind kind ≡ false) × (is_king_kind kind ≡ false) }
    requires refuge { IsRefuge squares position.now (other_side position.now.side) square }
    ensures { IsGuardedFrom result kind position.now }
{
    // That a legal move leaves a sound position is this law.
    sound_after();
    let side = position.side();
    if position.men(side, kind) == 0 {
        return u64::MAX;
    }
    square_sets::with(lines_to_any(rays, squares, kind, side), square)
}

/// The same of a pawn, which guards it too where it may promote next, or captures en passant.
fn pawns_guards(rays: &Rays, position: &Position, squares: u64, square: u8) -> u64
    requires refuge { IsRefuge squares position.now (other_side position.now.side) square }
    ensures { IsGuardedFrom result kind.Pawn position.now }
{
    // That a legal move leaves a sound position is this law.
    sound_after();
    let side = position.side();
    let guards = square_sets::with(lines_to_any(rays, squares, Kind::Pawn, side), square);
    let special = guards | rank_before_last(side);
    match position.ep_target() {
        Some(target) => square_sets::with(special, target.index() as u8),
        None => special,
    }
}

/// The same of the king, which guards it too beside each square from which it attacks all, and where it may castle next.
fn kings_guards(rays: &Rays, position: &Position, squares: u64, square: u8) -> u64
    requires refuge { IsRefuge squares position.now (other_side position.now.side) square }
    ensures { IsGuardedFrom result kind.King position.now }
{
    // That a legal move leaves a sound position is this law.
    sound_after();
    let side = position.side();
    let at_once = square_sets::with(lines_to_any(rays, squares, Kind::King, side), square);
    let next = leapt_to(
        rays,
        lines_to_all(rays, squares, Kind::King, side),
        Leap::KingStep,
    );
    square_sets::with(at_once | next, king_home(side).index() as u8)
}

/// The squares from which a man of a kind would attack one of these on an empty board.
#[inline(always)]
fn lines_to_any(rays: &Rays, squares: u64, kind: Kind, colour: Colour) -> u64
    ensures { (t g : ℕ) → t < 64 → g < 64 → has result t ≡ false → has squares g ≡ true → (taken : ℕ → Bool)
        → hits_as taken colour kind t g ≡ false }
{
    let mut lines = 0;
    for square in square_sets::squares(squares) {
        lines |= lines_to(rays, kind, colour, square);
    }
    lines
}
