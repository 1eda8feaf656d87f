//! The men on the 64 squares, as sets of squares: a man stands in the set of its colour and in that of its kind.

ghost use Rattle.std.specs.Prelude.{◌≡◌, ℕ, ◌<◌, ◌==◌, if◌then◌else◌, true, Some, None, is_some, length, count_by, replicate, slice_set};
ghost use Rattle.square_sets.specs.Members.{has};
ghost use Rattle.chess_board.specs.declared.men.Kind.TheVariants as kind;
ghost use Rattle.chess_board.specs.Positions.{man_at, is_empty, moved};
ghost use Rattle.chess_board.specs.Men.{man_of, is_of, is_man};
ghost use Rattle.chess_board.specs.inside.KindTests.{is_king_of};
ghost use Rattle.chess_board.specs.Sets.{IsSetOf};
ghost use Rattle.chess_board.specs.inside.Boards.{is_of_kind, kind_by};

use crate::men::{Colour, Kind, Man};
use crate::squares::Square;
use std::hash::{Hash, Hasher};
use std::marker::Model;

/// The men on the 64 squares, seen as a list of them from a1 to h8.
#[derive(Clone, Copy, Debug, PartialEq, Eq)]
pub(crate) struct Board {
    /// White's men and Black's.
    by_colour: [u64; 2],
    /// The men of each kind, from pawns to kings.
    by_kind: [u64; 6],
}

impl Model for Board {
    ghost use Rattle.std.specs.Prelude.{List, Option};
    ghost use Rattle.chess_board.specs.declared.men.Man as man;

    ghost Value = { List (Option man.Man) };

    ghost use Rattle.chess_board.specs.inside.Boards.{men_of, words_of, AreTheirWords, words_of-men_of};

    ghost view = { men_of };

    ghost invariant = { AreTheirWords };

    ghost inverse = { words_of };

    ghost inverse_ok = { words_of-men_of };
}

impl Board {
    /// The board with no man on it.
    pub(crate) fn empty() -> Board
        ensures { result ≡ replicate 64 None }
    {
        Board {
            by_colour: [0; 2],
            by_kind: [0; 6],
        }
    }

    /// The men on the 64 squares, a1 first and h8 last.
    pub(crate) fn places(&self) -> [Option<Man>; 64]
        ensures { result ≡ self.now }
    {
        // A part of the board is read, so that the proof knows what its type keeps.
        let _ = &self.by_kind;
        let mut places = [None; 64];
        for number in 0..64 {
            places[number as usize] = self.man(Square::numbered(number));
        }
        places
    }

    /// The man on a square. Its second clause tells a caller how many squares there are.
    pub(crate) fn man(&self, square: Square) -> Option<Man>
        ensures man { result ≡ man_at self.now square }
        ensures squares { length self.now ≡ 64 }
    {
        let index = square.index() as u8;
        if !square_sets::contains(self.occupied(), index) {
            return None;
        }
        let colour = if square_sets::contains(self.side(Colour::White), index) {
            Colour::White
        } else {
            Colour::Black
        };
        Some(Man {
            colour,
            kind: kind_at(
                self.kind(Kind::Pawn),
                self.kind(Kind::Knight),
                self.kind(Kind::Bishop),
                self.kind(Kind::Rook),
                self.kind(Kind::Queen),
                index,
            ),
        })
    }

    /// The man that a side has on a square.
    #[inline(always)]
    pub(crate) fn man_of(&self, colour: Colour, square: Square) -> Man
        requires { is_of colour (man_at self.now square) ≡ true }
        ensures { man_at self.now square ≡ Some result }
    {
        let index = square.index() as u8;
        Man {
            colour,
            kind: kind_at(
                self.kind(Kind::Pawn),
                self.kind(Kind::Knight),
                self.kind(Kind::Bishop),
                self.kind(Kind::Rook),
                self.kind(Kind::Queen),
                index,
            ),
        }
    }

    /// The board without what stands on a square.
    pub(crate) fn without(&self, square: Square) -> Board
        ensures { result ≡ slice_set self.now square None }
    {
        let index = square.index() as u8;
        let [white, black] = self.by_colour;
        let [pawns, knights, bishops, rooks, queens, kings] = self.by_kind;
        Board {
            by_colour: [
                square_sets::without(white, index),
                square_sets::without(black, index),
            ],
            by_kind: [
                square_sets::without(pawns, index),
                square_sets::without(knights, index),
                square_sets::without(bishops, index),
                square_sets::without(rooks, index),
                square_sets::without(queens, index),
                square_sets::without(kings, index),
            ],
        }
    }

    /// The board with this man on a square, in place of what stood there.
    pub(crate) fn with(&self, square: Square, man: Man) -> Board
        ensures { result ≡ slice_set self.now square (Some man) }
    {
        let index = square.index() as u8;
        let [white, black] = self.by_colour;
        let [pawns, knights, bishops, rooks, queens, kings] = self.by_kind;
        // Each word by itself: one that is written by its number in memory costs its reader a stall.
        Board {
            by_colour: [
                changed(white, index, is_of_colour(man, Colour::White)),
                changed(black, index, is_of_colour(man, Colour::Black)),
            ],
            by_kind: [
                changed(pawns, index, is_of_kind(man, Kind::Pawn)),
                changed(knights, index, is_of_kind(man, Kind::Knight)),
                changed(bishops, index, is_of_kind(man, Kind::Bishop)),
                changed(rooks, index, is_of_kind(man, Kind::Rook)),
                changed(queens, index, is_of_kind(man, Kind::Queen)),
                changed(kings, index, is_of_kind(man, Kind::King)),
            ],
        }
    }

    /// Puts a man on an empty square.
    pub(crate) fn put(&mut self, square: Square, man: Man)
        requires { man_at self.old square ≡ None }
        ensures { self.new ≡ slice_set self.old square (Some man) }
    {
        let index = square.index() as u8;
        let colour = man.colour as usize;
        let kind = man.kind as usize;
        self.by_colour[colour] = square_sets::with(self.by_colour[colour], index);
        self.by_kind[kind] = square_sets::with(self.by_kind[kind], index);
    }

    /// The board once a man went from one square to another, where it takes the place of what stood there.
    pub(crate) fn moved(&self, a: Square, b: Square, man: Man) -> Board
        ensures { result ≡ moved self.now a b man }
    {
        self.without(a).with(b, man)
    }

    /// The squares on which some man stands.
    pub(crate) fn occupied(&self) -> u64
        ensures occupied { IsSetOf result is_some self.now }
        ensures squares { length self.now ≡ 64 }
    {
        // A part of the board is read, so that the proof knows what its type keeps.
        let _ = &self.by_kind;
        self.side(Colour::White) | self.side(Colour::Black)
    }

    /// The squares of a side's men of one kind.
    pub(crate) fn men(&self, colour: Colour, kind: Kind) -> u64
        ensures { IsSetOf result (is_man colour kind) self.now }
    {
        self.side(colour) & self.kind(kind)
    }

    /// How many men of one kind a side has.
    pub(crate) fn count(&self, colour: Colour, kind: Kind) -> u32
        ensures { result ≡ count_by (is_man colour kind) self.now }
    {
        // A part of the board is read, so that the proof knows what its type keeps.
        let _ = &self.by_kind;
        self.men(colour, kind).count_ones()
    }

    /// How many men a side has. Its second clause tells a caller how many squares there are.
    pub(crate) fn side_count(&self, colour: Colour) -> u32
        ensures count { result ≡ count_by (is_of colour) self.now }
        ensures squares { length self.now ≡ 64 }
    {
        // A part of the board is read, so that the proof knows what its type keeps.
        let _ = &self.by_kind;
        self.side(colour).count_ones()
    }

    /// Whether a man of this colour and kind stands on a square.
    pub(crate) fn has(&self, square: Square, colour: Colour, kind: Kind) -> bool
        ensures { result ≡ is_man colour kind (man_at self.now square) }
    {
        square_sets::contains(self.men(colour, kind), square.index() as u8)
    }

    /// Whether no man stands on a square.
    pub(crate) fn is_empty(&self, square: Square) -> bool
        ensures { result ≡ is_empty self.now square }
    {
        !square_sets::contains(self.occupied(), square.index() as u8)
    }

    /// The squares of a side's men.
    pub(crate) fn side(&self, colour: Colour) -> u64
        ensures { IsSetOf result (is_of colour) self.now }
    {
        self.by_colour[colour as usize]
    }

    /// The squares of both sides' men of one kind.
    pub(crate) fn kind(&self, kind: Kind) -> u64
        ensures { IsSetOf result (is_of_kind kind) self.now }
    {
        self.by_kind[kind as usize]
    }

    /// The square of a side's one king.
    pub(crate) fn king(&self, colour: Colour) -> Square
        requires { count_by (is_king_of colour) self.now ≡ 1 }
        ensures king { man_at self.now result ≡ man_of colour kind.King }
        ensures on_board { result < 64 }
    {
        // A part of the board is read, so that the proof knows what its type keeps.
        let _ = &self.by_kind;
        let kings = self.side(colour) & self.kind(Kind::King);
        Square::numbered(square_sets::lowest(kings))
    }
}

/// A set that has a square or not, as is said, and else the same squares.
#[inline(always)]
fn changed(set: u64, square: u8, there: bool) -> u64
    requires { square < 64 }
    ensures { (s : ℕ) → s < 64 → has result s ≡ (if s == square then there else has set s) }
{
    if there {
        square_sets::with(set, square)
    } else {
        square_sets::without(set, square)
    }
}

/// Whether a man is of this colour.
#[inline(always)]
fn is_of_colour(man: Man, colour: Colour) -> bool
    ensures { result ≡ is_of colour (Some man) }
{
    man.colour == colour
}

/// Whether a man is of this kind.
#[inline(always)]
fn is_of_kind(man: Man, kind: Kind) -> bool
    ensures { result ≡ is_of_kind kind (Some man) }
{
    man.kind == kind
}

impl Hash for Board {
    ghost use Rattle.std.specs.Cmp.Rules.{hashing};
    ghost use Rattle.std.proofs.Common.{rules};
    ghost use Rattle.chess_board.specs.inside.Hashing.{board_words};

    ghost hash_input = { board_words };

    ghost respects_eq = { Prim.search (hashing, rules) };

    fn hash<H: Hasher>(&self, state: &mut H) {
        let [pawns, knights, bishops, rooks, queens, kings] = self.by_kind;
        state.write_u64(self.by_colour[0]);
        state.write_u64(pawns | bishops | queens);
        state.write_u64(knights | bishops | kings);
        state.write_u64(rooks | queens | kings);
    }
}

/// The kind of the man on a square, by the sets of all kinds but kings.
fn kind_at(pawns: u64, knights: u64, bishops: u64, rooks: u64, queens: u64, index: u8) -> Kind
    requires { index < 64 }
    ensures { result ≡ kind_by (has pawns index) (has knights index) (has bishops index) (has rooks index) (has queens index) }
{
    if square_sets::contains(pawns, index) {
        Kind::Pawn
    } else if square_sets::contains(knights, index) {
        Kind::Knight
    } else if square_sets::contains(bishops, index) {
        Kind::Bishop
    } else if square_sets::contains(rooks, index) {
        Kind::Rook
    } else if square_sets::contains(queens, index) {
        Kind::Queen
    } else {
        Kind::King
    }
}
