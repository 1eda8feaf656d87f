//! The men, their colours and kinds, and the castling rights.

ghost use Rattle.std.specs.Prelude.{◌≡◌, ◌≤◌};
ghost use Rattle.chess_board.specs.Characters.{char};
ghost use Rattle.chess_board.specs.Men.{other_side, has_right_of};
ghost use Rattle.chess_board.specs.Placement.{kind_letter};

/// One of the two sides.
#[derive(Clone, Copy, Debug, PartialEq, Eq, Hash)]
pub enum Colour {
    White,
    Black,
}

impl Colour {
    /// The other side.
    pub fn other(self) -> Colour
        ensures { result ≡ other_side self }
    {
        match self {
            Colour::White => Colour::Black,
            Colour::Black => Colour::White,
        }
    }
}

/// A kind of man (FIDE Laws of Chess, article 2).
#[derive(Clone, Copy, Debug, PartialEq, Eq, PartialOrd, Ord, Hash)]
pub enum Kind {
    Pawn,
    Knight,
    Bishop,
    Rook,
    Queen,
    King,
}

impl Kind {
    /// The kind's letter in English, a capital: `P`, `N`, `B`, `R`, `Q`, `K` (PGN Specification, section 8.2.3.2).
    pub fn letter(self) -> u8
        ensures letter { result ≡ kind_letter self }
        ensures capital { (char "A" ≤ result) × (result ≤ char "Z") }
    {
        match self {
            Kind::Pawn => b'P',
            Kind::Knight => b'N',
            Kind::Bishop => b'B',
            Kind::Rook => b'R',
            Kind::Queen => b'Q',
            Kind::King => b'K',
        }
    }
}

/// A man of one side.
#[derive(Clone, Copy, Debug, PartialEq, Eq, Hash)]
pub struct Man {
    pub colour: Colour,
    pub kind: Kind,
}

/// A side of the board to castle on: the king's or the queen's (FIDE Laws of Chess, article 3.8.2).
#[derive(Clone, Copy, Debug, PartialEq, Eq, Hash)]
pub enum Wing {
    KingSide,
    QueenSide,
}

/// The castling rights that are left, one for each side and wing (FIDE Laws of Chess, article 3.8.2; PGN Specification, section
/// 16.1.3.3). Whether castling is possible at once is another matter.
#[derive(Clone, Copy, Debug, PartialEq, Eq, Hash)]
pub struct Rights {
    pub white_king_side: bool,
    pub white_queen_side: bool,
    pub black_king_side: bool,
    pub black_queen_side: bool,
}

impl Rights {
    /// Whether a side has the right to castle on a wing.
    pub fn has(self, colour: Colour, wing: Wing) -> bool
        ensures { result ≡ has_right_of self colour wing }
    {
        match (colour, wing) {
            (Colour::White, Wing::KingSide) => self.white_king_side,
            (Colour::White, Wing::QueenSide) => self.white_queen_side,
            (Colour::Black, Wing::KingSide) => self.black_king_side,
            (Colour::Black, Wing::QueenSide) => self.black_queen_side,
        }
    }
}
