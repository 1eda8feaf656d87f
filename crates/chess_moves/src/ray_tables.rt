//! The tables: the rays and the leaps from each square.

ghost use Rattle.std.specs.Prelude.{◌≡◌, ℕ, ◌<◌};
ghost use Rattle.square_sets.specs.Members.{has};
ghost use Rattle.chess_board.specs.Squares.{gap};
ghost use Rattle.chess_moves.specs.inside.Directions.{toward, is_hidden, reaches_as_bishop, reaches_as_rook};
ghost use Rattle.chess_moves.specs.inside.Directions.{is_on_diagonal, is_on_straight, stands_between, RaysInOrder};
ghost use Rattle.chess_moves.specs.inside.Leaps.{leaps};
ghost use Rattle.chess_moves.specs.inside.RayTables.{AreRaysToward, AreTargetsOf, AreOneSetOf, AreRays};

use crate::directions::{Direction, Leap};
use std::marker::Model;

/// Whether b lies in a direction from a.
#[tactic(auto, unfolding(crate::specs::inside::Directions::toward))]
fn is_toward(direction: Direction, a: u8, b: u8) -> bool
    ensures { result ≡ toward direction a b }
{
    let (a_file, a_rank) = (a % 8, a / 8);
    let (b_file, b_rank) = (b % 8, b / 8);
    match direction {
        Direction::North => a_file == b_file && a_rank < b_rank,
        Direction::NorthEast => a_file + b_rank == b_file + a_rank && a_rank < b_rank,
        Direction::East => a_rank == b_rank && a_file < b_file,
        Direction::SouthEast => b_file + b_rank == a_file + a_rank && b_rank < a_rank,
        Direction::South => b_file == a_file && b_rank < a_rank,
        Direction::SouthWest => b_file + a_rank == a_file + b_rank && b_rank < a_rank,
        Direction::West => b_rank == a_rank && b_file < a_file,
        Direction::NorthWest => a_file + a_rank == b_file + b_rank && a_rank < b_rank,
    }
}

/// The squares in a direction from a square.
fn ray_from(square: u8, direction: Direction) -> u64
    requires { square < 64 }
    ensures { (t : ℕ) → t < 64 → has result t ≡ toward direction square t }
{
    let mut set = 0;
    for t in 0..64u8 {
        if is_toward(direction, square, t) {
            set = square_sets::with(set, t);
        }
    }
    set
}

/// The rays in a direction, one from each square.
fn rays_toward(direction: Direction) -> [u64; 64]
    ensures { AreRaysToward direction result }
{
    let mut rays = [0; 64];
    for square in 0..64u8 {
        rays[square as usize] = ray_from(square, direction);
    }
    rays
}

/// How far apart two files, or two ranks, are.
fn gap_of(a: u8, b: u8) -> u8
    ensures { result ≡ gap a b }
{
    a.abs_diff(b)
}

/// Whether a leap from a goes to b.
#[tactic(auto, unfolding(crate::specs::inside::Leaps::leaps))]
fn is_leap(leap: Leap, a: u8, b: u8) -> bool
    requires { (a < 64) × (b < 64) }
    ensures { result ≡ leaps leap a b }
{
    let (a_rank, b_rank) = (a / 8, b / 8);
    let files = gap_of(a % 8, b % 8);
    let ranks = gap_of(a_rank, b_rank);
    let one_file = a % 8 == b % 8;
    match leap {
        Leap::KnightLeap => files == 1 && ranks == 2 || files == 2 && ranks == 1,
        Leap::KingStep => a != b && files <= 1 && ranks <= 1,
        Leap::WhiteCapture => files == 1 && b_rank == a_rank + 1,
        Leap::BlackCapture => files == 1 && a_rank == b_rank + 1,
        Leap::WhiteStep => b_rank == a_rank + 1 && one_file,
        Leap::BlackStep => a_rank == b_rank + 1 && one_file,
        Leap::WhiteDouble => b_rank == a_rank + 2 && one_file && a_rank == 1,
        Leap::BlackDouble => a_rank == b_rank + 2 && one_file && a_rank == 6,
    }
}

/// The squares to which a leap goes from a square.
fn leap_from(square: u8, leap: Leap) -> u64
    requires { square < 64 }
    ensures { (t : ℕ) → t < 64 → has result t ≡ leaps leap square t }
{
    let mut set = 0;
    for t in 0..64u8 {
        if is_leap(leap, square, t) {
            set = square_sets::with(set, t);
        }
    }
    set
}

/// The targets of a leap, from each square.
fn targets_of(leap: Leap) -> [u64; 64]
    ensures { AreTargetsOf leap result }
{
    let mut targets = [0; 64];
    for square in 0..64u8 {
        targets[square as usize] = leap_from(square, leap);
    }
    targets
}

/// For each square its sets of four tables as one.
fn one_set(a: &[u64; 64], b: &[u64; 64], c: &[u64; 64], d: &[u64; 64]) -> [u64; 64]
    ensures { AreOneSetOf a.now b.now c.now d.now result }
{
    let mut sets = [0; 64];
    for square in 0..64 {
        sets[square] = a[square] | b[square] | c[square] | d[square];
    }
    sets
}

/// For each square its eight rays, its diagonals, its file and rank, and where the leaps go from it: made once for a program, and
/// passed by reference to each question about moves.
#[derive(Clone, Drop)]
pub struct Rays {
    rays: [[u64; 64]; 8],
    leaps: [[u64; 64]; 8],
    diagonals: [u64; 64],
    straights: [u64; 64],
}

impl Model for Rays {
    ghost use Rattle.chess_moves.specs.inside.RayTables.{Tables, AreRays};

    ghost Value = { Tables };

    ghost view = { λ r. record { rays = r.rays; leaps = r.leaps; diagonals = r.diagonals; straights = r.straights } };

    ghost invariant = { λ r. AreRays (record { rays = r.rays; leaps = r.leaps; diagonals = r.diagonals; straights = r.straights }) };

    ghost inverse = { λ v. record { rays = v.rays; leaps = v.leaps; diagonals = v.diagonals; straights = v.straights } };
}

impl Rays {
    /// Makes the tables.
    pub fn new() -> Rays
        ensures { AreRays result }
    {
        let north = rays_toward(Direction::North);
        let north_east = rays_toward(Direction::NorthEast);
        let east = rays_toward(Direction::East);
        let south_east = rays_toward(Direction::SouthEast);
        let south = rays_toward(Direction::South);
        let south_west = rays_toward(Direction::SouthWest);
        let west = rays_toward(Direction::West);
        let north_west = rays_toward(Direction::NorthWest);
        Rays {
            diagonals: one_set(&north_east, &south_east, &south_west, &north_west),
            straights: one_set(&north, &east, &south, &west),
            rays: [
                north, north_east, east, south_east, south, south_west, west, north_west,
            ],
            leaps: [
                targets_of(Leap::KnightLeap),
                targets_of(Leap::KingStep),
                targets_of(Leap::WhiteCapture),
                targets_of(Leap::BlackCapture),
                targets_of(Leap::WhiteStep),
                targets_of(Leap::BlackStep),
                targets_of(Leap::WhiteDouble),
                targets_of(Leap::BlackDouble),
            ],
        }
    }

    /// The squares that lie in a direction from a square.
    pub(crate) fn ray(&self, square: u8, direction: Direction) -> u64
        requires { square < 64 }
        ensures { (t : ℕ) → t < 64 → has result t ≡ toward direction square t }
    {
        self.rays[direction as usize][square as usize]
    }

    /// The squares to which a leap goes from a square.
    pub(crate) fn leap(&self, square: u8, leap: Leap) -> u64
        requires { square < 64 }
        ensures { (t : ℕ) → t < 64 → has result t ≡ leaps leap square t }
    {
        self.leaps[leap as usize][square as usize]
    }

    /// What a man on the square does not see in a direction: all that lies behind the first square that is taken.
    fn hidden(&self, square: u8, direction: Direction, occupied: u64) -> u64
        requires { square < 64 }
        ensures { (t : ℕ) → t < 64 → has result t ≡ is_hidden (has occupied) direction square t }
    {
        let ray = self.ray(square, direction);
        // Beyond the last square of the board lies nothing, so that one more man there spares a test for a ray without any.
        let first = if direction.rises() {
            (ray & occupied | 1 << 63).trailing_zeros()
        } else {
            63 - (ray & occupied | 1).leading_zeros()
        };
        self.ray(first as u8, direction)
    }

    /// What a bishop on the square sees.
    pub(crate) fn bishop_attacks(&self, square: u8, occupied: u64) -> u64
        requires { square < 64 }
        ensures { (t : ℕ) → t < 64 → has result t ≡ reaches_as_bishop (has occupied) square t }
    {
        let hidden = self.hidden(square, Direction::NorthEast, occupied)
            | self.hidden(square, Direction::SouthEast, occupied)
            | self.hidden(square, Direction::SouthWest, occupied)
            | self.hidden(square, Direction::NorthWest, occupied);
        self.diagonals(square) & !hidden
    }

    /// What a rook on the square sees.
    pub(crate) fn rook_attacks(&self, square: u8, occupied: u64) -> u64
        requires { square < 64 }
        ensures { (t : ℕ) → t < 64 → has result t ≡ reaches_as_rook (has occupied) square t }
    {
        let hidden = self.hidden(square, Direction::North, occupied)
            | self.hidden(square, Direction::East, occupied)
            | self.hidden(square, Direction::South, occupied)
            | self.hidden(square, Direction::West, occupied);
        self.straights(square) & !hidden
    }

    /// The squares on the diagonals of a square.
    pub(crate) fn diagonals(&self, square: u8) -> u64
        requires { square < 64 }
        ensures { (t : ℕ) → t < 64 → has result t ≡ is_on_diagonal square t }
    {
        self.diagonals[square as usize]
    }

    /// The squares on the file and the rank of a square.
    pub(crate) fn straights(&self, square: u8) -> u64
        requires { square < 64 }
        ensures { (t : ℕ) → t < 64 → has result t ≡ is_on_straight square t }
    {
        self.straights[square as usize]
    }

    /// The squares strictly between two squares of one line, or none.
    pub(crate) fn between(&self, a: u8, b: u8) -> u64
        requires { (a < 64) × (b < 64) }
        ensures { (t : ℕ) → t < 64 → has result t ≡ stands_between a b t }
    {
        self.ray(a, Direction::North) & self.ray(b, Direction::South)
            | self.ray(a, Direction::NorthEast) & self.ray(b, Direction::SouthWest)
            | self.ray(a, Direction::East) & self.ray(b, Direction::West)
            | self.ray(a, Direction::SouthEast) & self.ray(b, Direction::NorthWest)
            | self.ray(a, Direction::South) & self.ray(b, Direction::North)
            | self.ray(a, Direction::SouthWest) & self.ray(b, Direction::NorthEast)
            | self.ray(a, Direction::West) & self.ray(b, Direction::East)
            | self.ray(a, Direction::NorthWest) & self.ray(b, Direction::SouthEast)
    }
}

/// The squares of a ray, in order outwards, are those of its set by their numbers, rising or falling.
pub fn rays_in_order()
    ensures { RaysInOrder }
{}
