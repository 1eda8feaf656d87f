//! Disambiguation: what tells a man that moves from its rivals, others such that can legally go to its target.

ghost use Rattle.std.specs.Prelude.{◌≡◌, ◌==◌, ◌+◌, ◌++◌, [], ◌≤◌, true, if◌then◌else◌};
ghost use Rattle.arrayvec.specs.ArrayString.{array_string_len};
ghost use Rattle.chess_board.specs.Squares.{file_of, rank_of};
ghost use Rattle.chess_notation.specs.Disambiguation.{is_such as is_such_in, is_rival as is_rival_in, some_rival, origin_text};

use arrayvec::ArrayString;
use chess_board::{Man, Move, Position, Square, push_square};
use chess_moves::{Rays, legal_listed, legal_moves_of};

/// Where the rivals of a man stand.
#[derive(Clone, Copy)]
pub(crate) struct Rivals {
    /// There is one.
    pub some: bool,
    /// One stands on the man's own file.
    pub on_file: bool,
    /// One stands on the man's own rank.
    pub on_rank: bool,
}

/// Whether such a man, of the same kind and colour, stands there.
fn is_such(man: Man, other: Option<Man>) -> bool
    ensures { result ≡ is_such_in man other }
{
    match other {
        Some(other) => man.colour == other.colour && man.kind == other.kind,
        None => false,
    }
}

/// Whether the move `n` brings another such man to the target of `m`.
fn is_rival(position: &Position, man: Man, m: Move, n: Move) -> bool
    ensures { result ≡ is_rival_in position.now man m n }
{
    n.target == m.target && n.origin != m.origin && is_such(man, position.man(n.origin))
}

/// The rivals of the man that moves, among the other men of its kind: where there are none, no move is looked for.
#[tactic(auto, unfolding(crate::specs::Disambiguation::some_rival))]
pub(crate) fn rivals_of(rays: &Rays, position: &Position, man: Man, m: Move) -> Rivals
    ensures some { result.some ≡ some_rival position.now man m (λ n. true) }
    ensures on_file { result.on_file ≡ some_rival position.now man m (λ n. file_of n.origin == file_of m.origin) }
    ensures on_rank { result.on_rank ≡ some_rival position.now man m (λ n. rank_of n.origin == rank_of m.origin) }
{
    // That the squares of a legal move are on the board is this law.
    legal_listed();
    let mut rivals = Rivals {
        some: false,
        on_file: false,
        on_rank: false,
    };
    let origin = m.origin.index() as u8;
    let others = square_sets::without(position.men(man.colour, man.kind), origin);
    if others == 0 {
        return rivals;
    }
    for n in legal_moves_of(rays, position, others) {
        if is_rival(position, man, m, n) {
            rivals.some = true;
            rivals.on_file |= n.origin.file() == m.origin.file();
            rivals.on_rank |= n.origin.rank() == m.origin.rank();
        }
    }
    rivals
}

/// Writes what tells a man from its rivals: its file, or else its rank, or else both.
pub(crate) fn push_disambiguation(text: &mut ArrayString<8>, rivals: Rivals, origin: Square)
    requires { array_string_len text.old + 2 ≤ 8 }
    ensures text { text.new.bytes ≡ text.old.bytes ++ (if rivals.some then origin_text rivals.on_file rivals.on_rank origin else []) }
    ensures short { array_string_len text.new ≤ array_string_len text.old + 2 }
{
    if rivals.some {
        if !rivals.on_file {
            text.push(origin.file_letter() as char);
        } else if !rivals.on_rank {
            text.push(origin.rank_digit() as char);
        } else {
            push_square(text, origin);
        }
    }
}
