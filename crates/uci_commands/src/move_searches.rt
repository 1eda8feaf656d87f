//! The moves that a search is kept to, and the problem that it asks then.

ghost use Rattle.std.specs.Prelude.{◌≡◌, ◌<◌, IfNone, IfSome, codes, length, map};
ghost use Rattle.chess_board.specs.Moves.{move_text};
ghost use Rattle.chess_moves.specs.Laws.{IsRising};
ghost use Rattle.uci_commands.specs.Marks.{behind as words_behind, says as does_say};
ghost use Rattle.uci_commands.specs.MoveSearches.{all_but, max_avoided, moves_said};

use crate::marks::{behind, says};
use chess_board::{Move, Position};
use chess_moves::{MoveList, Rays, legal, legal_rise};
use chess_problems::{AvoidList, Bound, Problem, is_among};

/// Whether one of the words is the move by its coordinates.
fn is_said(m: Move, words: &[&str]) -> bool
    ensures { result ≡ does_say (move_text m) (map (λ s. s.now) words.now) }
{
    let text = m.text();
    says(text.as_str(), words)
}

/// The legal moves that stand behind `searchmoves` by their coordinates, in the order of moves.
#[tactic(auto, unfolding(crate::specs::MoveSearches::moves_said), using(crate::proofs::MovesKept::kept_more, crate::proofs::MovesKept::left_out))]
pub fn searched_moves(rays: &Rays, position: &Position, words: &[&str]) -> MoveList
    ensures { result.items ≡ moves_said position.now (words_behind (codes "searchmoves") (map (λ s. s.now) words.now)) }
{
    let said = behind("searchmoves", words);
    let mut moves = MoveList::new();
    for m in legal(rays, position).as_slice() {
        if is_said(*m, said) {
            moves.push(*m);
        }
    }
    moves
}

/// The legal moves that are none of these; none where there are more than a problem can avoid.
#[tactic(auto, unfolding(crate::specs::MoveSearches::all_but), using(crate::proofs::MovesKept::no_room))]
fn all_but(rays: &Rays, position: &Position, moves: &[Move]) -> Option<AvoidList>
    ensures some { IfSome result (λ avoid. avoid.items ≡ all_but position.now moves.now) }
    ensures none { IfNone result (max_avoided < length (all_but position.now moves.now)) }
{
    let mut avoid = AvoidList::new();
    for m in legal(rays, position).as_slice() {
        if !is_among(*m, moves) {
            if avoid.is_full() {
                return None;
            }
            avoid.push(*m);
        }
    }
    Some(avoid)
}

/// Whether the side to move mates within so many moves, the first of them one of these; none where there are more other moves than a
/// problem can avoid.
#[tactic(auto, using(crate::proofs::MovesKept::rest_rises))]
pub fn only_these(rays: &Rays, position: &Position, bound: Bound, moves: &[Move]) -> Option<Problem>
    ensures some { IfSome result
        (λ problem. problem ≡ record { position = position.now; bound = bound; avoid = all_but position.now moves.now }) }
    ensures none { IfNone result (max_avoided < length (all_but position.now moves.now)) }
{
    // That they rise rests on this law.
    legal_rise();
    let avoid = all_but(rays, position, moves)?;
    Some(Problem {
        position: *position,
        bound,
        avoid,
    })
}

/// The same problem within so many moves.
pub fn within(problem: &Problem, bound: Bound) -> Problem
    ensures { result ≡ record { position = problem.now.position; bound = bound; avoid = problem.now.avoid } }
{
    let mut avoid = AvoidList::new();
    for m in problem.avoid.as_slice() {
        avoid.push(*m);
    }
    Problem {
        position: problem.position,
        bound,
        avoid,
    }
}
