//! Tries: first moves that one defence alone refutes.

ghost use Rattle.std.specs.Prelude.{◌≡◌, ◌≤◌, [], ◌∷◌, IfSome, true};
ghost use Rattle.std.specs.Option.{option_map_or};
ghost use Rattle.chess_board.specs.Legality.{is_legal};
ghost use Rattle.chess_board.specs.MakeMove.{after_setup};
ghost use Rattle.mate_tree.specs.Tries.{is_no_mate, refutations, sole, tries, try_line, try_lines};
ghost use Rattle.mate_tree.specs.inside.Writers.{Adds};

use crate::continuations::soonest;
use crate::layouts::tries_heading;
use crate::lines::push_attack;
use crate::writers::TreeWriter;
use chess_board::{Move, Position, after};
use chess_moves::{Rays, legal, legal_listed};
use chess_notation::san;
use chess_problems::{Outcome, is_among};
use mate_search::Memo;
use std::io::Write;

/// Whether there is no mate.
fn is_no_mate(outcome: &Outcome) -> bool
    ensures { result ≡ is_no_mate outcome.now }
{
    match outcome {
        Outcome::Mate { .. } => false,
        Outcome::NoMate => true,
    }
}

/// The one reply after which there is no mate within so many moves; none where there is no such reply, or more than one.
fn sole_refutation(rays: &Rays, position: &Position, left: u8, memo: &mut Memo) -> Option<Move>
    requires { left ≤ 15 }
    ensures sole { result ≡ sole (refutations left position.now) }
    ensures legal { IfSome result (λ r. is_legal position.now r ≡ true) }
    ensures room { memo.new.room ≡ memo.old.room }
{
    // That each of them is legal by itself, as `after` asks.
    legal_listed();
    let replies = legal(rays, position);
    let mut found: Option<Move> = None;
    for r in replies.as_slice() {
        let outcome = soonest(rays, &after(position, *r), left, memo);
        if is_no_mate(&outcome) {
            if found.is_some() {
                return None;
            }
            found = Some(*r);
        }
    }
    found
}

/// The refutation of a try; none where the move is none.
fn refutation<O: Write>(
    writer: &mut TreeWriter<'_, O>,
    position: &Position,
    m: Move,
    left: u8,
    avoid: &[Move],
) -> Option<Move>
    requires legal { is_legal position.now m ≡ true }
    requires left { left ≤ 15 }
    ensures lines { option_map_or (λ r. try_line position.now m r ∷ []) result [] ≡ try_lines left position.now avoid.now m }
    ensures legal { IfSome result (λ r. is_legal (after_setup position.now m) r ≡ true) }
    ensures nothing { Adds O.contents writer.old writer.new [] }
{
    if is_among(m, avoid) {
        return None;
    }
    sole_refutation(writer.rays, &after(position, m), left, writer.memo)
}

/// Writes a move with its refutation, where it has one.
fn write_try<O: Write>(
    writer: &mut TreeWriter<'_, O>,
    position: &Position,
    m: Move,
    refuted: Option<Move>,
)
    requires legal { is_legal position.now m ≡ true }
    requires refutes { IfSome refuted (λ r. is_legal (after_setup position.now m) r ≡ true) }
    ensures { Adds O.contents writer.old writer.new (option_map_or (λ r. try_line position.now m r ∷ []) refuted []) }
{
    match refuted {
        Some(r) => {
            writer.begin();
            writer.push(b"  ");
            push_attack(writer, position, m, 1);
            writer.push(b"? ");
            writer.push(san(writer.rays, &after(position, m), r).as_str().as_bytes());
            writer.push(b"!");
            writer.end();
        }
        None => {}
    }
}

/// Writes all tries, in move order: moves after which there is no mate within the moves that are left.
#[tactic(auto, unfolding(crate::specs::Tries::tries))]
pub(crate) fn write_tries<O: Write>(
    writer: &mut TreeWriter<'_, O>,
    position: &Position,
    avoid: &[Move],
    column: bool,
    left: u8,
)
    requires { left ≤ 15 }
    ensures { Adds O.contents writer.old writer.new (tries column left position.now avoid.now) }
{
    // That each of them is legal by itself, as `after` asks.
    legal_listed();
    let moves = legal(writer.rays, position);
    let heading = tries_heading(column);
    let mut is_open = false;
    for m in moves.as_slice() {
        if writer.sheet.is_closed() {
            return;
        }
        let refuted = refutation(writer, position, *m, left, avoid);
        let has = refuted.is_some();
        writer.write_name(heading, is_open, has);
        write_try(writer, position, *m, refuted);
        is_open |= has;
    }
}
