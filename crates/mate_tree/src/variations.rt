//! The solution as chess magazines print it: below a move of the attacker's the replies that parry, those together that the same mates
//! answer.

ghost use Rattle.std.specs.Prelude.{◌≡◌, ◌+◌, ◌-◌, ◌<◌, ◌≤◌, [], ◌∷◌, if◌then◌else◌, length, map, nat_lt, true};
ghost use Rattle.std.specs.Str.{bytes_eq};
ghost use Rattle.std.specs.List.{flat_map};
ghost use Rattle.chess_board.specs.Legality.{is_legal};
ghost use Rattle.chess_board.specs.MakeMove.{after_setup};
ghost use Rattle.chess_board.specs.Moves.{move_place};
ghost use Rattle.chess_moves.specs.Verdicts.{mating_moves};
ghost use Rattle.chess_notation.specs.SanText.{san_text};
ghost use Rattle.chess_problems.specs.Outcomes.{AreLegal};
ghost use Rattle.mate_tree.specs.Variations.{answered, are_alike as are_answered_alike, follows as does_follow, is_told as is_reply_told};
ghost use Rattle.mate_tree.specs.Variations.{mates_line, move_line as move_line_of, next_move, next_moves, replies_text, reply_word, same_texts};
ghost use Rattle.mate_tree.specs.Variations.{variation, variations};
ghost use Rattle.mate_tree.specs.inside.Writers.{Adds, AddsText};

use crate::continuations::{has_dual, soonest};
use crate::defences::write_defence_line;
use crate::lines::{
    Level, push_attack, push_attacks, push_defence, push_dual, push_length, push_spaces,
};
use crate::parries::parrying;
use crate::threats::push_idea;
use crate::writers::TreeWriter;
use chess_board::{Move, Position, after, comes_before};
use chess_moves::{MoveList, Rays, legal_listed, push_mating_moves};
use chess_notation::san;
use chess_problems::Outcome;
use std::io::Write;

/// All moves that mate at once.
fn mates(rays: &Rays, position: &Position) -> MoveList
    ensures list { result.items ≡ mating_moves position.now }
    ensures legal { AreLegal position.now result.items }
{
    let mut list = MoveList::new();
    push_mating_moves(rays, position, &mut list);
    list
}

/// Whether two moves are written alike, each in its position.
fn is_same_san(rays: &Rays, first: &Position, m: Move, second: &Position, n: Move) -> bool
    requires first { is_legal first.now m ≡ true }
    requires second { is_legal second.now n ≡ true }
    ensures { result ≡ bytes_eq (san_text first.now m) (san_text second.now n) }
{
    san(rays, first, m).as_str().as_bytes() == san(rays, second, n).as_str().as_bytes()
}

/// Whether as many moves are written alike, each in its position.
fn are_same_san(
    rays: &Rays,
    first: &Position,
    left: &[Move],
    second: &Position,
    right: &[Move],
) -> bool
    requires left { AreLegal first.now left.now }
    requires right { AreLegal second.now right.now }
    ensures { result ≡ same_texts (map (san_text first.now) left.now) (map (san_text second.now) right.now) }
{
    // That a move of the list is legal is the clause of `legal_listed`.
    legal_listed();
    let mut ours = left;
    let mut theirs = right;
    while let [m, ms @ ..] = ours {
        match theirs {
            [] => return false,
            [n, ns @ ..] => {
                if !is_same_san(rays, first, *m, second, *n) {
                    return false;
                }
                ours = ms;
                theirs = ns;
            }
        }
    }
    theirs.is_empty()
}

/// Whether after each of two replies a move mates at once, and all that do are written alike.
fn are_alike(rays: &Rays, position: &Position, r: Move, s: Move) -> bool
    requires first { is_legal position.now r ≡ true }
    requires second { is_legal position.now s ≡ true }
    ensures { result ≡ are_answered_alike position.now r s }
{
    let first = after(position, r);
    let second = after(position, s);
    let ours = mates(rays, &first);
    let theirs = mates(rays, &second);
    !ours.is_empty() && are_same_san(rays, &first, ours.as_slice(), &second, theirs.as_slice())
}

/// Whether a reply is answered like this one, which comes first in move order.
fn follows(rays: &Rays, position: &Position, r: Move, s: Move) -> bool
    requires first { is_legal position.now r ≡ true }
    requires second { is_legal position.now s ≡ true }
    ensures { result ≡ does_follow position.now r s }
{
    comes_before(r, s) && are_alike(rays, position, r, s)
}

/// Whether a reply stands on the line of an earlier one.
fn is_told(rays: &Rays, position: &Position, replies: &[Move], s: Move) -> bool
    requires legal { AreLegal position.now replies.now }
    requires own { is_legal position.now s ≡ true }
    ensures { result ≡ is_reply_told position.now replies.now s }
{
    // That a move of the list is legal is the clause of `legal_listed`.
    legal_listed();
    for index in 0..replies.len() {
        if follows(rays, position, replies[index], s) {
            return true;
        }
    }
    false
}

/// Adds a reply behind this one, where it is answered alike.
fn push_reply<O: Write>(writer: &mut TreeWriter<'_, O>, position: &Position, r: Move, s: Move)
    requires first { is_legal position.now r ≡ true }
    requires second { is_legal position.now s ≡ true }
    ensures { AddsText O.contents writer.old writer.new (reply_word position.now r s) }
{
    if follows(writer.rays, position, r, s) {
        writer.push(b", ");
        writer.push(san(writer.rays, position, s).as_str().as_bytes());
    }
}

/// Adds all replies that are answered like this one behind it.
fn push_replies<O: Write>(
    writer: &mut TreeWriter<'_, O>,
    position: &Position,
    replies: &[Move],
    r: Move,
)
    requires legal { AreLegal position.now replies.now }
    requires own { is_legal position.now r ≡ true }
    ensures { AddsText O.contents writer.old writer.new (flat_map (reply_word position.now r) replies.now) }
{
    // That a move of the list is legal is the clause of `legal_listed`.
    legal_listed();
    for index in 0..replies.len() {
        push_reply(writer, position, r, replies[index]);
    }
}

/// Writes the line of replies that the same moves answer, which mate at once, where there are such moves; says whether there are.
fn write_mates_line<O: Write>(
    writer: &mut TreeWriter<'_, O>,
    position: &Position,
    replies: &[Move],
    r: Move,
    at: Level,
) -> bool
    requires legal { AreLegal position.now replies.now }
    requires own { is_legal position.now r ≡ true }
    requires number { (1 ≤ at.number) × (at.number ≤ 255) }
    ensures some { result ≡ nat_lt 0 (length (mating_moves (after_setup position.now r))) }
    ensures line { Adds O.contents writer.old writer.new
        (if result then mates_line at.number position.now replies.now r (mating_moves (after_setup position.now r)) ∷ [] else []) }
{
    let next = after(position, r);
    let list = mates(writer.rays, &next);
    let moves = list.as_slice();
    if moves.is_empty() {
        return false;
    }
    writer.begin();
    push_spaces(writer, 4 * (at.number as usize) - 2);
    push_defence(writer, position, r, at.number);
    push_replies(writer, position, replies, r);
    push_attacks(writer, &next, moves, at.number + 1);
    push_dual(writer, 1 < moves.len());
    writer.end();
    true
}

/// Writes the line of an attacker's move, with which it mates in as many moves as are left, and what it threatens.
fn write_move_line<O: Write>(
    writer: &mut TreeWriter<'_, O>,
    position: &Position,
    m: Move,
    at: Level,
)
    requires legal { is_legal position.now m ≡ true }
    requires number { (1 ≤ at.number) × (at.number ≤ 255) }
    requires left { (1 ≤ at.left) × (at.left ≤ 15) }
    ensures { Adds O.contents writer.old writer.new (move_line_of at.shown at.number at.left position.now m ∷ []) }
{
    let threat = Level {
        number: at.number + 1,
        left: at.left - 1,
        ..at
    };
    writer.begin();
    push_spaces(writer, 4 * (at.number as usize) - 4);
    push_attack(writer, position, m, at.number);
    push_idea(writer, &after(position, m), threat);
    push_length(writer, at.shown, at.left);
    writer.end();
}

/// Writes all replies that parry in move order, those together that the same mates answer, and below each how the attacker goes on.
#[tactic(auto, unfolding(chess_problems::specs::Outcomes::IsPlayable))]
#[cycle(play)]
pub(crate) fn write_variations<O: Write>(
    writer: &mut TreeWriter<'_, O>,
    position: &Position,
    at: Level,
)
    requires some { 1 ≤ at.number }
    requires left { at.left ≤ 15 }
    requires few { at.number + at.shown ≤ 255 }
    ensures { Adds O.contents writer.old writer.new (variations at.shown at.number at.left position.now) }
{
    if at.shown == 0 {
        return;
    }
    // That a move of the list is legal is the clause of `legal_listed`.
    legal_listed();
    let list = parrying(writer.rays, position, at.left, writer.memo);
    let replies = list.as_slice();
    for index in 0..replies.len() {
        if writer.sheet.is_closed() {
            return;
        }
        write_variation(writer, position, replies, replies[index], at);
    }
}

/// Writes one of the replies, and below it how the attacker goes on, unless it stands on an earlier one's line.
#[tactic(auto, unfolding(chess_problems::specs::Outcomes::IsPlayable))]
#[cycle(play)]
fn write_variation<O: Write>(
    writer: &mut TreeWriter<'_, O>,
    position: &Position,
    replies: &[Move],
    r: Move,
    at: Level,
)
    requires legal { AreLegal position.now replies.now }
    requires own { is_legal position.now r ≡ true }
    requires some { 1 ≤ at.number }
    requires left { at.left ≤ 15 }
    requires shown { 0 < at.shown }
    requires few { at.number + at.shown ≤ 255 }
    ensures { Adds O.contents writer.old writer.new
        (variation (variations (at.shown - 1) (at.number + 1)) (at.shown - 1) at.number at.left position.now replies.now r) }
{
    if is_told(writer.rays, position, replies, r) {
        return;
    }
    if !write_mates_line(writer, position, replies, r, at) {
        write_sequels(writer, position, r, at);
    }
}

/// Writes a reply after which no move mates at once, and below it how the attacker goes on.
#[tactic(auto, unfolding(chess_problems::specs::Outcomes::IsPlayable))]
#[cycle(play)]
fn write_sequels<O: Write>(writer: &mut TreeWriter<'_, O>, position: &Position, r: Move, at: Level)
    requires own { is_legal position.now r ≡ true }
    requires some { 1 ≤ at.number }
    requires left { at.left ≤ 15 }
    requires shown { 0 < at.shown }
    requires few { at.number + at.shown ≤ 255 }
    ensures { Adds O.contents writer.old writer.new
        (answered (variations (at.shown - 1) (at.number + 1)) (at.shown - 1) at.number at.left position.now [] r []) }
{
    let next = after(position, r);
    let outcome = soonest(writer.rays, &next, at.left, writer.memo);
    write_defence_line(writer, position, r, at, has_dual(&outcome));
    match &outcome {
        Outcome::Mate { dm, keys, .. } => {
            let below = Level {
                number: at.number + 1,
                left: dm.get(),
                shown: at.shown - 1,
            };
            write_next_moves(writer, &next, keys.as_slice(), below);
        }
        Outcome::NoMate => {}
    }
}

/// Writes an attacker's moves, each with what it threatens and the variations below it.
#[tactic(auto, unfolding(chess_problems::specs::Outcomes::IsPlayable))]
#[cycle(play)]
fn write_next_moves<O: Write>(
    writer: &mut TreeWriter<'_, O>,
    position: &Position,
    moves: &[Move],
    at: Level,
)
    requires legal { AreLegal position.now moves.now }
    requires some { 1 ≤ at.number }
    requires left { (1 ≤ at.left) × (at.left ≤ 15) }
    requires few { at.number + at.shown ≤ 255 }
    ensures { Adds O.contents writer.old writer.new (next_moves (variations at.shown at.number) at.shown at.number at.left position.now moves.now) }
{
    // That a move of the list is legal is the clause of `legal_listed`.
    legal_listed();
    for index in 0..moves.len() {
        if writer.sheet.is_closed() {
            return;
        }
        write_next_move(writer, position, moves[index], at);
    }
}

/// Writes one move of the attacker's with what it threatens and the variations below it.
#[tactic(auto, unfolding(chess_problems::specs::Outcomes::IsPlayable))]
#[cycle(play)]
fn write_next_move<O: Write>(
    writer: &mut TreeWriter<'_, O>,
    position: &Position,
    m: Move,
    at: Level,
)
    requires legal { is_legal position.now m ≡ true }
    requires some { 1 ≤ at.number }
    requires left { (1 ≤ at.left) × (at.left ≤ 15) }
    requires few { at.number + at.shown ≤ 255 }
    ensures { Adds O.contents writer.old writer.new (next_move (variations at.shown at.number) at.shown at.number at.left position.now m) }
{
    write_move_line(writer, position, m, at);
    let below = Level {
        left: at.left - 1,
        ..at
    };
    write_variations(writer, &after(position, m), below);
}
