//! Scripts of steps at a desk of sixteen submitters, and short records.

use crate::problems::IN_TWO;
use crate::stops::Stop;
use crate::variants::{Men, Variants, men_of, pattern_of};
use chess_board::{Move, Position, after};
use chess_moves::{Rays, has_mating_move, is_legal, legal_moves};
use chess_notation::{Outcome, read_record};
use chess_problems::{AvoidList, Bound, Problem};
use mate_search::{Memo, solve};
use std::alloc::{AllocError, Global};

/// The submitters of a desk, and the bound of a record that says none.
const DESK: &str = "desk 16 64 3\n";

const SUBMITTERS: usize = 16;

/// Positions with a mate in one: those after the key and one reply of each of the mates in two.
pub(crate) fn one_move_from_mate(alloc: Global, rays: &Rays) -> Result<Vec<Men>, Stop> {
    let mut found = Vec::new(alloc);
    push_mates(alloc, rays, &mut found)?;
    Ok(found)
}

fn push_mates(alloc: Global, rays: &Rays, found: &mut Vec<Men>) -> Result<(), Stop> {
    let mut memo = Memo::new(alloc, 1024).ok().ok_or("memo")?;
    for line in &IN_TWO {
        let pattern = pattern_of(alloc, rays, line)?;
        push_continuations(alloc, rays, &pattern.men, &mut memo, found)?;
    }
    Ok(())
}

/// The position of a mate in two with these men.
fn position_of(alloc: Global, rays: &Rays, men: &Men) -> Result<Position, Stop> {
    let bound = Bound::new(2).ok_or("bound")?;
    let mut text = String::new(alloc);
    Variants::of(alloc, 0, 0).push(alloc, &mut text, men, 0)?;
    text.push_str("w - - dm 2;")?;
    match read_record(alloc, rays, text.as_bytes(), bound) {
        Ok(record) => Ok(record.position),
        Err(_) => Err(Stop("record")),
    }
}

/// The outcome of a mate in two.
fn outcome_of(rays: &Rays, position: &Position, memo: &mut Memo) -> Result<Outcome, Stop> {
    let problem = Problem {
        position: *position,
        bound: Bound::new(2).ok_or("bound")?,
        avoid: AvoidList::new(),
    };
    Ok(solve(rays, &problem, memo))
}

/// The first key.
fn key_of(outcome: &Outcome) -> Result<Move, Stop> {
    let Outcome::Mate { keys, .. } = outcome else {
        return Err(Stop("no mate"));
    };
    match keys.as_slice().first() {
        Some(key) => Ok(*key),
        None => Err(Stop("key")),
    }
}

/// Adds the positions after the first key, and each reply to it, that have a mate in one.
fn push_continuations(
    alloc: Global,
    rays: &Rays,
    men: &Men,
    memo: &mut Memo,
    found: &mut Vec<Men>,
) -> Result<(), Stop> {
    let position = match position_of(alloc, rays, men) {
        Ok(position) => position,
        Err(stop) => return Err(stop),
    };
    let outcome = outcome_of(rays, &position, memo)?;
    match key_of(&outcome) {
        Ok(key) if is_legal(rays, &position, key) => {
            push_replies(rays, &after(&position, key), found)
        }
        _ => Err(Stop("key")),
    }
}

/// Adds the positions after each reply that have a mate in one.
fn push_replies(rays: &Rays, threatened: &Position, found: &mut Vec<Men>) -> Result<(), Stop> {
    for reply in legal_moves(rays, threatened) {
        if !is_legal(rays, threatened, reply) {
            return Err(Stop("reply"));
        }
        let next = after(threatened, reply);
        if has_mating_move(rays, &next) && found.push(men_of(&next)).is_err() {
            return Err(Stop("NoMemory"));
        }
    }
    Ok(())
}

/// Appends a record near a mate in one, with so many of its men elsewhere, a bound and a number.
pub(crate) fn push_short(
    alloc: Global,
    text: &mut String,
    mates: &[Men],
    bound: usize,
    number: usize,
    variants: &mut Variants,
) -> Result<(), Stop> {
    let men = mates.get(variants.below(mates.len())).ok_or("mates")?;
    variants.push(alloc, text, men, 2)?;
    push_rest(alloc, text, bound, number)?;
    Ok(())
}

fn push_rest(
    alloc: Global,
    text: &mut String,
    bound: usize,
    number: usize,
) -> Result<(), AllocError> {
    text.push_str("w - - dm ")?;
    push_number(alloc, text, bound)?;
    text.push_str("; id \"puzzle ")?;
    push_number(alloc, text, number)?;
    text.push_str("\";\n")
}

fn push_number(alloc: Global, text: &mut String, number: usize) -> Result<(), AllocError> {
    text.push_str(number.to_string(alloc)?.as_str())
}

/// Appends a word and a number.
fn push_step(
    alloc: Global,
    text: &mut String,
    word: &str,
    number: usize,
) -> Result<(), AllocError> {
    text.push_str(word)?;
    push_number(alloc, text, number)?;
    text.push('\n')
}

/// Appends a step that hands in no record.
fn push_other(alloc: Global, text: &mut String, variants: &mut Variants) -> Result<(), AllocError> {
    match variants.below(16) {
        0..=4 => text.push_str("take\n"),
        5..=8 => push_step(alloc, text, "finish ", variants.below(2)),
        9 => push_step(alloc, text, "handback ", variants.below(2)),
        10 => text.push_str("withdraw 0 1\n"),
        11 => text.push_str("drained\n"),
        _ => push_step(alloc, text, "collect ", variants.below(SUBMITTERS)),
    }
}

/// Appends a record that a submitter hands in, and some other steps.
fn push_record(
    alloc: Global,
    text: &mut String,
    mates: &[Men],
    number: usize,
    variants: &mut Variants,
) -> Result<(), Stop> {
    text.push_str("submit ")?;
    push_number(alloc, text, variants.below(SUBMITTERS))?;
    text.push(' ')?;
    push_short(alloc, text, mates, 1, number, variants)?;
    for _ in 0..4 {
        push_other(alloc, text, variants)?;
    }
    Ok(())
}

/// A script of so many records and some four times as many other steps, in any order.
pub(crate) fn script(
    alloc: Global,
    mates: &[Men],
    records: usize,
    variants: &mut Variants,
) -> Result<String, Stop> {
    let mut text = String::from_str(alloc, DESK)?;
    for number in 0..records {
        push_record(alloc, &mut text, mates, number, variants)?;
    }
    Ok(text)
}
