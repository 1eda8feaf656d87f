//! The jobs, and of how many inputs each is made.

use crate::memory::{Digest, command};
use crate::problems::{HARD, IN_FOUR, IN_THREE, IN_TWO, KNOWN};
use crate::rooms::through_room;
use crate::scripts::{one_move_from_mate, push_short, script};
use crate::stops::Stop;
use crate::variants::{Men, Variants, pattern_of};
use crate::walks::walked;
use chess_moves::Rays;
use std::alloc::{AllocError, Global};

/// What the jobs are made with.
#[derive(Drop)]
struct Shop<'a> {
    alloc: Global,
    rays: &'a Rays,
    size: usize,
    seed: u64,
}

/// Does a job, and gives the digest of all its results.
pub(crate) fn do_job(alloc: Global, job: &str, size: usize, seed: u64) -> Result<Digest, Stop> {
    let rays = Rays::new();
    let shop = Shop {
        alloc,
        rays: &rays,
        size,
        seed,
    };
    let mut digest = Digest::new();
    match job {
        "hard" => hard(&shop, &mut digest)?,
        "collection" => collection(&shop, &mut digest)?,
        "short" => short(&shop, &mut digest)?,
        "trees" => trees(&shop, &mut digest)?,
        "positions" => positions(&shop, &mut digest)?,
        "desk" => desk(&shop, &mut digest)?,
        "all" => all(&shop, &mut digest)?,
        _ => return Err(Stop("no such job")),
    }
    Ok(digest)
}

/// Appends a record near the problem of a line, one man elsewhere, with what the problem's record says of it.
fn push_near(
    shop: &Shop,
    text: &mut String,
    line: &str,
    variants: &mut Variants,
) -> Result<(), Stop> {
    let pattern = pattern_of(shop.alloc, shop.rays, line)?;
    variants.push(shop.alloc, text, &pattern.men, 1)?;
    text.push_str(pattern.rest)?;
    text.push('\n')?;
    Ok(())
}

/// Appends records near some problems.
fn push_all_near(
    shop: &Shop,
    text: &mut String,
    problems: &[&str],
    count: usize,
    using: u64,
) -> Result<(), Stop> {
    let mut variants = Variants::of(shop.alloc, shop.seed, using);
    for number in 0..count {
        let number = number.checked_rem(problems.len()).unwrap_or(0);
        push_near(
            shop,
            text,
            problems.get(number).ok_or("problems")?,
            &mut variants,
        )?;
    }
    Ok(())
}

/// Appends a record near the hard problem of a line, asked within one move less and no more than `most`.
fn push_near_hard(
    shop: &Shop,
    text: &mut String,
    line: &str,
    most: u8,
    variants: &mut Variants,
) -> Result<(), Stop> {
    let pattern = pattern_of(shop.alloc, shop.rays, line)?;
    variants.push(shop.alloc, text, &pattern.men, 1)?;
    push_asked(shop.alloc, text, pattern.bound.saturating_sub(1).min(most))?;
    Ok(())
}

fn push_asked(alloc: Global, text: &mut String, bound: u8) -> Result<(), AllocError> {
    text.push_str("w - - dm ")?;
    text.push_str(bound.to_string(alloc)?.as_str())?;
    text.push_str(";\n")
}

/// Appends records near hard problems.
fn push_hard(
    shop: &Shop,
    text: &mut String,
    count: usize,
    most: u8,
    using: u64,
) -> Result<(), Stop> {
    let mut variants = Variants::of(shop.alloc, shop.seed, using);
    for number in 0..count {
        let number = number.checked_rem(HARD.len()).unwrap_or(0);
        push_near_hard(
            shop,
            text,
            HARD.get(number).ok_or("problems")?,
            most,
            &mut variants,
        )?;
    }
    Ok(())
}

/// Hard problems, many of them without a mate.
fn hard(shop: &Shop, digest: &mut Digest) -> Result<(), Stop> {
    let mut text = String::new(shop.alloc);
    push_hard(shop, &mut text, shop.size.wrapping_mul(4), 5, 1)?;
    push_hard(shop, &mut text, shop.size.wrapping_mul(20), 4, 11)?;
    command(shop.alloc, &["solve", "-"], text.as_str(), digest)
}

/// A collection held against what it claims.
fn collection(shop: &Shop, digest: &mut Digest) -> Result<(), Stop> {
    let mut text = String::new(shop.alloc);
    push_all_near(shop, &mut text, &IN_TWO, shop.size.wrapping_mul(100), 2)?;
    push_all_near(shop, &mut text, &IN_THREE, shop.size.wrapping_mul(32), 3)?;
    push_all_near(shop, &mut text, &IN_FOUR, shop.size.wrapping_mul(4), 4)?;
    command(shop.alloc, &["verify", "-"], text.as_str(), digest)
}

/// Appends many short records: mates in one, and some in two.
fn push_many_short(
    shop: &Shop,
    text: &mut String,
    mates: &[Men],
    variants: &mut Variants,
) -> Result<(), Stop> {
    for number in 0..shop.size.wrapping_mul(1000) {
        let bound = if variants.below(16) == 0 { 2 } else { 1 };
        push_short(shop.alloc, text, mates, bound, number, variants)?;
    }
    Ok(())
}

/// Many short records.
fn short(shop: &Shop, digest: &mut Digest) -> Result<(), Stop> {
    let mates = one_move_from_mate(shop.alloc, shop.rays)?;
    let mut variants = Variants::of(shop.alloc, shop.seed, 5);
    let mut text = String::new(shop.alloc);
    push_many_short(shop, &mut text, mates.as_slice(), &mut variants)?;
    command(shop.alloc, &["solve", "-"], text.as_str(), digest)
}

/// Whole solutions, and pages of them.
fn trees(shop: &Shop, digest: &mut Digest) -> Result<(), Stop> {
    let mut text = String::new(shop.alloc);
    push_all_near(shop, &mut text, &IN_TWO, shop.size.wrapping_mul(16), 6)?;
    push_all_near(shop, &mut text, &IN_THREE, shop.size.wrapping_mul(4), 7)?;
    let words = ["tree", "--set-play", "--tries", "-"];
    command(shop.alloc, &words, text.as_str(), digest)?;
    pages(shop, digest)
}

fn pages(shop: &Shop, digest: &mut Digest) -> Result<(), Stop> {
    let mut text = String::new(shop.alloc);
    push_all_near(shop, &mut text, &IN_TWO, shop.size.wrapping_mul(40), 8)?;
    let words = ["sheet", "--solutions", "-"];
    command(shop.alloc, &words, text.as_str(), digest)
}

/// Lists of moves, and counts of lines.
fn positions(shop: &Shop, digest: &mut Digest) -> Result<(), Stop> {
    let mut variants = Variants::of(shop.alloc, shop.seed, 9);
    let count = shop.size.wrapping_mul(300);
    walk(
        shop,
        &["moves", "--lines", "-"],
        count,
        &mut variants,
        digest,
    )?;
    let words = ["perft", "--lines", "4", "-"];
    walk(shop, &words, shop.size, &mut variants, digest)
}

/// A command on so many positions that games reach.
fn walk(
    shop: &Shop,
    words: &[&str],
    count: usize,
    variants: &mut Variants,
    digest: &mut Digest,
) -> Result<(), Stop> {
    let text = walked(shop.alloc, shop.rays, &KNOWN, count, variants)?;
    command(shop.alloc, words, text.as_str(), digest)
}

/// A script at a desk, and records through a room.
fn desk(shop: &Shop, digest: &mut Digest) -> Result<(), Stop> {
    let mates = one_move_from_mate(shop.alloc, shop.rays)?;
    let mut variants = Variants::of(shop.alloc, shop.seed, 10);
    at_a_desk(shop, mates.as_slice(), &mut variants, digest)?;
    in_a_room(shop, mates.as_slice(), &mut variants, digest)
}

fn at_a_desk(
    shop: &Shop,
    mates: &[Men],
    variants: &mut Variants,
    digest: &mut Digest,
) -> Result<(), Stop> {
    let steps = script(shop.alloc, mates, shop.size.wrapping_mul(400), variants)?;
    command(shop.alloc, &["replay", "-"], steps.as_str(), digest)
}

fn in_a_room(
    shop: &Shop,
    mates: &[Men],
    variants: &mut Variants,
    digest: &mut Digest,
) -> Result<(), Stop> {
    let mut text = String::new(shop.alloc);
    for number in 0..shop.size.wrapping_mul(400) {
        push_short(shop.alloc, &mut text, mates, 1, number, variants)?;
    }
    through_room(shop.alloc, shop.rays, text.as_str(), digest)
}

/// All jobs but the hard one, each with a digest of its own.
fn all(shop: &Shop, digest: &mut Digest) -> Result<(), Stop> {
    let mut found = [Digest::new(); 5];
    collection(shop, &mut found[0])?;
    short(shop, &mut found[1])?;
    trees(shop, &mut found[2])?;
    positions(shop, &mut found[3])?;
    desk(shop, &mut found[4])?;
    for one in &found {
        digest.add(&one.hash.to_le_bytes());
        digest.add(&one.bytes.to_le_bytes());
    }
    Ok(())
}
