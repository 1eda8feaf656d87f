//! A search looks at as many positions as its plain form does, finds the same of each, and its memo keeps as many: nothing that spares work
//! spares what is counted.

ghost use Rattle.std.specs.Prelude.{⊤};

use crate::plain_memo::PlainMemo;
use crate::plain_search::loses;
use crate::plain_solving::solve_either;
use crate::test_rows::{bound_of, large_memo_of, position_of, same};
use chess_board::{Move, Position, after};
use chess_moves::{Rays, is_legal, legal, legal_moves};
use chess_problems::{AvoidList, Outcome, Problem};
use mate_search::{Guide, Halt, Memo, leaves_lost, solve_until};
use std::alloc::Global;
use std::cell::Cell;
use std::process::Abort;

/// Counts how often it is asked whether to stop, which it never says.
#[derive(Drop)]
struct Counter {
    asked: Cell<u64>,
}

impl Halt for Counter {
    ghost may_stop = { λ _. ⊤ };

    fn is_stopped(&self) -> bool {
        self.asked.set(self.asked.get().saturating_add(1));
        false
    }
}

/// SplitMix64 (Steele, Lea, Flood: Fast Splittable Pseudorandom Number Generators, 2014).
#[derive(Clone, Copy)]
struct Chance {
    state: u64,
}

impl Chance {
    /// A number below `count`; 0 where that is 0.
    fn below(&mut self, count: usize) -> usize {
        self.state = self.state.wrapping_add(0x9e37_79b9_7f4a_7c15);
        let a = self.state;
        let b = (a ^ (a >> 30)).wrapping_mul(0xbf58_476d_1ce4_e5b9);
        let c = (b ^ (b >> 27)).wrapping_mul(0x94d0_49bb_1331_11eb);
        ((c ^ (c >> 31)) >> 16)
            .checked_rem(count as u64)
            .unwrap_or(0) as usize
    }
}

/// Where games begin: with rights to castle on both sides, pawns that may be taken en passant or promote, and few men and more.
static BEGUN: [&str; 8] = [
    "7n/6Q1/2Np4/2k1P3/3N4/7K/8/8 w - - 0 1",
    "1r3N1k/4NR1P/1b4K1/8/4r3/8/8/8 w - - 0 1",
    "r3k2r/p6p/8/3N4/8/3Q4/8/4K3 w kq - 0 1",
    "r3k2r/p6p/8/8/8/3Q4/3R4/R3K3 w Qkq - 0 1",
    "8/8/8/8/k1p5/8/KP1Q4/8 w - - 0 1",
    "8/8/8/1p1p4/1k6/8/KPP2P2/3Q4 w - - 0 1",
    "8/8/4p1N1/3B2pk/8/R7/7K/8 w - - 0 1",
    "8/1P6/8/1b2K3/2p4N/4k3/2R5/5B2 w - - 0 1",
];

/// The position after a move, which is legal: no proof says so of each of a list here.
fn made(rays: &Rays, position: &Position, m: Move) -> Option<Position> {
    let _origin = m.origin;
    if is_legal(rays, position, m) {
        Some(after(position, m))
    } else {
        None
    }
}

/// Where so many moves of both sides lead, by chance.
fn played(rays: &Rays, begun: &Position, chance: &mut Chance, moves: usize) -> Position {
    let mut position = *begun;
    for _ in 0..moves {
        let list = legal(rays, &position);
        let Some(m) = list.get(chance.below(list.len())) else {
            return position;
        };
        if let Some(next) = made(rays, &position, *m) {
            position = next;
        }
    }
    position
}

/// What both forms keep of all questions so far, and how often each asked whether to stop.
#[derive(Drop)]
struct Both {
    memo: Memo,
    plain: PlainMemo,
    asked: Counter,
    wanted: Counter,
}

impl Both {
    /// Nothing yet, over memos of so many entries.
    fn new(rt: &impl Abort, alloc: Global, entries: usize) -> Both {
        Both {
            memo: large_memo_of(rt, alloc, entries),
            plain: PlainMemo::new(alloc, entries).expect(rt, "plain"),
            asked: Counter {
                asked: Cell::new(0),
            },
            wanted: Counter {
                asked: Cell::new(0),
            },
        }
    }

    /// Refuses where one asked more often than the other, or keeps more.
    fn check_counts(&self, rt: &impl Abort) {
        let found = (self.asked.asked.get(), self.memo.len());
        let wanted = (self.wanted.asked.get(), self.plain.len());
        same(rt, &"asked and kept", &found, &wanted);
    }

    /// Asks both whether each first move leaves the defender lost with `k` more.
    fn check_first_moves(&mut self, rt: &impl Abort, rays: &Rays, position: &Position, k: u8) {
        for m in legal_moves(rays, position) {
            let _origin = m.origin;
            if !is_legal(rays, position, m) {
                panic!(rt; "not legal: {m:?}");
            }
            let guide = Guide {
                rays,
                halt: &self.asked,
            };
            let found = leaves_lost(&guide, position, m, k, &mut self.memo);
            let guide = Guide {
                rays,
                halt: &self.wanted,
            };
            let wanted = loses(&guide, &after(position, m), k, &mut self.plain);
            same(
                rt,
                &m,
                &found.expect(rt, "found"),
                &wanted.expect(rt, "wanted"),
            );
            self.check_counts(rt);
        }
    }

    /// Asks both what there is to say of a problem, and gives it.
    fn check_outcome(&mut self, rt: &impl Abort, rays: &Rays, problem: &Problem) -> Outcome {
        let found = solve_until(rays, problem, &mut self.memo, &self.asked).expect(rt, "found");
        let guide = Guide {
            rays,
            halt: &self.wanted,
        };
        let wanted = solve_either(&guide, problem, &mut self.plain).expect(rt, "wanted");
        same(rt, &"outcome", &found, &wanted);
        self.check_counts(rt);
        found
    }

    /// Asks both for a mate in one move of a position, in two, and so on up to so many, as `uci` does, and gives how often they asked.
    fn check_lengths(
        &mut self,
        rt: &impl Abort,
        rays: &Rays,
        position: &Position,
        most: u8,
    ) -> u64 {
        let before = self.wanted.asked.get();
        for moves in 0..most {
            let problem = Problem {
                position: *position,
                bound: bound_of(rt, moves.saturating_add(1)),
                avoid: AvoidList::new(),
            };
            if let Outcome::Mate { .. } = self.check_outcome(rt, rays, &problem) {
                break;
            }
        }
        self.wanted.asked.get().saturating_sub(before)
    }

    /// The same of a position, and then without its first key, or another move where it has none.
    fn check_outcomes(&mut self, rt: &impl Abort, rays: &Rays, position: &Position, most: u8) {
        let mut problem = Problem {
            position: *position,
            bound: bound_of(rt, most),
            avoid: AvoidList::new(),
        };
        let first = match self.check_outcome(rt, rays, &problem) {
            Outcome::Mate { keys, .. } => keys.get(0).copied(),
            Outcome::NoMate => legal(rays, position).get(0).copied(),
        };
        if let Some(m) = first {
            problem.avoid.push(m);
            let _outcome = self.check_outcome(rt, rays, &problem);
        }
    }

    /// Asks both about a position of a game that begins there: its first moves, and the problem before or behind these.
    fn check_game(
        &mut self,
        rt: &impl Abort,
        rays: &Rays,
        text: &str,
        chance: &mut Chance,
        most: u8,
    ) {
        let begun = position_of(rt, text);
        let moves = chance.below(4).saturating_mul(2);
        let position = played(rays, &begun, chance, moves);
        let is_last = chance.below(2) == 0;
        if !is_last {
            self.check_outcomes(rt, rays, &position, most.saturating_sub(1));
        }
        for k in 0..most {
            self.check_first_moves(rt, rays, &position, k);
        }
        if is_last {
            self.check_outcomes(rt, rays, &position, most.saturating_sub(1));
        }
    }
}

/// Endings with few moves, which are searched for longer mates: most positions that a large memo keeps are of these.
static ENDINGS: [&str; 4] = [
    "8/8/8/3k4/8/8/8/R3K3 w Q - 0 1",
    "7k/8/8/5K2/8/1R6/8/8 w - - 0 1",
    "8/8/4k3/8/8/2Q5/8/K7 w - - 0 1",
    "8/1P6/8/8/2k5/8/3K4/8 w - - 0 1",
];

/// Asks for 2^62 bytes, which no system grants: `tests/refused_growths` has other requests refused between two of these.
fn mark(alloc: Global) {
    let _refused = Vec::<u8>::with_capacity(alloc, 1 << 62);
}

/// Searches positions of games, one after the other over one memo of so many entries: each first move for a mate in so many moves at most,
/// and before that or behind it the problem within one less. Games of endings are searched for two moves more.
fn check_games(
    rt: &impl Abort,
    alloc: Global,
    entries: usize,
    games: (usize, usize),
    most: u8,
) -> usize {
    let rays = Rays::new();
    let mut chance = Chance {
        state: games.1 as u64,
    };
    let mut both = Both::new(rt, alloc, entries);
    mark(alloc);
    for game in 0..games.0 {
        let text = BEGUN.get(game % BEGUN.len()).expect(rt, "game");
        both.check_game(rt, &rays, text, &mut chance, most);
    }
    for game in 0..games.1 {
        let text = ENDINGS.get(game % ENDINGS.len()).expect(rt, "ending");
        both.check_game(rt, &rays, text, &mut chance, most.saturating_add(2));
    }
    mark(alloc);
    both.memo.len()
}

/// Memos that are soon full, where a filter begins anew again and again: on both sides of the least with a table, and of those where a
/// filter has twice as many words.
#[test]
fn small_memos_are_asked_as_often(rt: HostRuntime) {
    static TABLE: [usize; 10] = [1, 2, 7, 8, 100, 256, 257, 511, 512, 513];
    for entries in &TABLE {
        let kept = check_games(&rt, rt.alloc(), *entries, (8, 4), 3);
        same(&rt, entries, &kept, entries);
    }
}

/// Memos that are full just where a filter has no room for more marks at first, or one position later, or once it has grown, and on both
/// sides of one where it has twice as many words. The largest begins anew once it has grown.
#[test]
fn memos_are_asked_as_often_where_a_filter_grows(rt: HostRuntime) {
    static TABLE: [(usize, usize); 6] = [
        (4_095, 8),
        (4_097, 8),
        (8_191, 16),
        (8_192, 16),
        (8_193, 16),
        (9_000, 24),
    ];
    for (entries, endings) in &TABLE {
        let kept = check_games(&rt, rt.alloc(), *entries, (8, *endings), 3);
        same(&rt, endings, &kept, entries);
    }
}

/// The largest of these, which is not full. The same games as of that one of 9,000 lead to more positions than its
/// filter has marks for at first.
#[test]
fn a_large_memo_is_asked_as_often(rt: HostRuntime) {
    let kept = check_games(&rt, rt.alloc(), 65_536, (8, 24), 3);
    same(&rt, &kept, &(kept > 10_000), &true);
}

/// A larger one, of a problem that leads to more positions than its filter has marks for once it has grown.
#[test]
fn a_larger_memo_is_asked_as_often(rt: HostRuntime) {
    let mut both = Both::new(&rt, rt.alloc(), 600_000);
    let problem = Problem {
        position: position_of(&rt, "8/8/8/4K3/b1p4N/4k3/1R6/8 w - - 0 1"),
        bound: bound_of(&rt, 7),
        avoid: AvoidList::new(),
    };
    let outcome = both.check_outcome(&rt, &Rays::new(), &problem);
    same(&rt, &"within 7", &outcome, &Outcome::NoMate);
    let kept = both.memo.len();
    same(&rt, &kept, &(kept > 65_536), &true);
}

/// Problems, the moves within which each is asked, and how often a search behind those before it asks whether to stop, over memos of 5,600,
/// 11,200 and 65,536 entries: `tests/uci` has the same numbers for `nodes`.
static COUNTED: [(&str, u8, [u64; 3]); 14] = [
    (
        "7n/6Q1/2Np4/2k1P3/3N4/7K/8/8 w - - 0 1",
        4,
        [1034, 1034, 1034],
    ),
    ("2R3N1/4pk2/8/1B2K3/5P2/8/8/8 w - - 0 1", 4, [534, 534, 534]),
    (
        "1r3N1k/4NR1P/1b4K1/8/4r3/8/8/8 w - - 0 1",
        4,
        [269, 269, 269],
    ),
    (
        "r3k2r/p6p/8/3N4/8/3Q4/8/4K3 w kq - 0 1",
        5,
        [16747, 14173, 14156],
    ),
    ("r3k2r/p6p/8/8/8/3Q4/3R4/R3K3 w Qkq - 0 1", 5, [56, 56, 56]),
    ("8/8/8/8/k1p5/8/KP1Q4/8 w - - 0 1", 6, [2240, 2240, 2240]),
    ("8/8/8/1p1p4/1k6/8/KPP2P2/3Q4 w - - 0 1", 5, [437, 437, 437]),
    (
        "8/8/4p1N1/3B2pk/8/R7/7K/8 w - - 0 1",
        6,
        [85037, 67357, 47973],
    ),
    (
        "8/8/8/1b2K3/2p4N/4k3/2R5/5B2 w - - 0 1",
        6,
        [5281, 5281, 5281],
    ),
    (
        "2r4n/b2n4/q2pN3/r6R/2p1kPp1/P1P3P1/1BP4R/1K3N2 w - - 0 1",
        4,
        [857, 857, 857],
    ),
    (
        "8/8/4p1N1/3B2pk/8/1R6/7K/8 w - - 0 1",
        6,
        [80371, 63975, 16974],
    ),
    (
        "8/8/4p1N1/3B2pk/R7/8/7K/8 w - - 0 1",
        6,
        [83401, 68246, 17872],
    ),
    (
        "3R4/3q1p2/7K/Q4P2/3p4/1N1kBP2/3P4/1b1R4 w - - 0 1",
        5,
        [546, 546, 546],
    ),
    (
        "7n/6Q1/2Np4/2k1P3/3N4/7K/8/8 w - - 0 1",
        5,
        [1034, 1034, 1034],
    ),
];

/// Lengths that are asked for one after the other are asked as often, and so often.
#[test]
fn lengths_are_asked_as_often(rt: HostRuntime) {
    static ENTRIES: [usize; 3] = [5_600, 11_200, 65_536];
    let rays = Rays::new();
    for (column, entries) in ENTRIES.iter().enumerate() {
        let mut both = Both::new(&rt, rt.alloc(), *entries);
        for (text, most, wanted) in &COUNTED {
            let asked = both.check_lengths(&rt, &rays, &position_of(&rt, text), *most);
            same(&rt, text, &Some(&asked), &wanted.get(column));
        }
    }
}
