//! Verdicts on what a record claims.

ghost use Rattle.std.specs.Prelude.{◌≡◌};
ghost use Rattle.mate_claims.specs.ClaimVerdicts.{verdict_name, claim_verdict, keys_verdict as verdict_by_keys, none_verdict};
ghost use Rattle.mate_claims.specs.ClaimVerdicts.{are_among as are_all_among, falls_short, is_cooked as is_cooked_by, verdict_of_claimed};

use crate::bound_sources::BoundSource;
use chess_board::Move;
use chess_problems::{Bound, Outcome, is_among};

/// What comes of a record's claims: the first of these that applies, from the last to the first.
#[derive(Clone, Copy, Debug, PartialEq, Eq)]
pub enum ClaimVerdict {
    /// There is one key, it is the one claimed, and the mate is as long as is claimed, where a length is.
    Sound,
    /// There are several keys, and all of them are claimed.
    Several,
    /// There is one key, but no move is claimed.
    Unclaimed,
    /// There is a key that is not claimed; without a claimed move there are more keys than one.
    Cooked,
    /// A claimed move is no key.
    Wrong,
    /// There is a mate in fewer moves than the line claims.
    Short,
    /// There is no mate within the number of moves that the line claims.
    Unsolvable,
    /// There is no mate within the number of moves that was asked for, which the line doesn't claim.
    Unsolved,
    /// It is not known in time what there is to say of the problem.
    Undecided,
}

impl ClaimVerdict {
    /// The verdict's word.
    pub fn code(&self) -> &'static str
        ensures { result.now ≡ verdict_name self.now }
    {
        match self {
            ClaimVerdict::Sound => "sound",
            ClaimVerdict::Several => "several",
            ClaimVerdict::Unclaimed => "unclaimed",
            ClaimVerdict::Cooked => "cooked",
            ClaimVerdict::Wrong => "wrong",
            ClaimVerdict::Short => "short",
            ClaimVerdict::Unsolvable => "unsolvable",
            ClaimVerdict::Unsolved => "unsolved",
            ClaimVerdict::Undecided => "undecided",
        }
    }
}

/// Whether each of these moves is among the others.
fn are_among(others: &[Move], moves: &[Move]) -> bool
    ensures { result ≡ are_all_among others.now moves.now }
{
    for m in moves {
        if !is_among(*m, others) {
            return false;
        }
    }
    true
}

/// Whether a key isn't claimed, or, where no move is claimed, there are more keys than one.
fn is_cooked(claimed: &[Move], keys: &[Move]) -> bool
    ensures { result ≡ is_cooked_by claimed.now keys.now }
{
    match claimed {
        [] => 1 < keys.len(),
        [_, ..] => !are_among(claimed, keys),
    }
}

/// The verdict where the keys are those claimed, or there is one and none is claimed.
fn verdict_of_claimed(claimed: &[Move], keys: &[Move]) -> ClaimVerdict
    ensures { result ≡ verdict_of_claimed claimed.now keys.now }
{
    match claimed {
        [] => ClaimVerdict::Unclaimed,
        [_, ..] => {
            if 1 < keys.len() {
                ClaimVerdict::Several
            } else {
                ClaimVerdict::Sound
            }
        }
    }
}

/// The verdict by the keys.
fn keys_verdict(claimed: &[Move], keys: &[Move]) -> ClaimVerdict
    ensures { result ≡ verdict_by_keys claimed.now keys.now }
{
    if !are_among(keys, claimed) {
        ClaimVerdict::Wrong
    } else if is_cooked(claimed, keys) {
        ClaimVerdict::Cooked
    } else {
        verdict_of_claimed(claimed, keys)
    }
}

/// Whether a mate in so many moves falls short of the length that the line claims, where it claims one.
fn falls_short(source: BoundSource, asked: Bound, dm: Bound) -> bool
    ensures { result ≡ falls_short source asked dm }
{
    match source {
        BoundSource::Line => dm.get() < asked.get(),
        BoundSource::Default => false,
    }
}

/// The verdict where there is no mate within the number of moves that was asked for.
fn none_verdict(source: BoundSource) -> ClaimVerdict
    ensures { result ≡ none_verdict source }
{
    match source {
        BoundSource::Line => ClaimVerdict::Unsolvable,
        BoundSource::Default => ClaimVerdict::Unsolved,
    }
}

/// The verdict on a record by which mate was asked for within so many moves, a number that comes from there, and these moves are claimed for
/// its keys, by what there is to say of its problem. In which order moves are claimed makes no difference, nor whether one is claimed twice.
#[tactic(auto, unfolding(crate::specs::ClaimVerdicts::claim_verdict))]
pub fn judge(source: BoundSource, asked: Bound, claimed: &[Move], outcome: &Outcome) -> ClaimVerdict
    ensures { result ≡ claim_verdict source asked claimed.now outcome.now }
{
    match outcome {
        Outcome::Mate { dm, keys, .. } => {
            if falls_short(source, asked, *dm) {
                ClaimVerdict::Short
            } else {
                keys_verdict(claimed, keys.as_slice())
            }
        }
        Outcome::NoMate => none_verdict(source),
    }
}
