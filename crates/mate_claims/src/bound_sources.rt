//! Whether a line says itself within how many moves mate is asked for.

ghost use Rattle.std.specs.Prelude.{◌≡◌, ◌≢◌, IfOk};
ghost use Rattle.chess_notation.specs.Claims.{claim_words};
ghost use Rattle.chess_notation.specs.Words.{words_in};
ghost use Rattle.mate_claims.specs.BoundSources.{IsSource, ReadsClaimed};

use byte_streams::NoMemory;
use chess_moves::Rays;
use chess_notation::{Record, bound_claimed, read_record, says_one};
use chess_problems::Bound;
use std::alloc::Global;

/// Where the bound of a record comes from.
#[derive(Clone, Copy, Debug, PartialEq, Eq)]
pub enum BoundSource {
    /// The line says it, by `dm` or by a length in `bm`.
    Line,
    /// The line says none, so that it is the default one.
    Default,
}

/// A bound that is another.
fn another(bound: Bound) -> Bound
    ensures { result ≢ bound }
{
    let moves = if bound.get() == 1 { 2 } else { 1 };
    match Bound::new(moves) {
        Some(other) => other,
        None => unreachable!(),
    }
}

/// Where the bound of a record comes from, whose line claims these words. Where it is the default one, the line is read once more with
/// another.
pub(crate) fn bound_source(
    alloc: Global,
    rays: &Rays,
    line: &[u8],
    words: &[u8],
    record: &Record,
    default: Bound,
) -> Result<BoundSource, NoMemory>
    requires words { words_in words.now ≡ claim_words line.now }
    requires reads { ReadsClaimed line.now default «record».now }
    ensures { IfOk result (λ source. IsSource line.now «record».now source) }
{
    // That the line says no other record rests on this law.
    says_one();
    if record.bound.get() != default.get() {
        return Ok(BoundSource::Line);
    }
    let taken = bound_claimed(words, another(default));
    let Ok(again) = read_record(alloc, rays, line, taken) else {
        return Err(NoMemory);
    };
    if again.bound.get() == default.get() {
        Ok(BoundSource::Line)
    } else {
        Ok(BoundSource::Default)
    }
}
