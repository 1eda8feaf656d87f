//! The values of arguments, as `clap` has matched them.

ghost use Rattle.std.specs.Prelude.{◌≡◌, ◌≤◌, codes, map, option_map, unwrap_or};
ghost use Rattle.std.specs.Option.{option_map_or};
ghost use Rattle.clap.specs.Walk.{byte_or_zero};
ghost use Rattle.clap.specs.Words.{all_of, first_of, found_of, one_of, rows_of};
ghost use Rattle.command_words.specs.Asked.{bound_in, default_bound, depth_in, from_in, is_given, limit_in, memo_size_in, memos_on};
ghost use Rattle.command_words.specs.Asked.{has_letters_asked, letters_asked, number_or_zero, side_in, verify_memos_on, workers_in};

use crate::limits::{Depth, LineNumber, MemoSize, Workers};
use crate::memory::shared_size;
use crate::texts::is_same;
use chess_board::Colour;
use chess_problems::Bound;
use clap::ArgMatches;

/// The value of a positional.
pub(crate) fn text_in<'a>(matches: &ArgMatches<'a>, id: &str) -> Option<&'a str>
    ensures { option_map (λ s. s.now) result ≡ first_of id.now (rows_of (found_of matches.now)) }
{
    matches.get_str(id)
}

/// The word that gives the letters of men, by the id of its option: English ones where it isn't given.
#[tactic(auto, unfolding(crate::specs::Asked::letters_asked))]
pub(crate) fn letters_in<'a>(matches: &ArgMatches<'a>, id: &str) -> &'a str
    ensures { result.now ≡ letters_asked id.now (rows_of (found_of matches.now)) }
{
    match text_in(matches, id) {
        Some(letters) => letters,
        None => "en",
    }
}

/// Whether letters are given, in moves or in placements.
#[tactic(auto, unfolding(crate::specs::Asked::has_letters_asked))]
pub(crate) fn has_letters(matches: &ArgMatches) -> bool
    ensures { result ≡ has_letters_asked (rows_of (found_of matches.now)) }
{
    text_in(matches, "L").is_some() || text_in(matches, "P").is_some()
}

/// The values of a positional that takes more than one.
pub(crate) fn names_in<'m, 'a>(matches: &'m ArgMatches<'a>, id: &str) -> Option<&'m [&'a str]>
    ensures { option_map (λ names. map (λ s. s.now) names.now) result ≡ all_of id.now (rows_of (found_of matches.now)) }
{
    matches.get_strs(id)
}

/// The number of a positional or of an option.
pub(crate) fn number_in(matches: &ArgMatches, id: &str) -> u8
    ensures { result ≡ option_map_or byte_or_zero (one_of id.now (rows_of (found_of matches.now))) 0 }
{
    matches.get_one::<u8>(id).unwrap_or(0)
}

/// The number of an option that a byte may not hold.
pub(crate) fn large_number_in(matches: &ArgMatches, id: &str) -> u32
    ensures { result ≡ option_map_or number_or_zero (one_of id.now (rows_of (found_of matches.now))) 0 }
{
    matches.get_one::<u32>(id).unwrap_or(0)
}

/// The depth of `perft`. `clap` has kept it to its range.
#[tactic(auto, unfolding(crate::specs::Asked::depth_in))]
pub(crate) fn depth_in(matches: &ArgMatches) -> Option<Depth>
    ensures { result ≡ depth_in (rows_of (found_of matches.now)) }
{
    Depth::new(number_in(matches, "DEPTH"))
}

/// The bound of `solve`, `verify`, `tree`, `sheet` and `serve`. `clap` has kept it to its range.
#[tactic(auto, unfolding(crate::specs::Asked::bound_in))]
pub(crate) fn bound_in(matches: &ArgMatches) -> Option<Bound>
    ensures { result ≡ bound_in (rows_of (found_of matches.now)) }
{
    Bound::new(number_in(matches, "B"))
}

/// The workers of `solve`, `verify` and `serve`. `clap` has kept them to their range.
#[tactic(auto, unfolding(crate::specs::Asked::workers_in))]
pub(crate) fn workers_in(matches: &ArgMatches) -> Option<Workers>
    ensures { result ≡ workers_in (rows_of (found_of matches.now)) }
{
    Workers::new(number_in(matches, "N"))
}

/// The entries of a memo where nothing is said of it.
pub(crate) const DEFAULT_MEMO: u32 = 65_536;

/// The entries of the memo of each worker of `serve`, where nothing is said of them.
pub(crate) const DEFAULT_MEMOS: u32 = 16_384;

/// The size of each of so many memos: that of `--memo`, which `clap` has kept to its range, and has none where none is given, or by
/// `--memory`.
#[tactic(auto, unfolding(crate::specs::Asked::memo_size_in))]
pub(crate) fn memo_size_in(matches: &ArgMatches, memos: u8, default: u32) -> Option<MemoSize>
    requires { 1 ≤ memos }
    ensures { result ≡ memo_size_in memos default (rows_of (found_of matches.now)) }
{
    let entries = large_number_in(matches, "M");
    match text_in(matches, "SIZE") {
        None if entries == 0 => MemoSize::new(default as u64),
        None => MemoSize::new(entries as u64),
        Some(memory) if entries == 0 => shared_size(memos, memory),
        Some(_) => None,
    }
}

/// How many memos `solve` has with so many workers: each has one, and where there are several the calling thread another.
pub(crate) fn memos_on(workers: Workers) -> u8
    ensures memos { result ≡ memos_on workers }
    ensures some { 1 ≤ result }
{
    match workers.get() {
        1 => 1,
        count => count + 1,
    }
}

/// How many memos `verify` has with so many workers: as `solve` where each record has a limit, and else one for each of them.
pub(crate) fn verify_memos_on(limit: Option<u32>, workers: Workers) -> u8
    ensures memos { result ≡ verify_memos_on limit workers }
    ensures some { 1 ≤ result }
{
    match limit {
        Some(_) => memos_on(workers),
        None => workers.get(),
    }
}

/// The number of the line that `solve`, `verify` or `tree` answers first. `clap` has kept it to its range.
#[tactic(auto, unfolding(crate::specs::Asked::from_in))]
pub(crate) fn from_in(matches: &ArgMatches) -> Option<LineNumber>
    ensures { result ≡ from_in (rows_of (found_of matches.now)) }
{
    LineNumber::new(large_number_in(matches, "K"))
}

/// How many seconds `solve`, `verify` or `tree` may take for each record. `clap` has kept them to their range, and has none where none are given.
#[tactic(auto, unfolding(crate::specs::Asked::limit_in))]
pub(crate) fn limit_in(matches: &ArgMatches) -> Option<u32>
    ensures { result ≡ limit_in (rows_of (found_of matches.now)) }
{
    match large_number_in(matches, "S") {
        0 => None,
        seconds => Some(seconds),
    }
}

/// Whether an option without a value is given. `clap` has the value `true` for it then, and else `false`.
#[tactic(auto, unfolding(crate::specs::Asked::is_given))]
pub(crate) fn is_given(matches: &ArgMatches, id: &str) -> bool
    ensures { result ≡ is_given id.now (rows_of (found_of matches.now)) }
{
    match text_in(matches, id) {
        Some(value) => is_same(value, "true"),
        None => false,
    }
}

/// From which side the board is seen.
#[tactic(auto, unfolding(crate::specs::Asked::side_in))]
pub(crate) fn side_in(matches: &ArgMatches) -> Colour
    ensures { result ≡ side_in (rows_of (found_of matches.now)) }
{
    if is_given(matches, "flip") {
        Colour::Black
    } else {
        Colour::White
    }
}

/// The bound of records that say none, where none is given.
fn default_bound() -> Bound
    ensures { result ≡ default_bound }
{
    match Bound::new(3) {
        Some(bound) => bound,
        None => unreachable!(),
    }
}

/// The bound of records that say none.
pub(crate) fn bound_or_default(matches: &ArgMatches) -> Bound
    ensures { result ≡ unwrap_or (bound_in (rows_of (found_of matches.now))) default_bound }
{
    match bound_in(matches) {
        Some(bound) => bound,
        None => default_bound(),
    }
}
