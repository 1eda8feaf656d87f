//! How much memory `--memory` says, and how many entries memos have for it.

ghost use Rattle.std.specs.Prelude.{◌≡◌, ◌≤◌, min};
ghost use Rattle.std.specs.List.{list_all};
ghost use Rattle.chess_board.specs.Fields.{digits_value};
ghost use Rattle.command_words.specs.Memory.{is_decimal, memory_said, shared_size_of, unit_of};

use crate::limits::MemoSize;

/// The most memory that may be said, 32 G.
const MAX_MEMORY: u64 = 34_359_738_368;

/// More of the smallest unit than may be said.
const TOO_MANY: u64 = 33_554_433;

/// What an entry of a memo takes, with all that is kept beside it.
const BYTES_AN_ENTRY: u64 = 160;

/// Whether each byte of a text is a decimal digit.
fn are_decimal(text: &[u8]) -> bool
    ensures { result ≡ list_all is_decimal text.now }
{
    for byte in text {
        if *byte < b'0' || b'9' < *byte {
            return false;
        }
    }
    true
}

/// The number that digits spell, or 33,554,433 where it is larger.
fn capped_value(digits: &[u8]) -> u64
    ensures { result ≡ min (digits_value digits.now) 33554433 }
{
    let mut value = 0u64;
    for byte in digits {
        value = (10 * value + byte.saturating_sub(b'0') as u64).min(TOO_MANY);
    }
    value
}

/// The bytes that a letter behind a number stands for.
fn unit_of(letter: u8) -> u64
    ensures { result ≡ unit_of letter }
{
    match letter {
        b'K' | b'k' => 1024,
        b'M' | b'm' => 1_048_576,
        b'G' | b'g' => 1_073_741_824,
        _ => 0,
    }
}

/// The bytes that a text says, 1 K to 32 G.
#[tactic(auto, using(crate::proofs::Capped::said_capped))]
fn memory_said(text: &[u8]) -> Option<u64>
    ensures { result ≡ memory_said text.now }
{
    let [digits @ .., letter] = text else {
        return None;
    };
    if !are_decimal(digits) {
        return None;
    }
    let bytes = capped_value(digits) * unit_of(*letter);
    if 1024 <= bytes && bytes <= MAX_MEMORY {
        Some(bytes)
    } else {
        None
    }
}

/// How many entries each of so many memos has, where together they take as much memory as a text says.
pub(crate) fn shared_size(memos: u8, text: &str) -> Option<MemoSize>
    requires { 1 ≤ memos }
    ensures { result ≡ shared_size_of memos text.now }
{
    let bytes = memory_said(text.as_bytes())?;
    MemoSize::new((bytes / (memos as u64 * BYTES_AN_ENTRY)).max(1))
}
