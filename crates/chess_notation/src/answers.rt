//! The text that answers a record.

ghost use Rattle.std.specs.Prelude.{◌≡◌, ◌≤◌, ◌++◌, ◌∷◌, [], List, length, map, IfOk, OnOk, string_bytes};
ghost use Rattle.std.specs.List.{insert};
ghost use Rattle.chess_moves.specs.Laws.{IsLine};
ghost use Rattle.chess_notation.specs.Operations.{Entry};
ghost use Rattle.chess_notation.specs.Opcodes.{IsBelow};
ghost use Rattle.chess_notation.specs.SanText.{san_text};
ghost use Rattle.chess_notation.specs.inside.Merging.{with_entries};
ghost use Rattle.chess_notation.specs.Answers.{entry_text, entries_text, with_text, in_order, operand_words, line_texts, keys_entry};
ghost use Rattle.chess_notation.specs.Answers.{length_entry, line_entry, none_entry, comment_entry, undecided_entry};
ghost use Rattle.chess_notation.specs.Answers.{none_so_far as none_so_far_of, undecided_front as undecided_front_of};
ghost use Rattle.chess_notation.specs.Answers.{answer_text as answer_text_of, undecided_text as undecided_text_of};
ghost use Rattle.chess_notation.specs.SaidBounds.{says_bound as does_say_bound};
ghost use Rattle.chess_problems.specs.Outcomes.{AreLegal, IsPlayable};

use crate::opcodes::comes_before;
use crate::records::{Operation, Record};
use crate::said_bounds::says_bound;
use crate::san_text::san;
use arrayvec::ArrayString;
use byte_streams::NoMemory;
use chess_board::{Move, Position, after};
use chess_moves::{Rays, legal_listed};
use chess_problems::{Bound, Outcome};
use std::alloc::{AllocError, Global};

/// Adds an operation that the record keeps.
fn push_operation(text: &mut String, operation: &Operation) -> Result<(), AllocError>
    ensures { OnOk result (string_bytes text.new ≡ string_bytes text.old ++ entry_text operation.now) }
{
    text.push(' ')?;
    text.push_str(operation.opcode.as_str())?;
    text.push_str(operation.operands.as_str())?;
    text.push(';')?;
    Ok(())
}

/// Adds operations.
fn push_operations(text: &mut String, operations: &[Operation]) -> Result<(), AllocError>
    ensures { OnOk result (string_bytes text.new ≡ string_bytes text.old ++ entries_text operations.now) }
{
    for operation in operations {
        push_operation(text, operation)?;
    }
    Ok(())
}

/// Adds operations up to the first that the opcode comes before, and gives those that are left. Here the operation of that
/// opcode has its place, and others that come behind it have theirs in what is left.
fn push_until<'a>(
    text: &mut String,
    opcode: &[u8],
    operations: &'a [Operation],
) -> Result<&'a [Operation], AllocError>
    ensures { IfOk result (λ left. (own : Entry) (owns : List Entry) → own.opcode ≡ opcode.now → IsBelow opcode.now owns
        → string_bytes text.old ++ entries_text (with_entries (own ∷ owns) operations.now)
        ≡ string_bytes text.new ++ entries_text (own ∷ with_entries owns left.now)) }
{
    for (index, operation) in operations.iter().enumerate() {
        if comes_before(opcode, operation.opcode.as_str().as_bytes()) {
            return Ok(operations.split_at(index).1);
        }
        push_operation(text, operation)?;
    }
    Ok(&[])
}

/// Adds an operand after one space.
fn push_word(text: &mut String, word: &str) -> Result<(), AllocError>
    ensures { OnOk result (string_bytes text.new ≡ string_bytes text.old ++ 32 ∷ word.now) }
{
    text.push(' ')?;
    text.push_str(word)?;
    Ok(())
}

/// Adds operands.
fn push_words(text: &mut String, words: &[ArrayString<8>]) -> Result<(), AllocError>
    ensures { OnOk result (string_bytes text.new ≡ string_bytes text.old ++ operand_words (map (λ t. t.bytes) words.now)) }
{
    for word in words {
        push_word(text, word.as_str())?;
    }
    Ok(())
}

/// Where a text belongs among others.
fn text_place(text: &[u8], texts: &[ArrayString<8>]) -> usize
    ensures within { result ≤ length texts.now }
    ensures place { with_text text.now (map (λ t. t.bytes) texts.now) ≡ insert (map (λ t. t.bytes) texts.now) result text.now }
{
    for (index, other) in texts.iter().enumerate() {
        if comes_before(text, other.as_str().as_bytes()) {
            return index;
        }
    }
    texts.len()
}

/// Puts a text at its place.
fn put_text(texts: &mut Vec<ArrayString<8>>, text: ArrayString<8>) -> Result<(), AllocError>
    ensures { OnOk result (map (λ t. t.bytes) texts.new.items ≡ with_text text.bytes (map (λ t. t.bytes) texts.old.items)) }
{
    let place = text_place(text.as_str().as_bytes(), texts.as_slice());
    texts.insert(place, text)?;
    Ok(())
}

/// The texts of moves of one position, in order.
fn key_texts(
    alloc: Global,
    rays: &Rays,
    position: &Position,
    keys: &[Move],
) -> Result<Vec<ArrayString<8>>, AllocError>
    requires { AreLegal position.now keys.now }
    ensures { IfOk result (λ texts. map (λ t. t.bytes) texts.items ≡ in_order (map (san_text position.now) keys.now)) }
{
    // That a move of the list is legal is the clause of `legal_listed`.
    legal_listed();
    let mut texts = Vec::new(alloc);
    for index in (0..keys.len()).rev() {
        put_text(&mut texts, san(rays, position, keys[index]))?;
    }
    Ok(texts)
}

/// Moves of one position as `bm` lists them: in SAN and in ASCII order, each after one space.
pub fn listed_text(
    alloc: Global,
    rays: &Rays,
    position: &Position,
    moves: &[Move],
) -> Result<String, NoMemory>
    requires { AreLegal position.now moves.now }
    ensures { IfOk result (λ text. string_bytes text ≡ operand_words (in_order (map (san_text position.now) moves.now))) }
{
    let texts = key_texts(alloc, rays, position, moves)?;
    let mut text = String::new(alloc);
    push_words(&mut text, texts.as_slice())?;
    Ok(text)
}

/// Adds `bm`, the keys.
fn push_keys(
    alloc: Global,
    text: &mut String,
    rays: &Rays,
    position: &Position,
    keys: &[Move],
) -> Result<(), AllocError>
    requires { AreLegal position.now keys.now }
    ensures { OnOk result (string_bytes text.new ≡ string_bytes text.old ++ entry_text (keys_entry position.now keys.now)) }
{
    let texts = key_texts(alloc, rays, position, keys)?;
    text.push_str(" bm")?;
    push_words(text, texts.as_slice())?;
    text.push(';')?;
    Ok(())
}

/// Adds `dm`, the number of moves to the mate.
fn push_length(alloc: Global, text: &mut String, dm: Bound) -> Result<(), AllocError>
    ensures { OnOk result (string_bytes text.new ≡ string_bytes text.old ++ entry_text (length_entry dm)) }
{
    text.push_str(" dm ")?;
    text.push_str(dm.get().to_string(alloc)?.as_str())?;
    text.push(';')?;
    Ok(())
}

/// Adds the moves of a line as operands, each in the position where it is played.
fn push_moves(
    text: &mut String,
    rays: &Rays,
    position: &Position,
    moves: &[Move],
) -> Result<(), AllocError>
    requires { IsLine position.now moves.now }
    ensures { OnOk result (string_bytes text.new ≡ string_bytes text.old ++ operand_words (line_texts position.now moves.now)) }
{
    let mut now = *position;
    for m in moves {
        push_word(text, san(rays, &now, *m).as_str())?;
        now = after(&now, *m);
    }
    Ok(())
}

/// Adds `pv`, the line of play.
fn push_line(
    text: &mut String,
    rays: &Rays,
    position: &Position,
    pv: &[Move],
) -> Result<(), AllocError>
    requires { IsLine position.now pv.now }
    ensures { OnOk result (string_bytes text.new ≡ string_bytes text.old ++ entry_text (line_entry position.now pv.now)) }
{
    text.push_str(" pv")?;
    push_moves(text, rays, position, pv)?;
    text.push(';')?;
    Ok(())
}

/// Adds `c0`, a comment with a number between two texts.
fn push_comment(
    alloc: Global,
    text: &mut String,
    front: &str,
    number: u32,
    back: &str,
) -> Result<(), AllocError>
    ensures { OnOk result (string_bytes text.new ≡ string_bytes text.old ++ entry_text (comment_entry front.now number back.now)) }
{
    text.push_str(" c0 \"")?;
    text.push_str(front)?;
    text.push_str(number.to_string(alloc)?.as_str())?;
    text.push_str(back)?;
    text.push_str("\";")?;
    Ok(())
}

/// A mate to tell of: its length, its keys and its line.
#[derive(Clone, Copy)]
struct Mate<'a> {
    dm: Bound,
    keys: &'a [Move],
    pv: &'a [Move],
}

/// Adds the operations of a mate, each at its place among those that the record keeps.
fn push_mate(
    alloc: Global,
    text: &mut String,
    rays: &Rays,
    record: &Record,
    mate: Mate,
) -> Result<(), AllocError>
    requires keys { AreLegal «record».now.position mate.keys.now }
    requires line { IsLine «record».now.position mate.pv.now }
    ensures { OnOk result (string_bytes text.new ≡ string_bytes text.old
        ++ entries_text (with_entries (keys_entry «record».now.position mate.entry.keys.now ∷ length_entry mate.entry.dm
        ∷ line_entry «record».now.position mate.entry.pv.now ∷ []) «record».now.rest)) }
{
    let left = push_until(text, b"bm", record.rest.as_slice())?;
    push_keys(alloc, text, rays, &record.position, mate.keys)?;
    let left = push_until(text, b"dm", left)?;
    push_length(alloc, text, mate.dm)?;
    let left = push_until(text, b"pv", left)?;
    push_line(text, rays, &record.position, mate.pv)?;
    push_operations(text, left)?;
    Ok(())
}

/// Adds the operation of no mate at its place among those that the record keeps.
fn push_no_mate(alloc: Global, text: &mut String, record: &Record) -> Result<(), AllocError>
    ensures { OnOk result (string_bytes text.new ≡ string_bytes text.old
        ++ entries_text (with_entries (none_entry «record».now.bound ∷ []) «record».now.rest)) }
{
    let left = push_until(text, b"c0", record.rest.as_slice())?;
    push_comment(
        alloc,
        text,
        "no mate in ",
        u32::from(record.bound.get()),
        "",
    )?;
    push_operations(text, left)?;
    Ok(())
}

/// Says within how many moves there is no mate, where there are any.
fn push_none_so_far(alloc: Global, text: &mut String, none: u8) -> Result<(), AllocError>
    ensures { OnOk result (string_bytes text.new ≡ string_bytes text.old ++ none_so_far_of none) }
{
    if none == 0 {
        return Ok(());
    }
    text.push_str("no mate in ")?;
    text.push_str(none.to_string(alloc)?.as_str())?;
    text.push_str(", ")?;
    Ok(())
}

/// What is said before the seconds in which a problem was not decided.
fn undecided_front(alloc: Global, none: u8, bound: Bound) -> Result<String, AllocError>
    ensures { IfOk result (λ text. string_bytes text ≡ undecided_front_of none bound) }
{
    let mut front = String::new(alloc);
    push_none_so_far(alloc, &mut front, none)?;
    front.push_str("not decided within ")?;
    front.push_str(bound.get().to_string(alloc)?.as_str())?;
    front.push_str(" in ")?;
    Ok(front)
}

/// Adds the comment that a problem was not decided in so many seconds, at its place among the operations that the record keeps.
fn push_undecided(
    alloc: Global,
    text: &mut String,
    record: &Record,
    none: u8,
    seconds: u32,
) -> Result<(), AllocError>
    ensures { OnOk result (string_bytes text.new ≡ string_bytes text.old
        ++ entries_text (with_entries (undecided_entry none «record».now.bound seconds ∷ []) «record».now.rest)) }
{
    let front = undecided_front(alloc, none, record.bound)?;
    let left = push_until(text, b"c0", record.rest.as_slice())?;
    push_comment(alloc, text, front.as_str(), seconds, " s")?;
    push_operations(text, left)?;
    Ok(())
}

/// Adds the same, and the bound, each at its place.
fn push_undecided_length(
    alloc: Global,
    text: &mut String,
    record: &Record,
    none: u8,
    seconds: u32,
) -> Result<(), AllocError>
    ensures { OnOk result (string_bytes text.new ≡ string_bytes text.old
        ++ entries_text (with_entries (undecided_entry none «record».now.bound seconds ∷ length_entry «record».now.bound ∷ []) «record».now.rest)) }
{
    let front = undecided_front(alloc, none, record.bound)?;
    let left = push_until(text, b"c0", record.rest.as_slice())?;
    push_comment(alloc, text, front.as_str(), seconds, " s")?;
    let left = push_until(text, b"dm", left)?;
    push_length(alloc, text, record.bound)?;
    push_operations(text, left)?;
    Ok(())
}

/// The text that answers a record: the four fields of its position, and then in ASCII order of opcode the operations that it
/// keeps and those of the outcome (PGN Specification, sections 16.2.4 and 16.2.5). For a mate these are `bm`, `dm` and `pv`,
/// otherwise `c0`, which says that there is none within the bound. The outcome's moves are such as can be played, and only a
/// growth that is refused is an error.
#[tactic(auto, unfolding(crate::specs::Answers::answer_text, chess_problems::specs::Outcomes::IsPlayable))]
pub fn answer_text(
    alloc: Global,
    rays: &Rays,
    record: &Record,
    outcome: &Outcome,
) -> Result<String, NoMemory>
    requires { IsPlayable «record».now.position outcome.now }
    ensures { IfOk result (λ text. string_bytes text ≡ answer_text_of «record».now outcome.now) }
{
    let mut text = String::new(alloc);
    text.push_str(record.position.text().as_str())?;
    match outcome {
        Outcome::Mate { dm, keys, pv } => push_mate(
            alloc,
            &mut text,
            rays,
            record,
            Mate {
                dm: *dm,
                keys: keys.as_slice(),
                pv: pv.as_slice(),
            },
        )?,
        Outcome::NoMate => push_no_mate(alloc, &mut text, record)?,
    }
    Ok(text)
}

/// The text that answers a record of this line whose problem was not decided in so many seconds, but that there is no mate within `none` moves: the four
/// fields of its position, and then in ASCII order of opcode the operations that it keeps, `c0`, which says so, and, where its line has it,
/// `dm`, the bound that is asked, so that whoever reads it as a record asks the same. Only a growth that is refused is an error.
#[tactic(auto, unfolding(crate::specs::Answers::undecided_text))]
pub fn undecided_text(
    alloc: Global,
    line: &[u8],
    record: &Record,
    none: u8,
    seconds: u32,
) -> Result<String, NoMemory>
    ensures { IfOk result (λ text. string_bytes text ≡ undecided_text_of (does_say_bound line.now) «record».now none seconds) }
{
    let mut text = String::new(alloc);
    text.push_str(record.position.text().as_str())?;
    if says_bound(line) {
        push_undecided_length(alloc, &mut text, record, none, seconds)?;
    } else {
        push_undecided(alloc, &mut text, record, none, seconds)?;
    }
    Ok(text)
}
