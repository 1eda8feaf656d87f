//! What is told of a FEN or a record.

ghost use Rattle.std.specs.Prelude.{◌≡◌, ◌++◌, IfOk, List, [], map};
ghost use Rattle.std.specs.Borrow.{Bor};
ghost use Rattle.chess_board.specs.Faults.{fault_name};
ghost use Rattle.chess_board.specs.Fens.{IsFault};
ghost use Rattle.chess_notation.specs.RecordFields.{behind_fields, line_fields};
ghost use Rattle.chess_notation.specs.Words.{word_at as word_of_text};
ghost use Rattle.fault_explanations.specs.Explained.{AreOfKnown, code_sentence};
ghost use Rattle.fault_explanations.specs.declared.explanations.Explanation.{Explanation};
ghost use Rattle.fen_explanations.specs.Told.{Tells, TellsFen, TellsRecord, begins_with_digit as does_begin_with_digit, checks_if, counters_told};
ghost use Rattle.fen_explanations.specs.Told.{fen_told, fields_told, is_fen as is_text_of_fen, moving_told, record_told, rest_told, sound_told};
ghost use Rattle.fen_explanations.specs.Told.{default_bound, line_told, right_told, spaces_told, text_told, uncounted_told, unless_told};

use crate::blanks::{push_blanks, spaced};
use crate::checks::push_checks;
use crate::fields::{
    push_castling, push_counter, push_no_target, push_side_field, push_target, side_said, times,
};
use crate::men::push_men;
use crate::placements::{men_in, ranks_of};
use crate::ranks::push_ranks;
use crate::sentences::{push_if, push_sentence};
use crate::warnings::push_side_warned;
use chess_board::{Colour, FenFault, read_fen};
use chess_moves::Rays;
use chess_notation::{
    Bound, EpdFault, FourWords, NoMemory, four_words, is_blank, read_record, word_at,
};
use fault_explanations::push_code;
use std::alloc::{AllocError, Global};

/// Tells who attacks a king whose side isn't to move, where that is asked.
#[tactic(auto, unfolding(crate::specs::Told::checks_if))]
fn push_checks_if(
    alloc: Global,
    text: &mut Vec<u8>,
    ranks: &[&[u8]],
    is_clean: bool,
    side: Colour,
) -> Result<(), AllocError>
    ensures { IfOk result (λ _. text.new.items ≡ text.old.items ++ checks_if (map (λ r. r.now) ranks.now) is_clean side) }
{
    if !is_clean {
        return Ok(());
    }
    let men = men_in(alloc, ranks)?;
    push_checks(text, men.as_slice(), side.other())
}

/// Tells what depends on the side to move.
#[tactic(auto, unfolding(crate::specs::Told::moving_told))]
fn push_moving(
    alloc: Global,
    text: &mut Vec<u8>,
    ranks: &[&[u8]],
    is_clean: bool,
    side: Option<Colour>,
    target: &[u8],
) -> Result<(), AllocError>
    ensures { IfOk result (λ _. text.new.items ≡ text.old.items ++ moving_told (map (λ r. r.now) ranks.now) is_clean side target.now) }
{
    let Some(side) = side else {
        return push_no_target(text, target);
    };
    push_target(text, ranks, is_clean, side, target)?;
    push_checks_if(alloc, text, ranks, is_clean, side)
}

/// Tells what is wrong with four fields beside the ranks.
#[tactic(auto, unfolding(crate::specs::Told::rest_told))]
fn push_rest(
    alloc: Global,
    text: &mut Vec<u8>,
    ranks: &[&[u8]],
    is_clean: bool,
    words: &FourWords<'_>,
) -> Result<(), AllocError>
    ensures { IfOk result (λ _. text.new.items ≡ text.old.items ++ rest_told (map (λ r. r.now) ranks.now) is_clean
        (record {
          placement = words.now.placement.now;
          side = words.now.side.now;
          castling = words.now.castling.now;
          target = words.now.target.now;
        })) }
{
    push_men(text, words.placement, ranks)?;
    push_side_field(text, words.side)?;
    push_castling(text, ranks, is_clean, words.castling)?;
    push_moving(
        alloc,
        text,
        ranks,
        is_clean,
        side_said(words.side),
        words.target,
    )
}

/// What is wrong with four fields.
#[tactic(auto, unfolding(crate::specs::Told::fields_told))]
fn fields_text(alloc: Global, words: &FourWords<'_>) -> Result<Vec<u8>, AllocError>
    ensures { IfOk result (λ text. text.items ≡ fields_told
        (record {
          placement = words.now.placement.now;
          side = words.now.side.now;
          castling = words.now.castling.now;
          target = words.now.target.now;
        })) }
{
    let ranks = ranks_of(alloc, words.placement)?;
    let mut text = Vec::new(alloc);
    push_ranks(alloc, &mut text, ranks.as_slice())?;
    let is_clean = text.is_empty();
    push_rest(alloc, &mut text, ranks.as_slice(), is_clean, words)?;
    Ok(text)
}

/// Tells what is wrong with two counters.
#[tactic(auto, unfolding(crate::specs::Told::counters_told))]
fn push_counters(text: &mut Vec<u8>, behind: &[u8]) -> Result<(), AllocError>
    ensures { IfOk result (λ _. text.new.items ≡ text.old.items ++ counters_told behind.now) }
{
    let (halfmove, rest) = word_at(behind);
    let (fullmove, _) = word_at(rest);
    push_counter(text, halfmove, b"halfmove clock")?;
    push_counter(text, fullmove, b"fullmove number")
}

/// Tells where a FEN has a space too many.
fn push_spaces(text: &mut Vec<u8>, fen: &[u8]) -> Result<(), AllocError>
    ensures { IfOk result (λ _. text.new.items ≡ text.old.items ++ spaces_told fen.now) }
{
    let spaces = times(fen, b' ');
    push_if(
        text,
        5 < spaces,
        &[b"a space is too many: one stands between each two fields"],
    )
}

/// What is wrong with a FEN. A blank of another kind is taken for a space, so that it doesn't run two fields into one.
#[tactic(auto, unfolding(crate::specs::Told::fen_told))]
fn fen_text(alloc: Global, fen: &[u8]) -> Result<Vec<u8>, AllocError>
    ensures { IfOk result (λ text. text.items ≡ fen_told fen.now) }
{
    let spaced = spaced(alloc, fen)?;
    let words = four_words(spaced.as_slice());
    let mut text = fields_text(alloc, &words)?;
    push_counters(&mut text, words.behind)?;
    push_spaces(&mut text, fen)?;
    push_blanks(&mut text, fen)?;
    Ok(text)
}

/// Adds the sentence of a code where nothing is told.
#[tactic(auto, unfolding(crate::specs::Told::unless_told))]
fn push_unless_told(text: &mut Vec<u8>, code: &str) -> Result<(), AllocError>
    ensures { IfOk result (λ _. (groups : List (Bor (List Explanation)))
        × AreOfKnown groups × (text.new.items ≡ unless_told text.old.items (code_sentence groups code.now))) }
{
    if !text.is_empty() {
        return Ok(());
    }
    push_code(text, code.as_bytes())
}

/// What is wrong with a FEN that has this fault.
fn faulty_fen_text(alloc: Global, fen: &[u8], fault: &FenFault) -> Result<Vec<u8>, AllocError>
    ensures { IfOk result (λ text. (groups : List (Bor (List Explanation)))
        × AreOfKnown groups × (text.items ≡ unless_told (fen_told fen.now) (code_sentence groups (fault_name fault.now)))) }
{
    let mut text = fen_text(alloc, fen)?;
    push_unless_told(&mut text, fault.code())?;
    Ok(text)
}

/// Adds what is wrong with a record whose fields have been told of.
#[tactic(auto, unfolding(crate::specs::Told::record_told))]
fn push_record_fault(text: &mut Vec<u8>, line: &[u8], fault: &EpdFault) -> Result<(), AllocError>
    requires { text.old.items ≡ line_told line.now }
    ensures { IfOk result (λ _. (groups : List (Bor (List Explanation)))
        × AreOfKnown groups × (text.new.items ≡ record_told line.now fault.now (code_sentence groups))) }
{
    match fault {
        EpdFault::Fen(fault) => push_unless_told(text, fault.code()),
        fault => push_code(text, fault.code().as_bytes()),
    }
}

/// What is wrong with the fields of a record, and with its blanks.
#[tactic(auto, unfolding(crate::specs::Told::line_told))]
fn line_text(alloc: Global, line: &[u8]) -> Result<Vec<u8>, AllocError>
    ensures { IfOk result (λ text. text.items ≡ line_told line.now) }
{
    let spaced = spaced(alloc, line)?;
    let mut text = fields_text(alloc, &four_words(spaced.as_slice()))?;
    push_blanks(&mut text, line)?;
    Ok(text)
}

/// What is wrong with a record that has this fault.
fn faulty_record_text(alloc: Global, line: &[u8], fault: &EpdFault) -> Result<Vec<u8>, AllocError>
    ensures { IfOk result (λ text. (groups : List (Bor (List Explanation)))
        × AreOfKnown groups × (text.items ≡ record_told line.now fault.now (code_sentence groups))) }
{
    let mut text = line_text(alloc, line)?;
    push_record_fault(&mut text, line, fault)?;
    Ok(text)
}

/// Tells that nothing is wrong, and of a record without counters what wants them.
fn push_right(text: &mut Vec<u8>, is_uncounted: bool) -> Result<(), AllocError>
    ensures { IfOk result (λ _. text.new.items ≡ text.old.items ++ right_told is_uncounted) }
{
    if is_uncounted {
        return push_uncounted(text);
    }
    push_sentence(text, &[b"nothing is wrong with it"])
}

/// Tells that a record has no counters, and that nothing else is wrong.
fn push_uncounted(text: &mut Vec<u8>) -> Result<(), AllocError>
    ensures { IfOk result (λ _. text.new.items ≡ text.old.items ++ uncounted_told) }
{
    push_sentence(
        text,
        &[b"it has no counters, and look, moves and perft refuse it: for these add \" 0 1\""],
    )?;
    push_sentence(text, &[b"as a record nothing is wrong with it"])
}

/// What is told of a text with which nothing is wrong.
#[tactic(auto, unfolding(crate::specs::Told::sound_told))]
fn sound_text(alloc: Global, placement: &[u8], behind: &[u8]) -> Result<Vec<u8>, AllocError>
    ensures { IfOk result (λ text. text.items ≡ sound_told placement.now behind.now) }
{
    let mut text = Vec::new(alloc);
    push_side_warned(&mut text, placement, Colour::White)?;
    push_side_warned(&mut text, placement, Colour::Black)?;
    push_right(&mut text, is_blank(behind))?;
    Ok(text)
}

/// The same, of its first word and of what stands behind its fields.
fn right_text(alloc: Global, text: &[u8]) -> Result<Vec<u8>, AllocError>
    ensures { IfOk result (λ told. told.items ≡ text_told text.now) }
{
    let (placement, _) = word_at(text);
    sound_text(alloc, placement, four_words(text).behind)
}

/// What is told of a FEN or a record, a line for each thing, and whether something is wrong with it.
#[derive(Drop)]
pub struct Told {
    pub text: Vec<u8>,
    pub is_faulty: bool,
}

/// What is told of a FEN.
fn tell_fen(alloc: Global, fen: &[u8]) -> Result<Told, AllocError>
    ensures { IfOk result (λ told. TellsFen fen.now told.is_faulty told.text.items) }
{
    match read_fen(fen) {
        Ok(_) => Ok(Told {
            text: right_text(alloc, fen)?,
            is_faulty: false,
        }),
        Err(fault) => Ok(Told {
            text: faulty_fen_text(alloc, fen, &fault)?,
            is_faulty: true,
        }),
    }
}

/// How many moves a record asks for that doesn't say.
fn default_bound() -> Bound
    ensures { result ≡ default_bound }
{
    match Bound::new(3) {
        Some(bound) => bound,
        None => unreachable!(),
    }
}

/// What is told of a record.
fn tell_record(alloc: Global, line: &[u8]) -> Result<Told, NoMemory>
    ensures { IfOk result (λ told. TellsRecord line.now told.is_faulty told.text.items) }
{
    match read_record(alloc, &Rays::new(), line, default_bound()) {
        Ok(_) => Ok(Told {
            text: right_text(alloc, line)?,
            is_faulty: false,
        }),
        Err(EpdFault::NoMemory) => Err(NoMemory),
        Err(fault) => Ok(Told {
            text: faulty_record_text(alloc, line, &fault)?,
            is_faulty: true,
        }),
    }
}

fn begins_with_digit(word: &[u8]) -> bool
    ensures { result ≡ does_begin_with_digit word.now }
{
    match word {
        [byte, ..] => byte.is_ascii_digit(),
        [] => false,
    }
}

/// Whether a text is read as a FEN, and not as a record.
#[tactic(auto, unfolding(crate::specs::Told::is_fen))]
fn is_fen(text: &[u8]) -> bool
    ensures { result ≡ is_text_of_fen text.now }
{
    let (halfmove, rest) = word_at(four_words(text).behind);
    let (_, rest) = word_at(rest);
    begins_with_digit(halfmove) && is_blank(rest)
}

/// Tells what is wrong with a FEN or a record (PGN Specification, section 16), a line for each thing; or that nothing is, behind what can't
/// come about by play.
#[tactic(auto, unfolding(crate::specs::Told::Tells))]
pub fn tell(alloc: Global, text: &[u8]) -> Result<Told, NoMemory>
    ensures { IfOk result (λ told. Tells text.now told.is_faulty told.text.items) }
{
    let spaced = spaced(alloc, text)?;
    if is_fen(spaced.as_slice()) {
        return Ok(tell_fen(alloc, text)?);
    }
    tell_record(alloc, text)
}
