//! What is wrong with the fields behind the placement.

ghost use Rattle.std.specs.Prelude.{◌≡◌, ◌++◌, ◌&&◌, ◌||◌, ◌<◌, ◌+◌, ◌∷◌, [], IfOk, IfSome, codes, is_some, map, not};
ghost use Rattle.std.specs.List.{list_all, list_any};
ghost use Rattle.chess_board.specs.Fields.{has_letter as does_have_letter, target_rank as rank_of_target, times as times_of};
ghost use Rattle.chess_board.specs.Squares.{rank_of};
ghost use Rattle.chess_notation.specs.Words.{is_empty_text};
ghost use Rattle.fen_explanations.specs.Fields.{is_right_letter as is_letter_of_right, are_once as are_letters_once};
ghost use Rattle.fen_explanations.specs.Fields.{are_right_letters as are_letters_of_rights, castling_field_told, castling_told};
ghost use Rattle.fen_explanations.specs.Fields.{castling_rule as rule_of_castling, is_chess960 as is_castling_of_chess960};
ghost use Rattle.fen_explanations.specs.Fields.{is_file_letter as is_letter_of_file, is_letter_of_chess960 as is_letter_of_other_castling};
ghost use Rattle.fen_explanations.specs.Fields.{rights_told};
ghost use Rattle.fen_explanations.specs.Fields.{counter_told, field_told, full_told};
ghost use Rattle.fen_explanations.specs.Fields.{is_counter_text as is_text_of_counter, is_dash as is_text_of_dash, lack_told, no_pawn_told};
ghost use Rattle.fen_explanations.specs.Fields.{own_name as name_of_own};
ghost use Rattle.fen_explanations.specs.Fields.{right_letter as letter_of_right, right_told, said_target_told, side_field_told};
ghost use Rattle.fen_explanations.specs.Fields.{side_said as side_of_field};
ghost use Rattle.fen_explanations.specs.Sentences.{told_if};
ghost use Rattle.fen_explanations.specs.Fields.{square_said as square_of_field, target_rule as rule_of_target, target_field_told};
ghost use Rattle.fen_explanations.specs.Fields.{target_square_told, target_told, no_target_told};

use crate::placements::{has_man, letter_of, letter_on};
use crate::sentences::{colour_name, kind_name, push_if, side_name};
use chess_board::{Colour, Kind, Man, Square, Wing, king_goal, king_home, rook_home};
use std::alloc::AllocError;

/// Tells where a field isn't there.
fn push_missing(text: &mut Vec<u8>, field: &[u8], name: &[u8]) -> Result<(), AllocError>
    ensures { IfOk result (λ _. text.new.items ≡ text.old.items
        ++ told_if (is_empty_text field.now) (codes "the " ∷ name.now ∷ codes " is missing" ∷ [])) }
{
    push_if(text, field.is_empty(), &[b"the ", name, b" is missing"])
}

/// Tells where a field isn't there, or isn't right.
#[tactic(auto, unfolding(crate::specs::Fields::field_told))]
fn push_field(
    text: &mut Vec<u8>,
    field: &[u8],
    is_right: bool,
    name: &[u8],
    rule: &[u8],
) -> Result<(), AllocError>
    ensures { IfOk result (λ _. text.new.items ≡ text.old.items ++ field_told field.now is_right name.now rule.now) }
{
    push_missing(text, field, name)?;
    let is_wrong = !field.is_empty() && !is_right;
    push_if(
        text,
        is_wrong,
        &[b"\"", field, b"\" is no ", name, b": ", rule],
    )
}

/// The side that a field says.
#[tactic(auto, unfolding(crate::specs::Fields::side_said))]
pub(crate) fn side_said(field: &[u8]) -> Option<Colour>
    ensures { result ≡ side_of_field field.now }
{
    match field {
        [b'w'] => Some(Colour::White),
        [b'b'] => Some(Colour::Black),
        _ => None,
    }
}

/// Tells where the side to move isn't right.
pub(crate) fn push_side_field(text: &mut Vec<u8>, field: &[u8]) -> Result<(), AllocError>
    ensures { IfOk result (λ _. text.new.items ≡ text.old.items ++ side_field_told field.now) }
{
    push_field(
        text,
        field,
        side_said(field).is_some(),
        b"side to move",
        b"w or b",
    )
}

#[tactic(auto, unfolding(crate::specs::Fields::is_dash))]
fn is_dash(field: &[u8]) -> bool
    ensures { result ≡ is_text_of_dash field.now }
{
    matches!(field, [b'-'])
}

pub(crate) fn times(text: &[u8], letter: u8) -> usize
    ensures { result ≡ times_of letter text.now }
{
    text.iter().filter(|b| **b == letter).count()
}

/// Whether no letter of a right stands twice.
#[tactic(auto, unfolding(crate::specs::Fields::are_once))]
fn are_once(field: &[u8]) -> bool
    ensures { result ≡ are_letters_once field.now }
{
    times(field, b'K') <= 1
        && times(field, b'Q') <= 1
        && times(field, b'k') <= 1
        && times(field, b'q') <= 1
}

#[tactic(auto, unfolding(crate::specs::Fields::is_right_letter))]
fn is_right_letter(byte: u8) -> bool
    ensures { result ≡ is_letter_of_right byte }
{
    byte == b'K' || byte == b'Q' || byte == b'k' || byte == b'q'
}

/// Whether a field has letters of rights alone.
fn have_right_letters(field: &[u8]) -> bool
    ensures { result ≡ list_all is_letter_of_right field.now }
{
    for byte in field {
        if !is_right_letter(*byte) {
            return false;
        }
    }
    true
}

/// Whether a field has letters of rights alone, none of them twice.
#[tactic(auto, unfolding(crate::specs::Fields::are_right_letters))]
fn are_right_letters(field: &[u8]) -> bool
    ensures { result ≡ are_letters_of_rights field.now }
{
    have_right_letters(field) && are_once(field)
}

/// Whether a byte names a file, as a capital or a small letter.
fn is_file_letter(byte: u8) -> bool
    ensures { result ≡ is_letter_of_file byte }
{
    b'A' <= byte && byte <= b'H' || b'a' <= byte && byte <= b'h'
}

/// Whether a field has letters of files and of rights alone.
fn have_letters_of_chess960(field: &[u8]) -> bool
    ensures { result ≡ list_all is_letter_of_other_castling field.now }
{
    for byte in field {
        if !is_file_letter(*byte) && !is_right_letter(*byte) {
            return false;
        }
    }
    true
}

/// Whether a letter of a file stands in a field.
fn names_file(field: &[u8]) -> bool
    ensures { result ≡ list_any is_letter_of_file field.now }
{
    for byte in field {
        if is_file_letter(*byte) {
            return true;
        }
    }
    false
}

/// Whether a field says castling of Chess960, by files of rooks.
#[tactic(auto, unfolding(crate::specs::Fields::is_chess960))]
fn is_chess960(field: &[u8]) -> bool
    ensures { result ≡ is_castling_of_chess960 field.now }
{
    have_letters_of_chess960(field) && names_file(field)
}

/// What a castling field has to be.
fn castling_rule(is_chess960: bool) -> &'static [u8]
    ensures { result.now ≡ rule_of_castling is_chess960 }
{
    if is_chess960 {
        b"- or letters of KQkq, each once; castling of Chess960 isn't read"
    } else {
        b"- or letters of KQkq, each once"
    }
}

/// Tells where the castling field isn't spelt right.
fn push_castling_field(text: &mut Vec<u8>, field: &[u8]) -> Result<(), AllocError>
    ensures { IfOk result (λ _. text.new.items ≡ text.old.items ++ castling_field_told field.now) }
{
    let is_right = is_dash(field) || are_right_letters(field);
    push_field(
        text,
        field,
        is_right,
        b"castling field",
        castling_rule(is_chess960(field)),
    )
}

pub(crate) fn has_letter(text: &[u8], letter: u8) -> bool
    ensures { result ≡ does_have_letter letter text.now }
{
    text.iter().any(|b| *b == letter)
}

/// The letter of a right.
fn right_letter(colour: Colour, wing: Wing) -> u8
    ensures { result ≡ letter_of_right colour wing }
{
    match wing {
        Wing::KingSide => letter_of(colour, Kind::King),
        Wing::QueenSide => letter_of(colour, Kind::Queen),
    }
}

/// The colour of a man in whose place one of the other side stands.
fn own_name(ranks: &[&[u8]], colour: Colour, kind: Kind, square: Square) -> &'static [u8]
    ensures { result.now ≡ name_of_own (map (λ r. r.now) ranks.now) colour kind square }
{
    if !has_man(ranks, colour.other(), kind, square) {
        return b"";
    }
    match colour {
        Colour::White => b" white",
        Colour::Black => b" black",
    }
}

/// Tells where a side lacks a man to castle, where that is asked.
#[tactic(auto, unfolding(crate::specs::Fields::lack_told))]
fn push_lack(
    text: &mut Vec<u8>,
    ranks: &[&[u8]],
    asked: bool,
    man: Man,
    wing: Wing,
    home: Square,
) -> Result<(), AllocError>
    ensures { IfOk result (λ _. text.new.items ≡ text.old.items ++ lack_told (map (λ r. r.now) ranks.now) asked man.colour wing man.kind home) }
{
    let Man { colour, kind } = man;
    let lacks = asked && !has_man(ranks, colour, kind, home);
    let goal = king_goal(colour, wing);
    push_if(
        text,
        lacks,
        &[
            side_name(colour),
            b" may not castle to ",
            &[goal.file_letter(), goal.rank_digit()],
            b": no",
            own_name(ranks, colour, kind, home),
            b" ",
            kind_name(kind),
            b" stands on ",
            &[home.file_letter(), home.rank_digit()],
        ],
    )
}

/// Tells of a right whose king or rook isn't at home.
#[tactic(auto, unfolding(crate::specs::Fields::right_told))]
fn push_right(
    text: &mut Vec<u8>,
    ranks: &[&[u8]],
    field: &[u8],
    colour: Colour,
    wing: Wing,
) -> Result<(), AllocError>
    ensures { IfOk result (λ _. text.new.items ≡ text.old.items ++ right_told (map (λ r. r.now) ranks.now) field.now colour wing) }
{
    let asked = has_letter(field, right_letter(colour, wing));
    let king = Man {
        colour,
        kind: Kind::King,
    };
    let rook = Man {
        colour,
        kind: Kind::Rook,
    };
    push_lack(text, ranks, asked, king, wing, king_home(colour))?;
    push_lack(text, ranks, asked, rook, wing, rook_home(colour, wing))
}

/// Tells of the rights that letters of `KQkq` say, where they are judged.
#[tactic(auto, unfolding(crate::specs::Fields::rights_told))]
fn push_rights(
    text: &mut Vec<u8>,
    ranks: &[&[u8]],
    are_judged: bool,
    field: &[u8],
) -> Result<(), AllocError>
    ensures { IfOk result (λ _. text.new.items ≡ text.old.items ++ rights_told (map (λ r. r.now) ranks.now) are_judged field.now) }
{
    if !are_judged {
        return Ok(());
    }
    push_right(text, ranks, field, Colour::White, Wing::KingSide)?;
    push_right(text, ranks, field, Colour::White, Wing::QueenSide)?;
    push_right(text, ranks, field, Colour::Black, Wing::KingSide)?;
    push_right(text, ranks, field, Colour::Black, Wing::QueenSide)
}

/// Tells all that is wrong with the castling field.
#[tactic(auto, unfolding(crate::specs::Fields::castling_told))]
pub(crate) fn push_castling(
    text: &mut Vec<u8>,
    ranks: &[&[u8]],
    is_clean: bool,
    field: &[u8],
) -> Result<(), AllocError>
    ensures { IfOk result (λ _. text.new.items ≡ text.old.items ++ castling_told (map (λ r. r.now) ranks.now) is_clean field.now) }
{
    push_castling_field(text, field)?;
    push_rights(text, ranks, is_clean && !is_chess960(field), field)
}

/// Tells where something stands on a square that a target wants empty.
#[tactic(auto, unfolding(crate::specs::Fields::full_told))]
fn push_full(
    text: &mut Vec<u8>,
    ranks: &[&[u8]],
    target: Square,
    square: Square,
) -> Result<(), AllocError>
    ensures { IfOk result (λ _. text.new.items ≡ text.old.items ++ full_told (map (λ r. r.now) ranks.now) target square) }
{
    push_if(
        text,
        letter_on(ranks, square).is_some(),
        &[
            &[target.file_letter(), target.rank_digit()],
            b" is no en passant target: a man stands on ",
            &[square.file_letter(), square.rank_digit()],
        ],
    )
}

/// Tells where the pawn that passed over a target doesn't stand beyond it.
#[tactic(auto, unfolding(crate::specs::Fields::no_pawn_told))]
fn push_no_pawn(
    text: &mut Vec<u8>,
    ranks: &[&[u8]],
    target: Square,
    colour: Colour,
    square: Square,
) -> Result<(), AllocError>
    ensures { IfOk result (λ _. text.new.items ≡ text.old.items ++ no_pawn_told (map (λ r. r.now) ranks.now) target colour square) }
{
    push_if(
        text,
        !has_man(ranks, colour, Kind::Pawn, square),
        &[
            &[target.file_letter(), target.rank_digit()],
            b" is no en passant target: no ",
            colour_name(colour),
            b" pawn stands on ",
            &[square.file_letter(), square.rank_digit()],
        ],
    )
}

/// Tells what is wrong with a target on the rank of the side to move.
#[tactic(auto, unfolding(crate::specs::Fields::target_square_told))]
fn push_target_square(
    text: &mut Vec<u8>,
    ranks: &[&[u8]],
    side: Colour,
    target: Square,
) -> Result<(), AllocError>
    requires { rank_of target ≡ rank_of_target side }
    ensures { IfOk result (λ _. text.new.items ≡ text.old.items ++ target_square_told (map (λ r. r.now) ranks.now) side target) }
{
    let number = target.index() as u8;
    let (beyond, before) = match side {
        Colour::White => (number - 8, number + 8),
        Colour::Black => (number + 8, number - 8),
    };
    push_full(text, ranks, target, target)?;
    push_no_pawn(text, ranks, target, side.other(), Square::numbered(beyond))?;
    push_full(text, ranks, target, Square::numbered(before))
}

/// The rank of a target, which is the sixth where White is to move, and else the third.
fn target_rank(side: Colour) -> u8
    ensures rank { result ≡ rank_of_target side }
    ensures on_board { result < 8 }
{
    match side {
        Colour::White => 5,
        Colour::Black => 2,
    }
}

/// The square that a field names, where that is one on a rank.
#[tactic(auto, unfolding(crate::specs::Fields::square_said))]
fn square_said(field: &[u8], rank: u8) -> Option<Square>
    requires { rank < 8 }
    ensures said { result ≡ square_of_field field.now rank }
    ensures there { IfSome result (λ square. rank_of square ≡ rank) }
{
    match field {
        [file, digit] if b'a' <= *file && *file <= b'h' && *digit == b'1' + rank => {
            Some(Square::numbered(8 * rank + (*file - b'a')))
        }
        _ => None,
    }
}

/// What a target has to be.
fn target_rule(side: Colour) -> &'static [u8]
    ensures { result.now ≡ rule_of_target side }
{
    match side {
        Colour::White => b"- or a square of rank 6",
        Colour::Black => b"- or a square of rank 3",
    }
}

/// Tells what is wrong with a target, where there is one, and nothing is wrong with the ranks.
fn push_said_target(
    text: &mut Vec<u8>,
    ranks: &[&[u8]],
    is_clean: bool,
    side: Colour,
    target: &Option<Square>,
) -> Result<(), AllocError>
    requires { IfSome target.now (λ square. rank_of square ≡ rank_of_target side) }
    ensures { IfOk result (λ _. text.new.items ≡ text.old.items ++ said_target_told (map (λ r. r.now) ranks.now) is_clean side target.now) }
{
    match target {
        Some(target) if is_clean => push_target_square(text, ranks, side, *target),
        _ => Ok(()),
    }
}

/// Tells where the target field is neither a dash nor the square that it names.
#[tactic(auto, unfolding(crate::specs::Fields::target_field_told))]
fn push_target_field(
    text: &mut Vec<u8>,
    side: Colour,
    field: &[u8],
    target: &Option<Square>,
) -> Result<(), AllocError>
    ensures { IfOk result (λ _. text.new.items ≡ text.old.items ++ target_field_told side field.now target.now) }
{
    let is_right = is_dash(field) || target.is_some();
    push_field(
        text,
        field,
        is_right,
        b"en passant target",
        target_rule(side),
    )
}

/// Tells all that is wrong with the target.
#[tactic(auto, unfolding(crate::specs::Fields::target_told))]
pub(crate) fn push_target(
    text: &mut Vec<u8>,
    ranks: &[&[u8]],
    is_clean: bool,
    side: Colour,
    field: &[u8],
) -> Result<(), AllocError>
    ensures { IfOk result (λ _. text.new.items ≡ text.old.items ++ target_told (map (λ r. r.now) ranks.now) is_clean side field.now) }
{
    let target = square_said(field, target_rank(side));
    push_target_field(text, side, field, &target)?;
    push_said_target(text, ranks, is_clean, side, &target)
}

/// Tells where there is no target, of a side that isn't known.
pub(crate) fn push_no_target(text: &mut Vec<u8>, field: &[u8]) -> Result<(), AllocError>
    ensures { IfOk result (λ _. text.new.items ≡ text.old.items ++ no_target_told field.now) }
{
    push_field(text, field, true, b"en passant target", b"")
}

#[tactic(auto, unfolding(crate::specs::Fields::is_counter_text))]
fn is_counter_text(field: &[u8]) -> bool
    ensures { result ≡ is_text_of_counter field.now }
{
    chess_notation::are_digits(field) && field.len() <= 4
}

/// Tells where a counter isn't right.
pub(crate) fn push_counter(text: &mut Vec<u8>, field: &[u8], name: &[u8]) -> Result<(), AllocError>
    ensures { IfOk result (λ _. text.new.items ≡ text.old.items ++ counter_told field.now name.now) }
{
    push_field(
        text,
        field,
        is_counter_text(field),
        name,
        b"one to four digits",
    )
}
