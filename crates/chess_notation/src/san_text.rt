//! The text of a move in Standard Algebraic Notation (SAN).

ghost use Rattle.std.specs.Prelude.{◌≡◌, ◌+◌, ◌++◌, ◌<◌, ◌≤◌, true};
ghost use Rattle.arrayvec.specs.ArrayString.{array_string_len};
ghost use Rattle.chess_board.specs.Legality.{is_legal};
ghost use Rattle.chess_notation.specs.SanText.{is_capture as is_capture_in, becomes_text, pawn_text, piece_text};
ghost use Rattle.chess_notation.specs.SanText.{wing_text, bare_text, suffix_text, san_text};

use crate::disambiguation::{push_disambiguation, rivals_of};
use arrayvec::ArrayString;
use chess_board::{
    Kind, Man, Move, Position, Wing, after, is_castling, is_en_passant, push_square, wing_of,
};
use chess_moves::{Rays, in_check, is_mated};

/// Whether the move captures: a man on its target, or a pawn en passant.
fn is_capture(position: &Position, man: Man, m: Move) -> bool
    ensures { result ≡ is_capture_in position.now man m }
{
    position.man(m.target).is_some() || is_en_passant(position, man, m)
}

/// Writes what a pawn becomes, or nothing.
fn push_promotion(text: &mut ArrayString<8>, promotion: Option<Kind>)
    requires { array_string_len text.old + 2 ≤ 8 }
    ensures text { text.new.bytes ≡ text.old.bytes ++ becomes_text promotion }
    ensures short { array_string_len text.new ≤ array_string_len text.old + 2 }
{
    if let Some(kind) = promotion {
        text.push('=');
        text.push(kind.letter() as char);
    }
}

/// Writes a pawn's move. Its capture begins with the file that it leaves.
fn push_pawn(text: &mut ArrayString<8>, position: &Position, man: Man, m: Move)
    requires { array_string_len text.old + 6 ≤ 8 }
    ensures text { text.new.bytes ≡ text.old.bytes ++ pawn_text position.now man m }
    ensures short { array_string_len text.new ≤ array_string_len text.old + 6 }
{
    if is_capture(position, man, m) {
        text.push(m.origin.file_letter() as char);
        text.push('x');
    }
    push_square(text, m.target);
    push_promotion(text, m.promotion);
}

/// Writes castling on a wing.
fn push_castling(text: &mut ArrayString<8>, wing: Wing)
    requires { array_string_len text.old + 5 ≤ 8 }
    ensures text { text.new.bytes ≡ text.old.bytes ++ wing_text wing }
    ensures short { array_string_len text.new ≤ array_string_len text.old + 5 }
{
    match wing {
        Wing::KingSide => text.push_str("O-O"),
        Wing::QueenSide => text.push_str("O-O-O"),
    }
}

/// Writes a piece's move: its letter, its disambiguation, `x` for a capture, and its target.
fn push_piece(text: &mut ArrayString<8>, rays: &Rays, position: &Position, man: Man, m: Move)
    requires { array_string_len text.old + 6 ≤ 8 }
    ensures text { text.new.bytes ≡ text.old.bytes ++ piece_text position.now man m }
    ensures short { array_string_len text.new ≤ array_string_len text.old + 6 }
{
    text.push(man.kind.letter() as char);
    push_disambiguation(text, rivals_of(rays, position, man, m), m.origin);
    if is_capture(position, man, m) {
        text.push('x');
    }
    push_square(text, m.target);
}

/// Writes a move without its suffix. Only a piece's text asks for the legal moves.
#[tactic(auto, unfolding(crate::specs::SanText::bare_text))]
fn push_bare(text: &mut ArrayString<8>, rays: &Rays, position: &Position, m: Move)
    requires { array_string_len text.old + 6 ≤ 8 }
    ensures text { text.new.bytes ≡ text.old.bytes ++ bare_text position.now m }
    ensures short { array_string_len text.new ≤ array_string_len text.old + 6 }
{
    let Some(man) = position.man(m.origin) else {
        return;
    };
    if man.kind == Kind::Pawn {
        push_pawn(text, position, man, m);
    } else if is_castling(man, m) {
        push_castling(text, wing_of(m.origin, m.target));
    } else {
        push_piece(text, rays, position, man, m);
    }
}

/// Writes the suffix of mate or of check, or nothing, for the position after a move. Mate is asked about in check alone.
#[tactic(auto, unfolding(crate::specs::SanText::suffix_text))]
fn push_suffix(text: &mut ArrayString<8>, rays: &Rays, position: &Position)
    requires { array_string_len text.old < 8 }
    ensures { text.new.bytes ≡ text.old.bytes ++ suffix_text position.now }
{
    if !in_check(rays, position) {
        return;
    }
    if is_mated(rays, position) {
        text.push('#');
    } else {
        text.push('+');
    }
}

/// The text of a move without its suffix.
pub(crate) fn bare(rays: &Rays, position: &Position, m: Move) -> ArrayString<8>
    ensures { result.bytes ≡ bare_text position.now m }
{
    let mut text = ArrayString::new();
    push_bare(&mut text, rays, position, m);
    text
}

/// The text of a legal move in Standard Algebraic Notation (PGN Specification, section 8.2.3): `e4`, `exd6`, `c8=N#`, `Nf3`,
/// `R1a3`, `Qh4e1`, `O-O-O`, with `+` where it gives check and `#` where it gives mate. It takes no memory.
#[tactic(auto, unfolding(crate::specs::SanText::san_text))]
pub fn san(rays: &Rays, position: &Position, m: Move) -> ArrayString<8>
    requires { is_legal position.now m ≡ true }
    ensures { result.bytes ≡ san_text position.now m }
{
    let mut text = ArrayString::new();
    push_bare(&mut text, rays, position, m);
    push_suffix(&mut text, rays, &after(position, m));
    text
}
