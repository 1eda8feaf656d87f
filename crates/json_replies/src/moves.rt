//! The legal moves of a FEN, or why it is refused, as an object of JSON.

ghost use Rattle.std.specs.Prelude.{◌≡◌, ◌++◌, IfOk, OnOk, true};
ghost use Rattle.chess_board.specs.Legality.{is_legal};
ghost use Rattle.chess_moves.specs.Verdicts.{verdict_of};
ghost use Rattle.json_replies.specs.Moves.{ending, error_json as error_json_of, move_object, move_objects as move_objects_of, moves_json as moves_json_of};

use crate::cuts::without_first;
use crate::strings::push_string;
use chess_board::{Fen, Move, Position};
use chess_moves::{Rays, Verdict, legal, legal_listed, verdict};
use chess_notation::san;
use std::alloc::{AllocError, Global};

/// Adds the object of a legal move behind a comma.
fn push_move(out: &mut Vec<u8>, rays: &Rays, position: &Position, m: Move) -> Result<(), AllocError>
    requires { is_legal position.now m ≡ true }
    ensures { OnOk result (out.new.items ≡ out.old.items ++ move_object position.now m) }
{
    out.extend_from_slice(b",{\"san\":")?;
    push_string(out, san(rays, position, m).as_str().as_bytes())?;
    out.extend_from_slice(b",\"coordinates\":")?;
    push_string(out, m.text().as_str().as_bytes())?;
    out.extend_from_slice(b"}")?;
    Ok(())
}

/// The objects of the legal moves, each behind a comma.
#[tactic(auto, unfolding(crate::specs::Moves::move_objects))]
fn move_objects(alloc: Global, rays: &Rays, position: &Position) -> Result<Vec<u8>, AllocError>
    ensures { IfOk result (λ text. text.items ≡ move_objects_of position.now) }
{
    let moves = legal(rays, position);
    // That each of them is legal by itself, as `san` asks.
    legal_listed();
    let mut text = Vec::new(alloc);
    for m in moves.as_slice() {
        push_move(&mut text, rays, position, *m)?;
    }
    Ok(text)
}

/// Adds how the game has ended, where there is no move.
fn push_ending(out: &mut Vec<u8>, rays: &Rays, position: &Position) -> Result<(), AllocError>
    ensures { OnOk result (out.new.items ≡ out.old.items ++ ending (verdict_of position.now)) }
{
    match verdict(rays, position) {
        Verdict::Play => Ok(()),
        Verdict::Mate => out.extend_from_slice(b",\"verdict\":\"mate\""),
        Verdict::Stalemate => out.extend_from_slice(b",\"verdict\":\"stalemate\""),
    }
}

/// The legal moves of a FEN in move order, and how the game has ended where there is none, with a newline behind it.
#[tactic(auto, unfolding(crate::specs::Moves::moves_json))]
pub fn moves_json(alloc: Global, rays: &Rays, fen: &Fen) -> Result<Vec<u8>, AllocError>
    ensures { IfOk result (λ text. text.items ≡ moves_json_of fen.now) }
{
    let moves = move_objects(alloc, rays, &fen.position)?;
    let mut out = Vec::from_slice(alloc, b"{\"fen\":")?;
    push_string(&mut out, fen.text().as_str().as_bytes())?;
    out.extend_from_slice(b",\"moves\":[")?;
    out.extend_from_slice(without_first(moves.as_slice()))?;
    out.extend_from_slice(b"]")?;
    push_ending(&mut out, rays, &fen.position)?;
    out.extend_from_slice(b"}\n")?;
    Ok(out)
}

/// The name of the fault by which a FEN is refused, with a newline behind the object.
#[tactic(auto, unfolding(crate::specs::Moves::error_json))]
pub fn error_json(alloc: Global, name: &str) -> Result<Vec<u8>, AllocError>
    ensures { IfOk result (λ text. text.items ≡ error_json_of name.now) }
{
    let mut out = Vec::from_slice(alloc, b"{\"error\":")?;
    push_string(&mut out, name.as_bytes())?;
    out.extend_from_slice(b"}\n")?;
    Ok(out)
}
