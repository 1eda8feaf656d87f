//! FEN, read and printed.

ghost use Rattle.std.specs.Prelude.{◌≡◌, ◌↔◌, ◌≤◌, ◌≢◌, ◌∷◌, [], Ok, IfSome, IfNone, IfOk, IfErr, length};
ghost use Rattle.chess_board.specs.Positions.{Setup as SetupValue};
ghost use Rattle.chess_board.specs.Soundness.{IsSound};
ghost use Rattle.chess_board.specs.Faults.{IsFirst, spelling_faults, field_faults};
ghost use Rattle.chess_board.specs.Fens.{FenValue, SpellsSetup, Spells, IsAmiss, IsFault, parts, position_text, fen_text};

use crate::cuts::cut_at;
use crate::faults::FenFault;
use crate::fields::{
    counter_of_text, push_castling, push_counter, push_side, push_target, rights_of_text,
    side_of_text, target_of_text,
};
use crate::placement::{men_of_text, push_placement};
use crate::positions::{Position, sound_position};
use crate::setups::Setup;
use arrayvec::ArrayString;
use std::marker::Model;

/// A position with FEN's two counters, each at most 9,999.
#[derive(Clone, Copy, Debug, PartialEq, Eq, Hash)]
pub struct Fen {
    pub position: Position,
    /// Half moves since the last capture or pawn move.
    pub halfmove: u16,
    /// The number of the full move.
    pub fullmove: u16,
}

impl Model for Fen {
    ghost use Rattle.std.specs.Prelude.{◌≤◌};
    ghost use Rattle.chess_board.specs.Fens.{FenValue};

    ghost Value = { FenValue };

    ghost view = { λ f. record { position = f.position; halfmove = f.halfmove; fullmove = f.fullmove } };

    ghost invariant = { λ f. (f.halfmove ≤ 9999) × (f.fullmove ≤ 9999) };

    ghost inverse = { λ v. record { position = v.position; halfmove = v.halfmove; fullmove = v.fullmove } };
}

/// The six fields of a FEN, as they stand in its text.
#[derive(Clone, Copy)]
struct SixFields<'a> {
    placement: &'a [u8],
    side: &'a [u8],
    castling: &'a [u8],
    target: &'a [u8],
    halfmove: &'a [u8],
    fullmove: &'a [u8],
}

/// The fields of a text, where one space stands between each two of six.
fn six_fields(text: &[u8]) -> Option<SixFields<'_>>
    ensures none { IfNone result (length (parts text.now) ≢ 6) }
    ensures fields { IfSome result (λ f. parts text.now
        ≡ f.placement.now ∷ f.side.now ∷ f.castling.now ∷ f.target.now ∷ f.halfmove.now ∷ f.fullmove.now ∷ []) }
{
    let (placement, rest) = cut_at(text, b' ')?;
    let (side, rest) = cut_at(rest, b' ')?;
    let (castling, rest) = cut_at(rest, b' ')?;
    let (target, rest) = cut_at(rest, b' ')?;
    let (halfmove, fullmove) = cut_at(rest, b' ')?;
    match cut_at(fullmove, b' ') {
        Some(_) => None,
        None => Some(SixFields {
            placement,
            side,
            castling,
            target,
            halfmove,
            fullmove,
        }),
    }
}

/// What four fields say, or the first fault of those that are not spelt right.
fn setup_of_fields(
    placement: &[u8],
    side: &[u8],
    castling: &[u8],
    target: &[u8],
) -> Result<Setup, FenFault>
    ensures read { IfOk result (λ p. SpellsSetup
        (record { placement = placement.now; side = side.now; castling = castling.now; target = target.now }) p) }
    ensures refused { IfErr result (λ fault. IsFirst (IsAmiss
        (record { placement = placement.now; side = side.now; castling = castling.now; target = target.now })) spelling_faults fault) }
{
    let Some(board) = men_of_text(placement) else {
        return Err(FenFault::BadPlacement);
    };
    let Some(side) = side_of_text(side) else {
        return Err(FenFault::BadSide);
    };
    let Some(rights) = rights_of_text(castling) else {
        return Err(FenFault::BadCastling);
    };
    let Some(target) = target_of_text(side, target) else {
        return Err(FenFault::BadTarget);
    };
    Ok(Setup {
        board,
        side,
        rights,
        target,
    })
}

/// Reads a FEN: six fields with one space between each two (PGN Specification, section 16.1).
///
/// Castling letters are read in any order, and leading zeros of the counters are dropped. What is no FEN of a sound position is
/// refused by the first fault that applies, in the order of `FenFault`.
#[tactic(auto, unfolding(crate::specs::Fens::IsFault))]
pub fn read_fen(text: &[u8]) -> Result<Fen, FenFault>
    ensures exact { (f : FenValue) → (result ≡ Ok f) ↔ (Spells text.now f × IsSound f.position) }
    ensures refused { IfErr result (λ fault. IsFault text.now fault) }
{
    let Some(fields) = six_fields(text) else {
        return Err(FenFault::FieldCount);
    };
    let setup = setup_of_fields(
        fields.placement,
        fields.side,
        fields.castling,
        fields.target,
    )?;
    let Some(halfmove) = counter_of_text(fields.halfmove) else {
        return Err(FenFault::BadCounter);
    };
    let Some(fullmove) = counter_of_text(fields.fullmove) else {
        return Err(FenFault::BadCounter);
    };
    let position = sound_position(&setup)?;
    Ok(Fen {
        position,
        halfmove,
        fullmove,
    })
}

/// Reads the first four fields of a FEN (PGN Specification, sections 16.1.3.1 to 16.1.3.4), each without the spaces around it, by
/// the checks that `read_fen` makes of them.
///
/// What spells no sound position is refused by the first fault that applies; `FieldCount` and `BadCounter` never do.
pub fn read_fields(
    placement: &[u8],
    side: &[u8],
    rights: &[u8],
    target: &[u8],
) -> Result<Position, FenFault>
    ensures exact { (p : SetupValue) → (result ≡ Ok p)
        ↔ (SpellsSetup (record { placement = placement.now; side = side.now; castling = rights.now; target = target.now }) p × IsSound p) }
    ensures refused { IfErr result (λ fault. IsFirst (IsAmiss
        (record { placement = placement.now; side = side.now; castling = rights.now; target = target.now })) field_faults fault) }
{
    let setup = setup_of_fields(placement, side, rights, target)?;
    sound_position(&setup)
}

impl Position {
    /// The first four fields of its FEN, with one space between each two (PGN Specification, section 16.1).
    #[tactic(auto, unfolding(crate::specs::Fens::position_text))]
    pub fn text(&self) -> ArrayString<96>
        ensures text { result.bytes ≡ position_text self.now }
        ensures sound { IsSound self.now }
    {
        let mut text = ArrayString::new();
        push_placement(&mut text, &self.board().places());
        text.push(' ');
        push_side(&mut text, self.side());
        text.push(' ');
        push_castling(&mut text, self.rights());
        text.push(' ');
        push_target(&mut text, &self.ep_target());
        text
    }
}

impl Fen {
    /// The one canonical FEN (PGN Specification, section 16.1): castling letters in the order `KQkq`, counters without leading
    /// zeros.
    #[tactic(auto, unfolding(crate::specs::Fens::fen_text))]
    pub fn text(&self) -> ArrayString<128>
        ensures text { result.bytes ≡ fen_text self.now }
        ensures spelt { Spells result.bytes self.now }
        ensures sound { IsSound self.now.position }
    {
        let mut text = ArrayString::new();
        text.push_str(self.position.text().as_str());
        push_counter(&mut text, self.halfmove);
        push_counter(&mut text, self.fullmove);
        text
    }
}

/// Reads a FEN's own text: what was printed reads as the same value.
pub fn reads_back(fen: &Fen) -> Result<Fen, FenFault>
    ensures { result ≡ Ok fen.now }
{
    read_fen(fen.text().as_bytes())
}
