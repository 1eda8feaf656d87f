//! A board, drawn in letters.

ghost use Rattle.std.specs.Prelude.{◌≡◌, ◌++◌, ◌<◌, All, IfOk};
ghost use Rattle.chess_views.specs.Boards.{board_text, files_from, files_line, place_letter, rank_line, ranks_from};

use chess_board::{Colour, Man, Position, Square};
use std::alloc::{AllocError, Global};

/// What is drawn of a square: the letter of its man as in FEN, a capital for White and a small one for Black, or a dot.
fn place_letter(place: Option<Man>) -> u8
    ensures { result ≡ place_letter place }
{
    match place {
        None => b'.',
        Some(man) => match man.colour {
            Colour::White => man.kind.letter(),
            Colour::Black => man.kind.letter() + 32,
        },
    }
}

/// The files from left to right, as a side sees them.
fn files_from(side: Colour) -> [u8; 8]
    ensures files { result ≡ files_from side }
    ensures on_board { All (λ file. file < 8) result }
{
    match side {
        Colour::White => [0, 1, 2, 3, 4, 5, 6, 7],
        Colour::Black => [7, 6, 5, 4, 3, 2, 1, 0],
    }
}

/// The ranks from above, as a side sees them.
fn ranks_from(side: Colour) -> [u8; 8]
    ensures ranks { result ≡ ranks_from side }
    ensures on_board { All (λ rank. rank < 8) result }
{
    files_from(side.other())
}

/// Adds the line of a rank.
#[tactic(auto, unfolding(crate::specs::Boards::rank_line))]
fn push_rank(
    text: &mut Vec<u8>,
    position: &Position,
    from: Colour,
    rank: u8,
) -> Result<(), AllocError>
    requires { rank < 8 }
    ensures { IfOk result (λ _. text.new.items ≡ text.old.items ++ rank_line from position.now.men rank) }
{
    text.push(b'1' + rank)?;
    text.push(b' ')?;
    for file in files_from(from) {
        let square = Square::numbered(8 * rank + file);
        text.push(b' ')?;
        text.push(place_letter(position.man(square)))?;
    }
    text.push(b'\n')?;
    Ok(())
}

/// Adds the line of the files' letters.
#[tactic(auto, unfolding(crate::specs::Boards::files_line))]
fn push_files(text: &mut Vec<u8>, from: Colour) -> Result<(), AllocError>
    ensures { IfOk result (λ _. text.new.items ≡ text.old.items ++ files_line from) }
{
    text.extend_from_slice(b"  ")?;
    for file in files_from(from) {
        text.push(b' ')?;
        text.push(b'a' + file)?;
    }
    text.push(b'\n')?;
    Ok(())
}

/// The board as a side sees it, White the eighth rank above and Black the first: a line for each rank, and one for the letters of the
/// files.
#[tactic(auto, unfolding(crate::specs::Boards::board_text))]
pub fn board_text(alloc: Global, position: &Position, from: Colour) -> Result<Vec<u8>, AllocError>
    ensures { IfOk result (λ text. text.items ≡ board_text from position.now.men) }
{
    let mut text = Vec::new(alloc);
    for rank in ranks_from(from) {
        push_rank(&mut text, position, from, rank)?;
    }
    push_files(&mut text, from)?;
    Ok(text)
}
