//! A position as a diagram.

ghost use Rattle.std.specs.Prelude.{◌≡◌, ◌++◌, IfOk, decimal};
ghost use Rattle.chess_board.specs.Fields.{square_text};
ghost use Rattle.chess_board.specs.Placement.{man_letter};
ghost use Rattle.problem_sheets.specs.Diagrams.{board_shape, board_text, colour_name, column_from, coordinates, diagram_start, diagram_text};
ghost use Rattle.problem_sheets.specs.Diagrams.{drawing_text, each_square, kind_name, label_text, letter_text, mark_text, men_shapes, name_at};
ghost use Rattle.problem_sheets.specs.Diagrams.{name_text, place_text, row_from, shape_at, shape_text, shapes, side_words};
ghost use Rattle.problem_sheets.specs.Diagrams.{drawing, filled_text, kind_shape, kind_shapes, man_shape, mark_shape, side_shapes};
ghost use Rattle.problem_sheets.specs.Diagrams.{svg_start, svg_text, use_text};

use crate::shapes::{
    BISHOP, BLACK_COORDINATES, BOARD, KING, KNIGHT, MARK, PAWN, QUEEN, ROOK, WHITE_COORDINATES,
};
use chess_board::{Colour, Kind, Man, Position, Square};
use itoa::Buffer;
use std::alloc::{AllocError, Global};

/// A man's letter as in FEN, a capital for White and a small one for Black.
fn man_letter(man: Man) -> u8
    ensures { result ≡ man_letter man }
{
    match man.colour {
        Colour::White => man.kind.letter(),
        Colour::Black => man.kind.letter() + 32,
    }
}

/// Adds a number.
pub(crate) fn push_number(text: &mut Vec<u8>, number: usize) -> Result<(), AllocError>
    ensures { IfOk result (λ _. text.new.items ≡ text.old.items ++ decimal number) }
{
    let mut digits = Buffer::new();
    text.extend_from_slice(digits.format(number).as_bytes())
}

/// How many squares stand to the left of a square, as a side sees the board.
fn column_from(from: Colour, square: Square) -> u8
    ensures { result ≡ column_from from square }
{
    match from {
        Colour::White => square.file(),
        Colour::Black => 7 - square.file(),
    }
}

/// How many stand above it.
fn row_from(from: Colour, square: Square) -> u8
    ensures { result ≡ row_from from square }
{
    match from {
        Colour::White => 7 - square.rank(),
        Colour::Black => square.rank(),
    }
}

/// Adds the place of a square, as a side sees the board.
#[tactic(auto, unfolding(crate::specs::Diagrams::place_text))]
fn push_place(text: &mut Vec<u8>, from: Colour, square: Square) -> Result<(), AllocError>
    ensures { IfOk result (λ _. text.new.items ≡ text.old.items ++ place_text from square) }
{
    text.extend_from_slice(b"\" x=\"")?;
    push_number(text, 45 * (column_from(from, square) as usize))?;
    text.extend_from_slice(b"\" y=\"")?;
    push_number(text, 45 * (row_from(from, square) as usize))?;
    text.extend_from_slice(b"\"/>")
}

/// Adds how a shape is used.
#[tactic(auto, unfolding(crate::specs::Diagrams::use_text))]
fn push_use(text: &mut Vec<u8>) -> Result<(), AllocError>
    ensures { IfOk result (λ _. text.new.items ≡ text.old.items ++ use_text) }
{
    text.extend_from_slice(b"<use href=\"#")
}

/// Adds a man's letter.
#[tactic(auto, unfolding(crate::specs::Diagrams::letter_text))]
fn push_letter(text: &mut Vec<u8>, man: Man) -> Result<(), AllocError>
    ensures { IfOk result (λ _. text.new.items ≡ text.old.items ++ letter_text man) }
{
    text.push(man_letter(man))?;
    Ok(())
}

/// Adds a man's shape at a square.
#[tactic(auto, unfolding(crate::specs::Diagrams::shape_text))]
fn push_shape(text: &mut Vec<u8>, from: Colour, man: Man, square: Square) -> Result<(), AllocError>
    ensures { IfOk result (λ _. text.new.items ≡ text.old.items ++ shape_text from man square) }
{
    push_use(text)?;
    push_letter(text, man)?;
    push_place(text, from, square)
}

/// Adds the shape of the man on a square, if one stands there.
fn push_shape_at(
    text: &mut Vec<u8>,
    from: Colour,
    position: &Position,
    square: Square,
) -> Result<(), AllocError>
    ensures { IfOk result (λ _. text.new.items ≡ text.old.items ++ shape_at from position.now.men square) }
{
    match position.man(square) {
        Some(man) => push_shape(text, from, man, square),
        None => Ok(()),
    }
}

/// Adds the shape of each man at its square.
fn push_shapes(text: &mut Vec<u8>, from: Colour, position: &Position) -> Result<(), AllocError>
    ensures { IfOk result (λ _. text.new.items ≡ text.old.items ++ each_square (shape_at from position.now.men)) }
{
    for number in 0..64 {
        push_shape_at(text, from, position, Square::numbered(number))?;
    }
    Ok(())
}

/// What a man is called.
fn kind_name(kind: Kind) -> &'static [u8]
    ensures { result.now ≡ kind_name kind }
{
    match kind {
        Kind::Pawn => b"pawn",
        Kind::Knight => b"knight",
        Kind::Bishop => b"bishop",
        Kind::Rook => b"rook",
        Kind::Queen => b"queen",
        Kind::King => b"king",
    }
}

/// Adds a square: its file's letter and its rank's digit.
pub(crate) fn push_square(text: &mut Vec<u8>, square: Square) -> Result<(), AllocError>
    ensures { IfOk result (λ _. text.new.items ≡ text.old.items ++ square_text square) }
{
    text.push(square.file_letter())?;
    text.push(square.rank_digit())?;
    Ok(())
}

/// Adds what a man of this colour is called, and its square; nothing for a man of the other.
fn push_name(text: &mut Vec<u8>, colour: Colour, man: Man, square: Square) -> Result<(), AllocError>
    ensures { IfOk result (λ _. text.new.items ≡ text.old.items ++ name_text colour man square) }
{
    if man.colour == colour {
        text.extend_from_slice(colour_name(colour))?;
        text.extend_from_slice(kind_name(man.kind))?;
        text.push(b' ')?;
        push_square(text, square)?;
    }
    Ok(())
}

/// What stands before a man's name.
fn colour_name(colour: Colour) -> &'static [u8]
    ensures { result.now ≡ colour_name colour }
{
    match colour {
        Colour::White => b", white ",
        Colour::Black => b", black ",
    }
}

/// Adds the name of the man on a square, if one of this colour stands there.
fn push_name_at(
    text: &mut Vec<u8>,
    colour: Colour,
    position: &Position,
    square: Square,
) -> Result<(), AllocError>
    ensures { IfOk result (λ _. text.new.items ≡ text.old.items ++ name_at colour position.now.men square) }
{
    match position.man(square) {
        Some(man) => push_name(text, colour, man, square),
        None => Ok(()),
    }
}

/// Adds the names of a side's men with their squares.
fn push_names(text: &mut Vec<u8>, colour: Colour, position: &Position) -> Result<(), AllocError>
    ensures { IfOk result (λ _. text.new.items ≡ text.old.items ++ each_square (name_at colour position.now.men)) }
{
    for number in 0..64 {
        push_name_at(text, colour, position, Square::numbered(number))?;
    }
    Ok(())
}

/// Which side moves.
fn side_words(side: Colour) -> &'static [u8]
    ensures { result.now ≡ side_words side }
{
    match side {
        Colour::White => b"White to move",
        Colour::Black => b"Black to move",
    }
}

/// Adds what a diagram shows, in words.
#[tactic(auto, unfolding(crate::specs::Diagrams::label_text))]
fn push_label(text: &mut Vec<u8>, position: &Position) -> Result<(), AllocError>
    ensures { IfOk result (λ _. text.new.items ≡ text.old.items ++ label_text position.now) }
{
    text.extend_from_slice(side_words(position.side()))?;
    push_names(text, Colour::White, position)?;
    push_names(text, Colour::Black, position)?;
    Ok(())
}

/// Adds the mark of a side that moves: Black has one, by its own side of the board.
fn push_mark(text: &mut Vec<u8>, from: Colour, position: &Position) -> Result<(), AllocError>
    ensures { IfOk result (λ _. text.new.items ≡ text.old.items ++ mark_text from position.now.side) }
{
    match (position.side(), from) {
        (Colour::White, _) => Ok(()),
        (Colour::Black, Colour::White) => text.extend_from_slice(b"<use href=\"#mark\"/>"),
        (Colour::Black, Colour::Black) => {
            text.extend_from_slice(b"<use href=\"#mark\" y=\"262\"/>")
        }
    }
}

/// Adds the board.
#[tactic(auto, unfolding(crate::specs::Diagrams::board_text))]
fn push_board(text: &mut Vec<u8>) -> Result<(), AllocError>
    ensures { IfOk result (λ _. text.new.items ≡ text.old.items ++ board_text) }
{
    text.extend_from_slice(b"<use href=\"#board\"/>")
}

/// Adds the board, the men on it, and the mark of the side that moves.
#[tactic(auto, unfolding(crate::specs::Diagrams::drawing_text))]
fn push_drawing(text: &mut Vec<u8>, from: Colour, position: &Position) -> Result<(), AllocError>
    ensures { IfOk result (λ _. text.new.items ≡ text.old.items ++ drawing_text from position.now) }
{
    push_board(text)?;
    push_shapes(text, from, position)?;
    push_mark(text, from, position)
}

/// Adds what a diagram of a page begins with.
#[tactic(auto, unfolding(crate::specs::Diagrams::diagram_start))]
fn push_diagram_start(text: &mut Vec<u8>) -> Result<(), AllocError>
    ensures { IfOk result (λ _. text.new.items ≡ text.old.items ++ diagram_start) }
{
    text.extend_from_slice(b"<svg viewBox=\"-20 -3 392 386\" role=\"img\" aria-label=\"")
}

/// Adds a diagram to a page, which has the shapes elsewhere, as White sees it.
#[tactic(auto, unfolding(crate::specs::Diagrams::diagram_text))]
pub(crate) fn push_diagram(text: &mut Vec<u8>, position: &Position) -> Result<(), AllocError>
    ensures { IfOk result (λ _. text.new.items ≡ text.old.items ++ diagram_text position.now) }
{
    push_diagram_start(text)?;
    push_label(text, position)?;
    text.extend_from_slice(b"\">")?;
    push_drawing(text, Colour::White, position)?;
    text.extend_from_slice(b"</svg>")
}

/// The coordinates of a board as a side sees it.
#[tactic(auto, unfolding(crate::specs::Diagrams::coordinates))]
fn coordinates(from: Colour) -> &'static str
    ensures { result.now ≡ coordinates from }
{
    match from {
        Colour::White => WHITE_COORDINATES,
        Colour::Black => BLACK_COORDINATES,
    }
}

/// Adds the shape of the board, up to its coordinates.
#[tactic(auto, unfolding(crate::specs::Diagrams::board_shape))]
fn push_board_shape(text: &mut Vec<u8>) -> Result<(), AllocError>
    ensures { IfOk result (λ _. text.new.items ≡ text.old.items ++ board_shape) }
{
    text.extend_from_slice(BOARD.as_bytes())
}

/// The drawing of a kind.
fn drawing(kind: Kind) -> &'static str
    ensures { result.now ≡ drawing kind }
{
    match kind {
        Kind::Pawn => PAWN,
        Kind::Knight => KNIGHT,
        Kind::Bishop => BISHOP,
        Kind::Rook => ROOK,
        Kind::Queen => QUEEN,
        Kind::King => KING,
    }
}

/// Adds that drawing, which is called by the kind's name.
#[tactic(auto, unfolding(crate::specs::Diagrams::kind_shape))]
fn push_kind_shape(text: &mut Vec<u8>, kind: Kind) -> Result<(), AllocError>
    ensures { IfOk result (λ _. text.new.items ≡ text.old.items ++ kind_shape kind) }
{
    text.extend_from_slice(b"<g id='")?;
    text.extend_from_slice(kind_name(kind))?;
    text.extend_from_slice(
        b"' stroke-width='1.6' stroke-linejoin='round' stroke-linecap='round'>\n",
    )?;
    text.extend_from_slice(drawing(kind).as_bytes())?;
    text.extend_from_slice(b"</g>\n")
}

/// Adds the drawings of all kinds.
#[tactic(auto, unfolding(crate::specs::Diagrams::kind_shapes))]
fn push_kind_shapes(text: &mut Vec<u8>) -> Result<(), AllocError>
    ensures { IfOk result (λ _. text.new.items ≡ text.old.items ++ kind_shapes) }
{
    push_kind_shape(text, Kind::Pawn)?;
    push_kind_shape(text, Kind::Knight)?;
    push_kind_shape(text, Kind::Bishop)?;
    push_kind_shape(text, Kind::Rook)?;
    push_kind_shape(text, Kind::Queen)?;
    push_kind_shape(text, Kind::King)
}

/// How a side's men are filled: White's white and Black's black, with lines of the other colour.
fn filled_text(colour: Colour) -> &'static [u8]
    ensures { result.now ≡ filled_text colour }
{
    match colour {
        Colour::White => b"' fill='#fff' stroke='#000' color='#000'><use href='#",
        Colour::Black => b"' fill='#000' stroke='#000' color='#fff'><use href='#",
    }
}

/// Adds a man's shape, which is called by its letter: the drawing of its kind, filled with its colour.
#[tactic(auto, unfolding(crate::specs::Diagrams::man_shape))]
fn push_man_shape(text: &mut Vec<u8>, colour: Colour, kind: Kind) -> Result<(), AllocError>
    ensures { IfOk result (λ _. text.new.items ≡ text.old.items ++ man_shape colour kind) }
{
    text.extend_from_slice(b"<g id='")?;
    push_letter(text, Man { kind, colour })?;
    text.extend_from_slice(filled_text(colour))?;
    text.extend_from_slice(kind_name(kind))?;
    text.extend_from_slice(b"'/></g>\n")
}

/// Adds the shapes of a side's men.
#[tactic(auto, unfolding(crate::specs::Diagrams::side_shapes))]
fn push_side_shapes(text: &mut Vec<u8>, colour: Colour) -> Result<(), AllocError>
    ensures { IfOk result (λ _. text.new.items ≡ text.old.items ++ side_shapes colour) }
{
    push_man_shape(text, colour, Kind::King)?;
    push_man_shape(text, colour, Kind::Queen)?;
    push_man_shape(text, colour, Kind::Rook)?;
    push_man_shape(text, colour, Kind::Bishop)?;
    push_man_shape(text, colour, Kind::Knight)?;
    push_man_shape(text, colour, Kind::Pawn)
}

/// Adds the shape of the mark.
#[tactic(auto, unfolding(crate::specs::Diagrams::mark_shape))]
fn push_mark_shape(text: &mut Vec<u8>) -> Result<(), AllocError>
    ensures { IfOk result (λ _. text.new.items ≡ text.old.items ++ mark_shape) }
{
    text.extend_from_slice(MARK.as_bytes())
}

/// Adds what follows them: the shapes of the mark and of the men.
#[tactic(auto, unfolding(crate::specs::Diagrams::men_shapes))]
fn push_men_shapes(text: &mut Vec<u8>) -> Result<(), AllocError>
    ensures { IfOk result (λ _. text.new.items ≡ text.old.items ++ men_shapes) }
{
    push_mark_shape(text)?;
    push_kind_shapes(text)?;
    push_side_shapes(text, Colour::White)?;
    push_side_shapes(text, Colour::Black)?;
    text.extend_from_slice(b"</defs>\n")
}

/// Adds all shapes: of the board as a side sees it, of the mark and of the men.
#[tactic(auto, unfolding(crate::specs::Diagrams::shapes))]
pub(crate) fn push_all_shapes(text: &mut Vec<u8>, from: Colour) -> Result<(), AllocError>
    ensures { IfOk result (λ _. text.new.items ≡ text.old.items ++ shapes from) }
{
    push_board_shape(text)?;
    text.extend_from_slice(coordinates(from).as_bytes())?;
    push_men_shapes(text)
}

/// Adds what an image begins with.
#[tactic(auto, unfolding(crate::specs::Diagrams::svg_start))]
fn push_svg_start(text: &mut Vec<u8>) -> Result<(), AllocError>
    ensures { IfOk result (λ _. text.new.items ≡ text.old.items ++ svg_start) }
{
    text.extend_from_slice(
        b"<svg xmlns=\"http://www.w3.org/2000/svg\" viewBox=\"-20 -3 392 386\" role=\"img\" aria-label=\"",
    )
}

/// A diagram alone, as an image in Scalable Vector Graphics, with a newline at its end: the side that it is seen from below, each man at
/// its square, a mark where Black moves, and in words what it shows.
#[tactic(auto, unfolding(crate::specs::Diagrams::svg_text))]
pub fn svg_text(alloc: Global, position: &Position, from: Colour) -> Result<Vec<u8>, AllocError>
    ensures { IfOk result (λ text. text.items ≡ svg_text from position.now) }
{
    let mut text = Vec::new(alloc);
    push_svg_start(&mut text)?;
    push_label(&mut text, position)?;
    text.extend_from_slice(b"\">\n")?;
    push_all_shapes(&mut text, from)?;
    push_drawing(&mut text, from, position)?;
    text.extend_from_slice(b"</svg>\n")?;
    Ok(text)
}
