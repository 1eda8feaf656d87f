//! Who is said to move, or to mate.

ghost use Rattle.std.specs.Prelude.{◌≡◌};
ghost use Rattle.std.specs.List.{list_any};
ghost use Rattle.stipulations.specs.Parts.{squeezed, tidied};
ghost use Rattle.stipulations.specs.Sides.{begins_with_front, is_of_black as is_part_of_black, is_of_side as is_part_of_side};
ghost use Rattle.stipulations.specs.Sides.{is_of_white as is_part_of_white, says_side as does_say_side, says_who_begins as is_beginning_said};

use crate::parts::{cut_part, trimmed};
use crate::patterns::{behind_front, is_one_back};
use chess_board::Colour;

static OF_WHITE: [&str; 36] = [
    "white to move",
    "white to play",
    "white to mate",
    "white mates in",
    "white can mate in",
    "white plays and",
    "weiss am zug",
    "weiss zieht",
    "weiss beginnt",
    "weiss setzt",
    "les blancs jouent",
    "les blancs font mat",
    "las blancas juegan",
    "blancas juegan",
    "il bianco muove",
    "wit speelt",
    "wit begint",
    "wit geeft mat",
    "biale zaczynaja",
    "belye nachinayut",
    "belye dayut",
    "white begins",
    "white starts",
    "white to start",
    "white plays first",
    "white moves first",
    "weiss ist am zug",
    "anziehender weiss",
    "trait aux blancs",
    "les blancs commencent",
    "juegan las blancas",
    "juegan blancas",
    "muove il bianco",
    "tratto al bianco",
    "wit aan zet",
    "khod belykh",
];

static OF_BLACK: [&str; 36] = [
    "black to move",
    "black to play",
    "black to mate",
    "black mates in",
    "black can mate in",
    "black plays and",
    "schwarz am zug",
    "schwarz zieht",
    "schwarz beginnt",
    "schwarz setzt",
    "les noirs jouent",
    "les noirs font mat",
    "las negras juegan",
    "negras juegan",
    "il nero muove",
    "zwart speelt",
    "zwart begint",
    "zwart geeft mat",
    "czarne zaczynaja",
    "chernye nachinayut",
    "chernye dayut",
    "black begins",
    "black starts",
    "black to start",
    "black plays first",
    "black moves first",
    "schwarz ist am zug",
    "anziehender schwarz",
    "trait aux noirs",
    "les noirs commencent",
    "juegan las negras",
    "juegan negras",
    "muove il nero",
    "tratto al nero",
    "zwart aan zet",
    "khod chernykh",
];

/// Whether a text begins with one of these fronts, small and large letters alike.
fn begins_with_one(text: &[u8], fronts: &[&str]) -> bool
    ensures { result ≡ list_any (λ front. begins_with_front (squeezed text.now) front.now) fronts.now }
{
    for front in fronts {
        if behind_front(front, text).is_some() {
            return true;
        }
    }
    false
}

/// Whether a part of a text says that White moves, or mates.
#[tactic(auto, unfolding(crate::specs::Sides::is_of_white))]
fn is_of_white(part: &[u8]) -> bool
    ensures { result ≡ is_part_of_white part.now }
{
    begins_with_one(trimmed(part), &OF_WHITE)
}

/// Whether a part of a text says that Black moves, or mates.
#[tactic(auto, unfolding(crate::specs::Sides::is_of_black))]
fn is_of_black(part: &[u8]) -> bool
    ensures { result ≡ is_part_of_black part.now }
{
    begins_with_one(trimmed(part), &OF_BLACK)
}

/// Whether a part of a text says that the side moves, or mates.
fn is_of_side(side: Colour, part: &[u8]) -> bool
    ensures { result ≡ is_part_of_side side part.now }
{
    match side {
        Colour::White => is_of_white(part),
        Colour::Black => is_of_black(part),
    }
}

/// Whether a text says that the side moves, or mates.
#[tactic(auto, unfolding(crate::specs::Sides::says_side, crate::specs::Parts::parts_of))]
pub fn says_side(text: &[u8], side: Colour) -> bool
    ensures { result ≡ does_say_side side text.now }
{
    let mut rest = text;
    while !rest.is_empty() {
        let (part, behind) = cut_part(rest);
        if !part.is_empty() && is_of_side(side, part) {
            return true;
        }
        rest = behind;
    }
    false
}

/// Whether a part of a text says who begins, and no more.
pub(crate) fn says_who_begins(part: &[u8]) -> bool
    ensures { result ≡ is_beginning_said (tidied part.now) }
{
    is_one_back(trimmed(part), &["white begins", "black begins"])
}
