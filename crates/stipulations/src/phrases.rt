//! Phrases that say a mate in so many moves: what stands before and behind their number, by language.

ghost use Rattle.std.specs.Prelude.{◌≡◌};
ghost use Rattle.stipulations.specs.Parts.{squeezed};
ghost use Rattle.stipulations.specs.Phrases.{in_dutch as said_in_dutch, in_english as said_in_english, in_french as said_in_french};
ghost use Rattle.stipulations.specs.Phrases.{in_german as said_in_german, in_italian as said_in_italian, in_phrase as said_in_phrase};
ghost use Rattle.stipulations.specs.Phrases.{in_polish as said_in_polish, in_russian as said_in_russian, in_signs as said_in_signs};
ghost use Rattle.stipulations.specs.Phrases.{in_spanish as said_in_spanish, in_words as said_in_words};

use crate::numbers::{Language, first_of};
use crate::patterns::number_between;

/// What problemists write behind `#2` or `2#`: a star for set play, v or vv for variations, C+ where a program tested the problem.
static MARKS: [&str; 6] = ["", "*", "v", "vv", " c+", "c+"];

static SIGN_AND_MARKS: [&str; 6] = ["#", "#*", "#v", "#vv", "# c+", "#c+"];

fn in_signs(text: &[u8]) -> Option<u8>
    ensures { result ≡ said_in_signs (squeezed text.now) }
{
    first_of(
        number_between(Language::Signs, &["#"], &MARKS, text),
        number_between(Language::Signs, &[""], &SIGN_AND_MARKS, text),
    )
}

static FRONTS_IN_ENGLISH: [&str; 20] = [
    "mate in ",
    "mate within ",
    "mate in #",
    "checkmate in ",
    "mates in ",
    "play and mate in ",
    "to play and mate in ",
    "to move and mate in ",
    "white mates in ",
    "white to move and mate in ",
    "white to play and mate in ",
    "white to mate in ",
    "white can mate in ",
    "white plays and mates in ",
    "black mates in ",
    "black to move and mate in ",
    "black to play and mate in ",
    "black to mate in ",
    "black can mate in ",
    "black plays and mates in ",
];

static BACKS_IN_ENGLISH: [&str; 3] = ["", " moves", " move"];

static MOVERS: [&str; 3] = ["-mover", " mover", "-move mate"];

fn in_english(text: &[u8]) -> Option<u8>
    ensures { result ≡ said_in_english (squeezed text.now) }
{
    first_of(
        number_between(
            Language::English,
            &FRONTS_IN_ENGLISH,
            &BACKS_IN_ENGLISH,
            text,
        ),
        number_between(Language::English, &[""], &MOVERS, text),
    )
}

static FRONTS_IN_GERMAN: [&str; 1] = ["matt in "];

static BACKS_IN_GERMAN: [&str; 4] = ["", " zugen", " zuegen", " zug"];

static SETTING_FRONTS: [&str; 10] = [
    "weiss zieht und setzt in ",
    "weiss zieht an und setzt in ",
    "weiss beginnt und setzt in ",
    "weiss am zug setzt in ",
    "weiss setzt in ",
    "schwarz zieht und setzt in ",
    "schwarz zieht an und setzt in ",
    "schwarz beginnt und setzt in ",
    "schwarz am zug setzt in ",
    "schwarz setzt in ",
];

static SETTING_BACKS: [&str; 2] = [" zugen matt", " zuegen matt"];

static ZUGER: [&str; 4] = ["-zuger", "-zueger", "zuger", "zueger"];

fn in_german(text: &[u8]) -> Option<u8>
    ensures { result ≡ said_in_german (squeezed text.now) }
{
    first_of(
        number_between(Language::German, &FRONTS_IN_GERMAN, &BACKS_IN_GERMAN, text),
        first_of(
            number_between(Language::German, &SETTING_FRONTS, &SETTING_BACKS, text),
            number_between(Language::German, &[""], &ZUGER, text),
        ),
    )
}

static FRONTS_IN_FRENCH: [&str; 7] = [
    "mat en ",
    "les blancs jouent et font mat en ",
    "les blancs jouent et matent en ",
    "les blancs font mat en ",
    "les noirs jouent et font mat en ",
    "les noirs jouent et matent en ",
    "les noirs font mat en ",
];

static BACKS_IN_FRENCH: [&str; 3] = ["", " coups", " coup"];

fn in_french(text: &[u8]) -> Option<u8>
    ensures { result ≡ said_in_french (squeezed text.now) }
{
    number_between(Language::French, &FRONTS_IN_FRENCH, &BACKS_IN_FRENCH, text)
}

static FRONTS_IN_SPANISH: [&str; 5] = [
    "mate en ",
    "las blancas juegan y dan mate en ",
    "blancas juegan y dan mate en ",
    "las negras juegan y dan mate en ",
    "negras juegan y dan mate en ",
];

static BACKS_IN_SPANISH: [&str; 3] = ["", " jugadas", " movimientos"];

fn in_spanish(text: &[u8]) -> Option<u8>
    ensures { result ≡ said_in_spanish (squeezed text.now) }
{
    number_between(
        Language::Spanish,
        &FRONTS_IN_SPANISH,
        &BACKS_IN_SPANISH,
        text,
    )
}

static FRONTS_IN_ITALIAN: [&str; 5] = [
    "matto in ",
    "il bianco muove e matta in ",
    "il bianco muove e da matto in ",
    "il nero muove e matta in ",
    "il nero muove e da matto in ",
];

static BACKS_IN_ITALIAN: [&str; 2] = ["", " mosse"];

fn in_italian(text: &[u8]) -> Option<u8>
    ensures { result ≡ said_in_italian (squeezed text.now) }
{
    number_between(
        Language::Italian,
        &FRONTS_IN_ITALIAN,
        &BACKS_IN_ITALIAN,
        text,
    )
}

static FRONTS_IN_DUTCH: [&str; 7] = [
    "mat in ",
    "wit speelt en geeft mat in ",
    "wit begint en geeft mat in ",
    "wit geeft mat in ",
    "zwart speelt en geeft mat in ",
    "zwart begint en geeft mat in ",
    "zwart geeft mat in ",
];

static BACKS_IN_DUTCH: [&str; 2] = ["", " zetten"];

fn in_dutch(text: &[u8]) -> Option<u8>
    ensures { result ≡ said_in_dutch (squeezed text.now) }
{
    number_between(Language::Dutch, &FRONTS_IN_DUTCH, &BACKS_IN_DUTCH, text)
}

static FRONTS_IN_POLISH: [&str; 3] = [
    "mat w ",
    "biale zaczynaja i daja mata w ",
    "czarne zaczynaja i daja mata w ",
];

static BACKS_IN_POLISH: [&str; 2] = ["", " posunieciach"];

fn in_polish(text: &[u8]) -> Option<u8>
    ensures { result ≡ said_in_polish (squeezed text.now) }
{
    number_between(Language::Polish, &FRONTS_IN_POLISH, &BACKS_IN_POLISH, text)
}

static FRONTS_IN_RUSSIAN: [&str; 5] = [
    "mat v ",
    "belye nachinayut i dayut mat v ",
    "belye dayut mat v ",
    "chernye nachinayut i dayut mat v ",
    "chernye dayut mat v ",
];

static BACKS_IN_RUSSIAN: [&str; 4] = ["", " khoda", " khodov", " khod"];

fn in_russian(text: &[u8]) -> Option<u8>
    ensures { result ≡ said_in_russian (squeezed text.now) }
{
    number_between(
        Language::Russian,
        &FRONTS_IN_RUSSIAN,
        &BACKS_IN_RUSSIAN,
        text,
    )
}

/// The number of moves that a phrase in words says.
#[tactic(auto, unfolding(crate::specs::Phrases::in_words))]
pub(crate) fn in_words(text: &[u8]) -> Option<u8>
    ensures { result ≡ said_in_words (squeezed text.now) }
{
    first_of(
        first_of(
            first_of(in_english(text), in_german(text)),
            first_of(in_french(text), in_spanish(text)),
        ),
        first_of(
            first_of(in_italian(text), in_dutch(text)),
            first_of(in_polish(text), in_russian(text)),
        ),
    )
}

/// The number of moves that a phrase says, in signs or in words.
#[tactic(auto, unfolding(crate::specs::Phrases::in_phrase))]
pub(crate) fn in_phrase(text: &[u8]) -> Option<u8>
    ensures { result ≡ said_in_phrase (squeezed text.now) }
{
    match in_signs(text) {
        Some(moves) => Some(moves),
        None => in_words(text),
    }
}
