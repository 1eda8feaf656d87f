//! What tells that a text speaks of an aim.

ghost use Rattle.std.specs.Prelude.{◌≡◌, []};
ghost use Rattle.std.specs.List.{list_any};
ghost use Rattle.stipulations.specs.Aims.{is_aim as is_word_of_other_aim, is_condition as is_word_of_condition};
ghost use Rattle.stipulations.specs.Aims.{is_foreign_aim as is_word_of_foreign_aim, is_of_aim as is_word_of_aim};
ghost use Rattle.chess_board.specs.Characters.{char};
ghost use Rattle.stipulations.specs.OtherNumbers.{any_word};
ghost use Rattle.stipulations.specs.Aims.{is_chess960 as is_word_chess960};
ghost use Rattle.stipulations.specs.Aims.{have_pair, is_pair as is_pair_of_aim};
ghost use Rattle.stipulations.specs.Aims.{is_plain_aim as is_word_of_plain_aim, is_short as is_short_word, say_mate_within};
ghost use Rattle.stipulations.specs.Aims.{says_mate as is_word_of_mate, speaks as does_speak, speaks_plainly as does_speak_plainly};
ghost use Rattle.stipulations.specs.Words.{words_of};

use crate::other_numbers::{first_word, is_gap, says_other_number};
use crate::sides::says_who_begins;
use crate::signs::{has_digits_before_sign, has_joined_sign, has_sign_before_digit, is_answer};
use crate::words::{cut_word, ends_with_one, is_among, is_word};

static ENDS_OF_MATES: [&str; 14] = [
    "mate", "mates", "mated", "mating", "matt", "mat", "mata", "matto", "matta", "maten", "matent",
    "mover", "zuger", "zueger",
];

static AIMS: [&str; 44] = [
    "help",
    "helps",
    "self",
    "selfs",
    "reflex",
    "semi",
    "series",
    "serial",
    "ser",
    "retro",
    "retractor",
    "retract",
    "retracts",
    "retraction",
    "retroanalysis",
    "add",
    "adds",
    "remove",
    "removes",
    "twin",
    "twins",
    "twinning",
    "duplex",
    "win",
    "wins",
    "draw",
    "draws",
    "inv",
    "cooperate",
    "cooperates",
    "cooperative",
    "forces",
    "suicide",
    "giveaway",
    "losing",
    "proofgame",
    "illegal",
    "cluster",
    "rotate",
    "rotates",
    "rotated",
    "kriegspiel",
    "progressive",
    "zeroposition",
];

static CONDITIONS: [&str; 83] = [
    "circe",
    "anticirce",
    "andernach",
    "madrasi",
    "maximummer",
    "minimummer",
    "grid",
    "cylinder",
    "cylindrical",
    "patrol",
    "koko",
    "einstein",
    "alice",
    "isardam",
    "koeko",
    "kobul",
    "masand",
    "provocation",
    "imitator",
    "berolina",
    "grasshopper",
    "grasshoppers",
    "nightrider",
    "nightriders",
    "neutral",
    "atomic",
    "antichess",
    "monochromatic",
    "bichromatic",
    "pwc",
    "make",
    "lion",
    "lions",
    "locust",
    "camel",
    "zebra",
    "tsirtse",
    "begins",
    "fairy",
    "feerique",
    "feen",
    "marchen",
    "maerchen",
    "marchenschach",
    "maerchenschach",
    "gitter",
    "zylinder",
    "torus",
    "randlos",
    "chameleon",
    "chamaleon",
    "chamaeleon",
    "checkless",
    "schachlos",
    "schlagzwang",
    "rauber",
    "raeuber",
    "rauberschach",
    "raeuberschach",
    "sentinels",
    "platzwechsel",
    "kamikaze",
    "rifle",
    "antiking",
    "antikings",
    "crazyhouse",
    "atom",
    "messigny",
    "parrain",
    "singlebox",
    "grashupfer",
    "grashuepfer",
    "nachtreiter",
    "sauterelle",
    "sauterelles",
    "noctambule",
    "noctambules",
    "saltamontes",
    "transmuting",
    "amazon",
    "amazons",
    "pao",
    "royal",
];

static FOREIGN_AIMS: [&str; 54] = [
    "patt",
    "remis",
    "gewinn",
    "gewinnt",
    "zwilling",
    "zwillinge",
    "aide",
    "inverse",
    "reflexe",
    "pat",
    "gain",
    "nulle",
    "serie",
    "retrograde",
    "ayudado",
    "inverso",
    "reflejo",
    "tablas",
    "ahogado",
    "gana",
    "ganan",
    "patta",
    "stallo",
    "vince",
    "remise",
    "winst",
    "wint",
    "nichya",
    "vyigrysh",
    "vyigryvayut",
    "hilfe",
    "hilfs",
    "selbst",
    "serienzug",
    "retroanalyse",
    "zuruck",
    "zurueck",
    "bzw",
    "jumeaux",
    "hulp",
    "zelf",
    "samo",
    "pomocniczy",
    "aiuto",
    "auto",
    "obratnyi",
    "obratnoe",
    "obratnaya",
    "obratnogo",
    "kooperativ",
    "kooperativnyi",
    "kooperativnoe",
    "kooperativnaya",
    "kooperativnogo",
];

static PLAIN_AIMS: [&str; 22] = [
    "helpmate",
    "helpmates",
    "selfmate",
    "selfmates",
    "reflexmate",
    "helpstalemate",
    "selfstalemate",
    "serieshelpmate",
    "seriesmover",
    "circe",
    "anticirce",
    "andernach",
    "madrasi",
    "maximummer",
    "hilfsmatt",
    "selbstmatt",
    "hulpmat",
    "zelfmat",
    "aiutomatto",
    "automatto",
    "retractor",
    "duplex",
];

static MATES: [&str; 6] = ["mate", "mates", "checkmate", "matt", "mat", "matto"];

static WORDS_BEHIND_MATE: [&str; 5] = ["in", "en", "v", "w", "within"];

/// Whether a word is one for a mate.
#[tactic(auto, unfolding(crate::specs::Aims::says_mate))]
fn says_mate(word: &[u8]) -> bool
    ensures { result ≡ is_word_of_mate word.now }
{
    ends_with_one(word, &ENDS_OF_MATES)
}

/// Whether a word is one for another aim, or for what is asked besides.
#[tactic(auto, unfolding(crate::specs::Aims::is_aim))]
fn is_aim(word: &[u8]) -> bool
    ensures { result ≡ is_word_of_other_aim word.now }
{
    is_among(word, &AIMS)
}

/// The same in languages other than English.
#[tactic(auto, unfolding(crate::specs::Aims::is_foreign_aim))]
fn is_foreign_aim(word: &[u8]) -> bool
    ensures { result ≡ is_word_of_foreign_aim word.now }
{
    is_among(word, &FOREIGN_AIMS)
}

/// Whether a word is a condition of fairy chess.
#[tactic(auto, unfolding(crate::specs::Aims::is_condition))]
fn is_condition(word: &[u8]) -> bool
    ensures { result ≡ is_word_of_condition word.now }
{
    is_among(word, &CONDITIONS)
}

/// Whether a word has too few letters to tell of one.
fn is_short(word: &[u8]) -> bool
    ensures { result ≡ is_short_word word.now }
{
    word.len() < 3
}

/// Whether a word tells of an aim.
#[tactic(auto, unfolding(crate::specs::Aims::is_of_aim))]
fn is_of_aim(word: &[u8]) -> bool
    ensures { result ≡ is_word_of_aim word.now }
{
    !is_short(word)
        && (says_mate(word) || is_aim(word) || is_foreign_aim(word) || is_condition(word))
}

/// Whether a word of a text tells of an aim.
#[tactic(auto, unfolding(crate::specs::Words::words_of))]
fn has_word_of_aim(text: &[u8]) -> bool
    ensures { result ≡ list_any is_word_of_aim (words_of text.now) }
{
    let mut rest = text;
    while !rest.is_empty() {
        let (word, behind) = cut_word(rest);
        if !word.is_empty() && is_of_aim(word) {
            return true;
        }
        rest = behind;
    }
    false
}

/// Whether two words tell of an aim where one follows the other.
#[tactic(auto, unfolding(crate::specs::Aims::is_pair))]
fn is_pair(before: &[u8], word: &[u8]) -> bool
    ensures { result ≡ is_pair_of_aim before.now word.now }
{
    is_among(before, &["proof"]) && is_among(word, &["game", "games"])
        || is_among(before, &["last", "letzter", "dernier"])
            && is_among(word, &["move", "zug", "coup"])
        || is_among(before, &["takes"]) && is_among(word, &["back"])
        || is_among(before, &["both"]) && is_among(word, &["sides"])
        || is_among(before, &["dark", "fischer"]) && is_among(word, &["chess", "random"])
        || is_among(before, &["zero"]) && is_among(word, &["position"])
}

/// Whether two such words stand in a text.
#[tactic(auto, unfolding(crate::specs::Words::words_of))]
fn has_pair(text: &[u8]) -> bool
    ensures { result ≡ have_pair [] (words_of text.now) }
{
    let mut before: &[u8] = &[];
    let mut rest = text;
    while !rest.is_empty() {
        let (word, behind) = cut_word(rest);
        if !word.is_empty() {
            if is_pair(before, word) {
                return true;
            }
            before = word;
        }
        rest = behind;
    }
    false
}

/// Whether a word of a text is `chess960`, which is no word of letters alone.
fn has_chess960(text: &[u8]) -> bool
    ensures { result ≡ any_word is_word_chess960 (char " ") text.now }
{
    let mut before = b' ';
    let mut rest = text;
    while let [byte, more @ ..] = rest {
        if is_gap(before) && !is_gap(*byte) && is_word(first_word(rest), "chess960") {
            return true;
        }
        before = *byte;
        rest = more;
    }
    false
}

/// Whether a part of a text speaks of an aim.
#[tactic(auto, unfolding(crate::specs::Aims::speaks))]
pub(crate) fn speaks(part: &[u8]) -> bool
    ensures { result ≡ does_speak part.now }
{
    (has_word_of_aim(part)
        || has_pair(part)
        || has_sign_before_digit(part)
        || has_digits_before_sign(part)
        || says_other_number(part)
        || has_chess960(part))
        && !(is_answer(part) || says_who_begins(part))
}

/// Whether a word is one for an aim that names don't have.
#[tactic(auto, unfolding(crate::specs::Aims::is_plain_aim))]
fn is_plain_aim(word: &[u8]) -> bool
    ensures { result ≡ is_word_of_plain_aim word.now }
{
    is_among(word, &PLAIN_AIMS)
}

/// Whether a word of a text is one that names don't have.
#[tactic(auto, unfolding(crate::specs::Words::words_of))]
fn has_plain_aim(text: &[u8]) -> bool
    ensures { result ≡ list_any is_word_of_plain_aim (words_of text.now) }
{
    let mut rest = text;
    while !rest.is_empty() {
        let (word, behind) = cut_word(rest);
        if !word.is_empty() && is_plain_aim(word) {
            return true;
        }
        rest = behind;
    }
    false
}

/// Whether a word for a mate stands in a text, and `in` or the like as the next word.
#[tactic(auto, unfolding(crate::specs::Words::words_of))]
fn says_mate_within(text: &[u8]) -> bool
    ensures { result ≡ say_mate_within [] (words_of text.now) }
{
    let mut before: &[u8] = &[];
    let mut rest = text;
    while !rest.is_empty() {
        let (word, behind) = cut_word(rest);
        if !word.is_empty() {
            if is_among(before, &MATES) && is_among(word, &WORDS_BEHIND_MATE) {
                return true;
            }
            before = word;
        }
        rest = behind;
    }
    false
}

/// Whether a part of the name of an author or a tourney speaks of an aim.
#[tactic(auto, unfolding(crate::specs::Aims::speaks_plainly))]
pub(crate) fn speaks_plainly(part: &[u8]) -> bool
    ensures { result ≡ does_speak_plainly part.now }
{
    has_plain_aim(part)
        || says_mate_within(part)
        || has_joined_sign(part)
        || says_other_number(part)
}
